// Vectors, rotations and poses of f64, from src/geometry of the Rust.
#![tactic(auto)]

pub mod error;
pub mod isometry;
pub mod quaternion;
pub mod transform;
pub mod vector3;
