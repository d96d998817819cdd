// Translations, from src/geometry/vector3/mod.rs.
ghost use Rattle.std.specs.Prelude.{◌≡◌};
ghost use Rattle.geometry.specs.Vector3.{zero_vector, add, scale, is_finite};

use libm::float::is_finite;
use std::ops::{Add, Mul};

#[repr(C)]
#[derive(Clone, Copy, Debug, PartialEq)]
pub struct Vector3 {
    pub x: f64,
    pub y: f64,
    pub z: f64,
}

impl Vector3 {
    pub const ZERO: Vector3 = Vector3 {
        x: 0.0,
        y: 0.0,
        z: 0.0,
    };

    pub fn zero() -> Self
        ensures { result ≡ zero_vector }
    {
        Self::ZERO
    }

    pub fn is_finite(self) -> bool
        ensures { result ≡ is_finite self }
    {
        is_finite(self.x) && is_finite(self.y) && is_finite(self.z)
    }
}

impl Add for Vector3 {
    type Output = Vector3;

    ghost add_gives = { λ a b sum. sum ≡ add a b };

    fn add(self, other: Vector3) -> Vector3 {
        Vector3 {
            x: self.x + other.x,
            y: self.y + other.y,
            z: self.z + other.z,
        }
    }
}

impl Mul<Vector3> for f64 {
    type Output = Vector3;

    ghost mul_gives = { λ factor a scaled. scaled ≡ scale factor a };

    fn mul(self, rhs: Vector3) -> Vector3 {
        Vector3 {
            x: self * rhs.x,
            y: self * rhs.y,
            z: self * rhs.z,
        }
    }
}
