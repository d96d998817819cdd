// The readings of single poses.
use super::report;
use geometry::isometry::Isometry;
use geometry::quaternion::Quaternion;
use geometry::vector3::Vector3;
use libm::float::from_bits;
use std::io;

// A translation without a rotation.
pub(crate) fn moved(x: f64, y: f64) -> Isometry {
    Isometry {
        translation: Vector3 { x, y, z: 0.0 },
        rotation: Quaternion::IDENTITY,
    }
}

// A rotation (w, 0, 0, 0) without a translation, by the bits of w.
pub(crate) fn turned(w: u64) -> Isometry {
    Isometry {
        translation: Vector3::ZERO,
        rotation: Quaternion {
            w: from_bits(w),
            x: 0.0,
            y: 0.0,
            z: 0.0,
        },
    }
}

// w = 1 + 4503599627/2^52 and the next float.
pub(crate) const TAKEN: u64 = 0x3ff0_0001_0c6f_7a0b;

pub(crate) const REFUSED: u64 = 0x3ff0_0001_0c6f_7a0c;

fn sqrt(rt: &impl Print, x: f64, expected: &[u8]) -> io::Result<()> {
    report::asked_float(rt, "root of", x)?;
    report::compare_written(
        rt,
        expected,
        |out| answers::write_float_answer(out, libm::sqrt(x)),
    )
}

pub(crate) fn roots(rt: &impl Print) -> io::Result<()> {
    sqrt(rt, 0.0, b"float 0000000000000000")?;
    sqrt(rt, 4.0, b"float 4000000000000000")?;
    // 2^-1074
    sqrt(rt, 5e-324, b"float 1e60000000000000")
}

fn validate(rt: &impl Print, p: Isometry, expected: &[u8]) -> io::Result<()> {
    report::put(rt, b"validate")?;
    report::asked_pose(rt, p)?;
    let result = geometry::transform::validate(p);
    report::compare_written(rt, expected, |out| answers::write_posed(out, result))
}

pub(crate) fn tolerance(rt: &impl Print) -> io::Result<()> {
    validate(
        rt,
        turned(TAKEN),
        b"pose 0000000000000000 0000000000000000 0000000000000000 3ff000010c6f7a0b 0000000000000000 0000000000000000 0000000000000000",
    )?;
    validate(rt, turned(REFUSED), b"no 4 3ff000010c6f7a0c")
}

pub(crate) fn interpolation(rt: &impl Print) -> io::Result<()> {
    report::put(
        rt,
        b"x 0 at 0 and 4 at 4000000000, interpolated at 1000000000",
    )?;
    let result = moved(0.0, 0.0).interpolate(moved(4.0, 0.0), 0, 4000000000, 1000000000);
    report::compare_written(
        rt,
        b"pose 3ff0000000000000 0000000000000000 0000000000000000 3ff0000000000000 0000000000000000 0000000000000000 0000000000000000",
        |out| answers::write_posed(out, result),
    )
}
