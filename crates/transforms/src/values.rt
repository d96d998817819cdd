// What several words of a line say: a pose, a stamp, an age.
use geometry::isometry::Isometry;
use geometry::quaternion::Quaternion;
use geometry::vector3::Vector3;
use text::Words;
use time::stamp::Stamp;

fn translation(words: &mut Words<'_>) -> Option<Vector3> {
    let x = words.float()?;
    let y = words.float()?;
    let z = words.float()?;
    Some(Vector3 { x, y, z })
}

fn rotation(words: &mut Words<'_>) -> Option<Quaternion> {
    let w = words.float()?;
    let x = words.float()?;
    let y = words.float()?;
    let z = words.float()?;
    Some(Quaternion { w, x, y, z })
}

pub(crate) fn pose(words: &mut Words<'_>) -> Option<Isometry> {
    let translation = translation(words)?;
    let rotation = rotation(words)?;
    Some(Isometry {
        translation,
        rotation,
    })
}

// A kind and an instant: 0 is static, 1 moving.
pub(crate) fn stamp(words: &mut Words<'_>) -> Option<Stamp> {
    let kind = words.number()?;
    let instant = words.number()?;
    match kind {
        0 => Some(Stamp::Static),
        1 => Some(Stamp::At(instant)),
        _ => None,
    }
}

// `none` or a number.
pub(crate) fn max_age(words: &mut Words<'_>) -> Option<Option<u64>> {
    if words.keyword(b"none") {
        return Some(None);
    }
    Some(Some(words.number()?))
}
