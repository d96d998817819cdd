// What a call answers to C.
use geometry::isometry::Isometry;
use geometry::quaternion::Quaternion;
use geometry::vector3::Vector3;

// 0 or the number of the refusal, and what goes with it; a field that is not carried is 0. No byte is padding: a copy of
// padding made every call that answers a pose wait for its own stores.
#[repr(C)]
#[derive(Drop)]
pub struct Answer {
    pub number: u32,
    pub frame: u32,
    pub has_range: u32,
    pub is_static: u32,
    pub is_record: u32,
    pub reserved: u32,
    pub start: u64,
    pub end: u64,
    pub norm: f64,
    pub instant: u64,
    pub index: u64,
    pub pose: Isometry,
}

impl Answer {
    // Done, with nothing carried.
    pub(crate) const DONE: Answer = Answer {
        number: 0,
        frame: 0,
        has_range: 0,
        is_static: 0,
        is_record: 0,
        reserved: 0,
        start: 0,
        end: 0,
        norm: 0.0,
        instant: 0,
        index: 0,
        pose: Isometry {
            translation: Vector3::ZERO,
            rotation: Quaternion {
                w: 0.0,
                x: 0.0,
                y: 0.0,
                z: 0.0,
            },
        },
    };
}

// What the book of a map's names answers for a name: 0 or the number of the refusal, whether the file gives the name,
// and its number.
#[repr(C)]
#[derive(Drop)]
pub struct FrameAnswer {
    pub number: u32,
    pub is_known: u32,
    pub frame: u32,
}

// .. and for a number: whether the file gives it, and where in the file its name stands.
#[repr(C)]
#[derive(Drop)]
pub struct NameAnswer {
    pub number: u32,
    pub is_known: u32,
    pub start: usize,
    pub count: usize,
}
