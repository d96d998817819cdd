// A name and a record of a map file, and what stands behind them.
ghost use Rattle.std.specs.Prelude.{◌≡◌, ◌+◌, ◌*◌, ◌^◌, ◌≤◌, ◌<◌, length, take, drop, option_map, IfSome};
ghost use Rattle.std.specs.Float.{binary64};
ghost use Rattle.std.specs.Float.Ieee.{of_bits};
ghost use Rattle.map_file.specs.Form.{number, name_from, record_from};
ghost use Rattle.map_file.specs.Reads.{behind_name, NameWithin, name_at, record_of, pose_of_words};

use geometry::isometry::Isometry;
use geometry::quaternion::Quaternion;
use geometry::vector3::Vector3;

// The seven floats of a record.
pub const POSE_BYTES: usize = 56;

// The most bytes that a name has.
const LONGEST_NAME: u8 = 32;

// A name: where its first byte stands in the file, and its bytes.
#[derive(Clone, Copy)]
pub struct Name<'a> {
    pub start: usize,
    pub bytes: &'a [u8],
}

// A record: two names and the bytes of seven floats.
#[derive(Clone, Copy)]
pub struct Record<'a> {
    pub child: Name<'a>,
    pub parent: Name<'a>,
    pub pose: &'a [u8; POSE_BYTES],
}

// The place behind the name whose length byte stands at a place, which the caller knows to lie within the file.
pub fn behind_name(map: &[u8], at: usize) -> usize
    requires { NameWithin map.now at }
    ensures { result ≡ behind_name map.now at }
{
    at + 1 + map[at] as usize
}

// The bytes of that name.
pub fn name_at(map: &[u8], at: usize) -> &[u8]
    requires { NameWithin map.now at }
    ensures { result.now ≡ name_at map.now at }
{
    let end = behind_name(map, at);
    &map[at + 1..end]
}

// The float whose eight bytes begin at a place. (By places: the parts of a pose are not alike, so no loop goes over them.)
fn float_at(bytes: &[u8], at: usize) -> f64
    requires { at + 8 ≤ length bytes.now }
    ensures { result ≡ of_bits binary64 (number (take 8 (drop at bytes.now))) }
{
    let word = bytes[at..].first_chunk().unwrap();
    libm::float::from_bits(u64::from_le_bytes(*word))
}

impl Record<'_> {
    // Its pose.
    pub fn pose(&self) -> Isometry
        ensures { result ≡ pose_of_words (record_of self.now).pose }
    {
        let bytes = self.pose;
        Isometry {
            translation: Vector3 {
                x: float_at(bytes, 0),
                y: float_at(bytes, 8),
                z: float_at(bytes, 16),
            },
            rotation: Quaternion {
                w: float_at(bytes, 24),
                x: float_at(bytes, 32),
                y: float_at(bytes, 40),
                z: float_at(bytes, 48),
            },
        }
    }
}

// What stands in a file from a place on.
#[derive(Clone, Copy)]
pub(crate) struct Rest<'a> {
    pub(crate) start: usize,
    pub(crate) bytes: &'a [u8],
    ghost fits: { start + length bytes.now < 2 ^ 64 },
}

impl<'a> Rest<'a> {
    ghost use Rattle.map_file.specs.walks.Rests.{name_read, NamePlaced, record_read, RecordPlaced};

    // A length byte of 1 to 32 and that many bytes, and what stands behind them.
    fn name(self) -> Option<(Name<'a>, Rest<'a>)>
        ensures read { option_map name_read result ≡ name_from self.entry.bytes.now }
        ensures places { IfSome result (λ p. NamePlaced self.entry p.0 p.1) }
    {
        let &count = self.bytes.first()?;
        if !(1..=LONGEST_NAME).contains(&count) {
            return None;
        }
        let (_, bytes) = self.bytes.split_at_checked(count as usize + 1)?;
        let name = Name {
            start: self.start + 1,
            bytes: name_at(self.bytes, 0),
        };
        let start = self.start + behind_name(self.bytes, 0);
        Some((name, Rest { start, bytes }))
    }

    // Two names and seven floats, and what stands behind them.
    #[tactic(auto, using(crate::proofs::RecordParts::no_child, crate::proofs::RecordParts::no_parent, crate::proofs::RecordParts::no_pose, crate::proofs::RecordParts::all_parts))]
    pub(crate) fn record(self) -> Option<(Record<'a>, Rest<'a>)>
        ensures read { option_map record_read result ≡ record_from self.entry.bytes.now }
        ensures places { IfSome result (λ p. RecordPlaced self.entry p.0 p.1) }
    {
        let (child, rest) = self.name()?;
        let (parent, rest) = rest.name()?;
        let (pose, bytes) = rest.bytes.split_first_chunk()?;
        Some((
            Record {
                child,
                parent,
                pose,
            },
            Rest {
                start: rest.start + POSE_BYTES,
                bytes,
            },
        ))
    }
}
