// The frames of a map: their parents, in a table by their numbers.
use arrayvec::ArrayVec;
use map_file::file::MapFile;
use registry::limits;

// As many as a full store can have: each row has a child, and a parent.
pub(crate) const MOST_FRAMES: usize = 2 * limits::MOST_ROWS as usize;

// The parent of each frame that has one.
pub(crate) type Parents = ArrayVec<Option<u32>, MOST_FRAMES>;

// The parent of the frame of a name. All records of one child have the same one.
fn parent_of(file: &MapFile<'_>, name: &[u8]) -> Option<u32> {
    let record = file.records().find(|record| record.child.bytes == name)?;
    file.frame_of(record.parent.bytes)
}

// The parents of the file's frames.
pub(crate) fn parents(file: &MapFile<'_>) -> Parents {
    let mut parents = ArrayVec::new();
    for frame in 0..MOST_FRAMES {
        let Some(name) = file.name_of(frame as u32) else {
            break;
        };
        if parents.try_push(parent_of(file, name.bytes)).is_err() {
            break;
        }
    }
    parents
}

// The parent of a frame.
pub(crate) fn parent(parents: &[Option<u32>], frame: u32) -> Option<u32> {
    *parents.get(frame as usize)?
}
