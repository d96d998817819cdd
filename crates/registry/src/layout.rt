// The layout of a store: where the words of the three slices lie. Whatever reads or writes a word of the
// head, or takes a row's part of the instants or of the poses, does it here and in `head`.
ghost use Rattle.std.specs.Prelude.{◌≡◌, ◌+◌, ◌^◌, ◌≤◌, ◌<◌, leb, length, take, drop, replicate};
ghost use Rattle.registry.specs.Limits.{limits_by};
ghost use Rattle.registry.specs.Store.{head_length, instants_length, poses_length, row_floats, flag_word, age_word, kind_word, rows_in, capacity_in, used_in, flag_in, age_word_in, age_in, limits_of, row_word, child_in, parent_in, kind_in, count_in, kind_of_word, row_instants, row_poses, unused_head, unused_instants, unused_poses, with_header, with_count, stored};
ghost use Rattle.time.specs.Reply.{answer, reply_by};
ghost use Rattle.buffer.specs.Row.{Row, outcome, insert_row, remove_before_row};
ghost use Rattle.buffer.specs.Answers.{insert_refusal_of};
ghost use Rattle.registry.specs.Calls.{outcome_of, words, words_mut, SameSlices, written};
ghost use Rattle.registry.specs.layout.Rows.{head_of, HasHeader, HasRow, StoredRow, empty_row, row_inserted, put_into, wiped_in};

pub(crate) mod head;

use self::head::Head;
use crate::error::RegistryError;
use crate::limits::Limits;
use crate::parts::Parts;
use crate::store::StoreMut;
use buffer::buffer::BufferMut;
use buffer::error::InsertError;
use buffer::kind::Kind;
use buffer::words;
use geometry::isometry::Isometry;

// The words of the header.
const ROWS: usize = 0;

const CAPACITY: usize = 1;

const USED: usize = 2;

const AGE_FLAG: usize = 3;

const AGE: usize = 4;

const HEADER_WORDS: usize = 5;

// The words of a row.
const CHILD: usize = 0;

const PARENT: usize = 1;

const KIND: usize = 2;

const COUNT: usize = 3;

const ROW_WORDS: usize = 4;

const POSE_FLOATS: usize = 7;

// The words of a head with so many rows: where the row after them begins.
pub fn head_length(rows: usize) -> usize
    requires { rows < 2 ^ 60 }
    ensures { result ≡ head_length rows }
{
    HEADER_WORDS + ROW_WORDS * rows
}

// The instants of so many rows: where those of the row after them begin.
pub fn instants_length(rows: usize, capacity: usize) -> usize
    requires { instants_length rows capacity < 2 ^ 60 }
    ensures { result ≡ instants_length rows capacity }
{
    rows * capacity
}

// The floats of so many rows: where those of the row after them begin.
pub fn poses_length(rows: usize, capacity: usize) -> usize
    requires { poses_length rows capacity < 2 ^ 60 }
    ensures { result ≡ poses_length rows capacity }
{
    POSE_FLOATS * instants_length(rows, capacity)
}

// The floats of one row.
pub(crate) fn row_floats(capacity: usize) -> usize
    requires { row_floats capacity < 2 ^ 60 }
    ensures { result ≡ row_floats capacity }
{
    POSE_FLOATS * capacity
}

// ---- the words of the header

// The age flag and the age word of a header.
fn flag_word(max_age: Option<u64>) -> u64
    ensures { result ≡ flag_word max_age }
{
    u64::from(max_age.is_some())
}

fn nanos_word(max_age: Option<u64>) -> u64
    ensures { result ≡ age_word max_age }
{
    max_age.unwrap_or(0)
}

// The header of a store of these limits with no row used.
fn write_header(head: &mut [u64], limits: Limits)
    requires { HasHeader head.old }
    ensures { head.new ≡ with_header (limits_by limits) 0 head.old }
{
    let flag = flag_word(limits.max_age);
    let age = nanos_word(limits.max_age);
    head[ROWS] = limits.rows;
    head[CAPACITY] = limits.samples;
    head[USED] = 0;
    head[AGE_FLAG] = flag;
    head[AGE] = age;
}

// The whole head of such a store.
pub(crate) fn write_head(head: &mut [u64], limits: Limits)
    requires { HasHeader head.old }
    ensures { head.new ≡ with_header (limits_by limits) 0 (replicate (length head.old) 0) }
{
    words::clear(head);
    write_header(head, limits);
}

// ---- the words of row r

// The word of a kind. Kind and u64 are types of other crates, so this cannot be a From.
fn kind_word(kind: Kind) -> u64
    ensures { result ≡ kind_word kind }
{
    match kind {
        Kind::Static => 0,
        Kind::Dynamic => 1,
    }
}

// Puts a row that holds no sample in at k, before the others of the rows used.
#[tactic(auto, unfolding(crate::specs::layout::Rows::row_inserted))]
pub(crate) fn insert_row(head: &mut [u64], k: usize, child: u64, parent: u64, kind: Kind)
    requires { (k ≤ used_in (head_of head.old)) × HasRow (used_in (head_of head.old)) head.old }
    ensures { head.new ≡ row_inserted k (empty_row child parent kind) head.old }
{
    let used = Head { words: head }.used();
    let row = [child, parent, kind_word(kind), 0];
    words::insert(head, head_length(k), head_length(used), &row);
    head[USED] = (used + 1) as u64;
}

// ---- the parts of the slices

impl<'a> Parts<'a> {
    // Row r's part of the instants. (As in layout/head.rt, the caller knows that the row is used.)
    #[tactic(auto, using(crate::proofs::layout::SizeTests::used_part))]
    pub(crate) fn row_instants(&self, r: usize) -> &'a [u64]
        requires { r < used_in (words self.now.store) }
        ensures { result.now ≡ row_instants (words self.now.store) r }
    {
        let capacity = self.head().capacity() as usize;
        let start = instants_length(r, capacity);
        &self.store.instants[start..start + capacity]
    }

    // Row r's part of the poses. (As in layout/head.rt, the caller knows that the row is used.)
    #[tactic(auto, using(crate::proofs::layout::SizeTests::used_part))]
    pub(crate) fn row_poses(&self, r: usize) -> &'a [f64]
        requires { r < used_in (words self.now.store) }
        ensures { result.now ≡ row_poses (words self.now.store) r }
    {
        let capacity = self.head().capacity() as usize;
        let start = poses_length(r, capacity);
        &self.store.poses[start..start + row_floats(capacity)]
    }

    // What follows the used rows.
    pub(crate) fn unused_head(&self) -> &[u64]
        ensures { result.now ≡ unused_head (words self.now.store) }
    {
        let start = head_length(self.head().used());
        &self.store.head[start..]
    }

    pub(crate) fn unused_instants(&self) -> &[u64]
        ensures { result.now ≡ unused_instants (words self.now.store) }
    {
        let start = instants_length(self.head().used(), self.head().capacity() as usize);
        &self.store.instants[start..]
    }

    pub(crate) fn unused_poses(&self) -> &[f64]
        ensures { result.now ≡ unused_poses (words self.now.store) }
    {
        let start = poses_length(self.head().used(), self.head().capacity() as usize);
        &self.store.poses[start..]
    }
}

// ---- a row with other samples

fn set_count(head: &mut [u64], r: usize, count: usize)
    requires { HasRow r head.old }
    ensures { head.new ≡ with_count r count head.old }
{
    let place = head_length(r) + COUNT;
    head[place] = count as u64;
}

// A sample put into a row's part of the slices; how many it then holds. This function and the next get the part as slices:
// a buffer that `put_row` makes of parts of the store's slices is not covered by the borrow checker (four ways were tried).
fn insert_sample(
    instants: &mut [u64],
    poses: &mut [f64],
    kind: Kind,
    count: usize,
    max_age: Option<u64>,
    t: u64,
    pose: Isometry,
) -> Result<usize, InsertError>
    requires { Row count instants.old poses.old }
    ensures { outcome (reply_by insert_refusal_of result) instants.new poses.new ≡ insert_row max_age t pose count instants.old poses.old }
{
    let mut row = BufferMut {
        instants,
        poses,
        kind,
        count,
    };
    row.insert(max_age, t, pose)?;
    Ok(row.count)
}

// The samples before t removed from it; how many it then holds.
fn remove_samples(
    instants: &mut [u64],
    poses: &mut [f64],
    kind: Kind,
    count: usize,
    t: u64,
) -> usize
    requires { Row count instants.old poses.old }
    ensures { outcome (answer result) instants.new poses.new ≡ remove_before_row kind t count instants.old poses.old }
{
    let mut row = BufferMut {
        instants,
        poses,
        kind,
        count,
    };
    row.remove_before(t);
    row.count
}

// The two methods read the same six values of the row: a struct of them would want a contract as long as both.
impl StoreMut<'_> {
    // Puts a sample into row r, or 17.
    pub(crate) fn put_row(
        &mut self,
        r: usize,
        instant: u64,
        pose: Isometry,
    ) -> Result<(), RegistryError>
        requires { StoredRow r (words_mut self.old) }
        ensures same { SameSlices self.old self.new }
        ensures outcome { outcome_of result self.new
            ≡ (let s = words_mut self.old in written s (limits_of s) (put_into s r instant pose)) }
    {
        let head = Head {
            words: self.as_ref().head,
        };
        let width = head.capacity() as usize;
        let kind = head.kind(r);
        let count = head.count(r);
        let age = head.max_age();
        let first = instants_length(r, width);
        let float = poses_length(r, width);
        let floats = row_floats(width);
        let held = insert_sample(
            &mut self.instants[first..first + width],
            &mut self.poses[float..float + floats],
            kind,
            count,
            age,
            instant,
            pose,
        )?;
        set_count(self.head, r, held);
        Ok(())
    }

    // Removes row r's samples before t, where it moves.
    pub(crate) fn wipe_row(&mut self, r: usize, t: u64)
        requires { StoredRow r (words_mut self.old) }
        ensures same { SameSlices self.old self.new }
        ensures words { words_mut self.new
            ≡ (let s = words_mut self.old in stored (limits_of s) (wiped_in s r t)) }
    {
        let head = Head {
            words: self.as_ref().head,
        };
        let width = head.capacity() as usize;
        let kind = head.kind(r);
        let count = head.count(r);
        let first = instants_length(r, width);
        let float = poses_length(r, width);
        let floats = row_floats(width);
        let left = remove_samples(
            &mut self.instants[first..first + width],
            &mut self.poses[float..float + floats],
            kind,
            count,
            t,
        );
        set_count(self.head, r, left);
    }
}
