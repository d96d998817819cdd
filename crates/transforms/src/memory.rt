// The memory that stores and a map file are lent from.
ghost use Rattle.std.specs.Prelude.{◌≤◌, length, IfSome};

use map_loading::error::LoadError;
use map_loading::load_map;
use registry::error::RegistryError;
use registry::layout;
use registry::limits::{MOST_ROWS, MOST_SAMPLES};
use registry::store::{Store, StoreMut};

// The words of the head of a store of 256 rows.
pub(crate) const HEAD_WORDS: usize = 1029;

// The most samples of a store.
pub(crate) const SAMPLES: usize = 65536;

// Their floats, seven of each.
pub(crate) const FLOATS: usize = 458752;

// The most bytes of a map file.
pub(crate) const MAP_BYTES: usize = 65536;

// The most bytes of a map file, or of a name, that a line gives.
pub(crate) const GIVEN_BYTES: usize = 240;

// A slice, and how much of it is lent.
#[derive(Drop)]
struct Lent<'a, T> {
    all: &'a mut [T],
    count: usize,
    ghost fits: { count ≤ length all.now },
}

impl<'a, T: Copy> Lent<'a, T> {
    // Nothing is lent at first.
    fn new(all: &'a mut [T]) -> Lent<'a, T> {
        Lent { all, count: 0 }
    }

    // What is lent.
    fn part(&self) -> &[T] {
        &self.all[..self.count]
    }

    // A length that a line gives, if the slice has it.
    fn within(&self, n: u64) -> Option<usize>
        ensures { IfSome result (λ k. k ≤ length self.now.all.now) }
    {
        usize::try_from(n).ok().filter(|k| *k <= self.all.len())
    }

    // Writes an element of what is lent, if it has that place.
    fn set(&mut self, place: u64, element: T) -> Option<()> {
        let place = usize::try_from(place).ok()?;
        *self.all[..self.count].get_mut(place)? = element;
        Some(())
    }
}

impl Lent<'_, u8> {
    // Appends the bytes with these digits, which are lent from now on.
    fn append(&mut self, digits: &[u8]) -> Option<()> {
        let count = put_bytes(digits, &mut self.all[self.count..])?;
        self.count += count;
        Some(())
    }
}

// Three slices and the bytes of a map file.
#[derive(Drop)]
pub(crate) struct Memory<'a> {
    head: Lent<'a, u64>,
    instants: Lent<'a, u64>,
    poses: Lent<'a, f64>,
    map: Lent<'a, u8>,
}

impl<'a> Memory<'a> {
    // Nothing is lent at first.
    pub(crate) fn new(
        head: &'a mut [u64],
        instants: &'a mut [u64],
        poses: &'a mut [f64],
        map: &'a mut [u8],
    ) -> Memory<'a> {
        Memory {
            head: Lent::new(head),
            instants: Lent::new(instants),
            poses: Lent::new(poses),
            map: Lent::new(map),
        }
    }

    // The store in what is lent.
    pub(crate) fn store(&self) -> Store<'_> {
        Store {
            head: self.head.part(),
            instants: self.instants.part(),
            poses: self.poses.part(),
        }
    }

    // What a function of that store answers. A function that answered the store itself would hand out parts of slices that
    // the fact of `Lent` is about, which the borrow checker does not cover.
    pub(crate) fn with_store<T, F: FnOnce(&mut StoreMut<'_>) -> T>(&mut self, f: F) -> T
        requires { F.IsAlwaysCallable f }
    {
        with_lent(&mut self.head, &mut self.instants, &mut self.poses, f)
    }

    // The map file that is lent.
    pub(crate) fn map(&self) -> &[u8] {
        self.map.part()
    }

    // So much of each slice is lent from now on; None, and nothing changes, where there is not so much.
    pub(crate) fn lend(&mut self, head: u64, instants: u64, poses: u64) -> Option<()> {
        let head = self.head.within(head)?;
        let instants = self.instants.within(instants)?;
        let poses = self.poses.within(poses)?;
        self.head.count = head;
        self.instants.count = instants;
        self.poses.count = poses;
        Some(())
    }

    // Opens a store in the part of each slice that its sizes ask for, which is lent from now on. Sizes out of bounds ask
    // for what is lent. None, and nothing changes, where there is not so much.
    pub(crate) fn open(
        &mut self,
        rows: u64,
        samples: u64,
        max_age: Option<u64>,
    ) -> Option<Result<(), RegistryError>> {
        if (1..=MOST_ROWS).contains(&rows) && (1..=MOST_SAMPLES).contains(&samples) {
            let (e, s) = (rows as usize, samples as usize);
            self.lend(
                layout::head_length(e) as u64,
                layout::instants_length(e, s) as u64,
                layout::poses_length(e, s) as u64,
            )?;
        }
        Some(self.with_store(|store| store.open(rows, samples, max_age)))
    }

    // This and the next two write one word or float of what is lent, if it has that place.
    pub(crate) fn set_head(&mut self, place: u64, word: u64) -> Option<()> {
        self.head.set(place, word)
    }

    pub(crate) fn set_instants(&mut self, place: u64, word: u64) -> Option<()> {
        self.instants.set(place, word)
    }

    pub(crate) fn set_poses(&mut self, place: u64, float: f64) -> Option<()> {
        self.poses.set(place, float)
    }

    // No map file is lent from now on.
    pub(crate) fn clear_map(&mut self) {
        self.map.count = 0;
    }

    // Appends the bytes with these digits to the map file; None, and the file stays as it is, where they are no bytes or
    // there is no room.
    pub(crate) fn append_to_map(&mut self, digits: &[u8]) -> Option<()> {
        self.map.append(digits)
    }

    // Loads the map file that is lent into the store.
    pub(crate) fn load(&mut self) -> Result<(), LoadError> {
        let map = self.map.part();
        with_lent(
            &mut self.head,
            &mut self.instants,
            &mut self.poses,
            |store| load_map::load_map(store, map),
        )
    }
}

// On what is lent of each.
fn with_lent<T, F: FnOnce(&mut StoreMut<'_>) -> T>(
    head: &mut Lent<'_, u64>,
    instants: &mut Lent<'_, u64>,
    poses: &mut Lent<'_, f64>,
    f: F,
) -> T
    requires { F.IsAlwaysCallable f }
{
    with_store(
        &mut head.all[..head.count],
        &mut instants.all[..instants.count],
        &mut poses.all[..poses.count],
        f,
    )
}

// The store is made of slices and not of parts of them: it would keep the loan of one part while the next is lent, which
// the borrow checker does not cover.
fn with_store<T, F: FnOnce(&mut StoreMut<'_>) -> T>(
    head: &mut [u64],
    instants: &mut [u64],
    poses: &mut [f64],
    f: F,
) -> T
    requires { F.IsAlwaysCallable f }
{
    f(&mut StoreMut::new(head, instants, poses))
}

// Writes the bytes with these digits, and answers how many there are; None where they are no bytes, are more than a line
// gives, or have no room.
pub(crate) fn put_bytes(digits: &[u8], bytes: &mut [u8]) -> Option<usize>
    ensures { IfSome result (λ n. n ≤ length bytes.old) }
{
    if 2 * GIVEN_BYTES < digits.len() || digits.len() % 2 != 0 {
        return None;
    }
    let count = digits.len() / 2;
    if bytes.len() < count {
        return None;
    }
    for (byte, pair) in bytes.iter_mut().zip(digits.chunks_exact(2)) {
        *byte = text::read_byte(pair, 0)?;
    }
    Some(count)
}
