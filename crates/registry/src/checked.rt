// A store that is known to have passed the tests of 1 and 2, and the calls on it. A caller of several tests
// once; no error here is 1 or 2.
ghost use Rattle.std.specs.Prelude.{◌≡◌, ◌<◌, true, []};
ghost use Rattle.buffer.specs.Row.{FloatsFit};
ghost use Rattle.registry.specs.Limits.{limits_by};
ghost use Rattle.registry.specs.Tree.{addition, holds_no_frame, add, wipe};
ghost use Rattle.registry.specs.Store.{sizes_fit, used_in, row_at, limits_of, tree_of, stored};
ghost use Rattle.registry.specs.Sound.{SoundStore};
ghost use Rattle.registry.specs.Answers.{replied, pose, told_time};
ghost use Rattle.registry.specs.Calls.{outcome_of, written, words, words_mut, SameSlices};
ghost use Rattle.registry.specs.Path.{climb_end, lookup, common_time};
ghost use Rattle.registry.specs.NextEdge.{edge_from, told, told_edge};

use crate::addition::Addition;
use crate::error::RegistryError;
use crate::layout;
use crate::limits::Limits;
pub use crate::paths::climbs::ClimbEnds;
use crate::rows::Rows;
use crate::store::{Store, StoreMut};
use buffer::coverage::Coverage;
use buffer::words;
use geometry::isometry::Isometry;
use time::stamp::Stamp;

// A store that has passed the tests of its sizes and of its words.
#[derive(Clone, Copy)]
pub struct Checked<'a> {
    pub store: Store<'a>,
    ghost sound: { SoundStore (words store) },
}

// The same to write: it lends a StoreMut and does not hold one, since the check does not follow slices that are written
// through a struct within a struct. Each method says that the store lent is the same, and its slices.
#[derive(Drop)]
pub struct CheckedMut<'a, 'b> {
    pub store: &'a mut StoreMut<'b>,
    ghost sound: { SoundStore (words_mut store.now) },
}

// An edge of the tree: its child, its parent, how many samples it holds and the times at which it is
// served.
#[derive(Clone, Copy)]
pub struct Edge {
    pub child: u64,
    pub parent: u64,
    pub count: usize,
    pub coverage: Coverage,
}

impl Checked<'_> {
    // The rows of its head.
    pub(crate) fn rows(&self) -> Rows<'_>
        ensures { result.head.now ≡ self.now.store.head.now }
    {
        Rows {
            head: self.store.head,
        }
    }

    // Whether the store holds no frame.
    pub fn is_empty(&self) -> bool
        ensures { result ≡ holds_no_frame (tree_of (words self.now.store)) }
    {
        self.rows().used() == 0
    }

    // The edge that row r holds. (As in layout/head.rt, the caller knows that the row is used.)
    pub(crate) fn edge_at(&self, r: usize) -> Edge
        requires { r < used_in (words self.now.store) }
        ensures { result ≡ told_edge (row_at (words self.now.store) r) }
    {
        let rows = self.rows();
        Edge {
            child: rows.child(r),
            parent: rows.parent(r),
            count: rows.count(r),
            coverage: self.row_coverage(r),
        }
    }

    // The first edge whose child is the frame or greater. (`edges` gives all of them, one after the other.)
    pub fn edge_from(&self, frame: u64) -> Option<Edge>
        ensures { result ≡ told (edge_from (tree_of (words self.now.store)) frame) }
    {
        let rows = self.rows();
        let row = rows.row_from(frame);
        if row == rows.used() {
            return None;
        }
        Some(self.edge_at(row))
    }

    // Where the climbs from two frames end: both at the frame where they meet, or each at its root.
    pub fn climb_ends(&self, target: u64, source: u64) -> ClimbEnds
        ensures { let t = tree_of (words self.now.store) in
            (result.target ≡ climb_end t target source) × (result.source ≡ climb_end t source target) }
    {
        self.rows().climb_ends(target, source)
    }

    // The source's pose seen from the target, at an instant.
    pub fn get_transform(&self, target: u32, source: u32, t: u64) -> Result<Isometry, RegistryError>
        ensures { replied pose result ≡ lookup (tree_of (words self.now.store)) target source t }
    {
        self.rows().find_frames(target, source)?;
        if target == source {
            return Ok(Isometry::identity());
        }
        self.resolve_known(u64::from(target), u64::from(source), t)
    }

    // The latest instant that every hop between the frames serves.
    pub fn latest_common_time(&self, target: u32, source: u32) -> Result<Stamp, RegistryError>
        ensures { replied told_time result ≡ common_time (tree_of (words self.now.store)) target source }
    {
        self.rows().find_frames(target, source)?;
        if target == source {
            return Ok(Stamp::Static);
        }
        self.common_time_known(u64::from(target), u64::from(source))
    }
}

impl StoreMut<'_> {
    // To read, where it is known to be sound.
    pub(crate) fn as_checked(&self) -> Checked<'_>
        requires { SoundStore (words_mut self.now) }
        ensures words { words result.store ≡ words_mut self.now }
        ensures floats { FloatsFit result.store.poses.now }
    {
        Checked {
            store: self.as_ref(),
        }
    }

    // Overwrites everything with a store of these limits, with no row used.
    pub fn overwrite(&mut self, limits: Limits)
        requires { sizes_fit limits.rows limits.samples (words_mut self.old) ≡ true }
        ensures same { SameSlices self.old self.new }
        ensures words { words_mut self.new ≡ stored (limits_by limits) [] }
    {
        layout::write_head(self.head, limits);
        words::clear(self.instants);
        words::clear(self.poses);
    }
}

impl CheckedMut<'_, '_> {
    pub fn as_ref(&self) -> Checked<'_>
        ensures words { words result.store ≡ words_mut self.now.store.now }
        ensures floats { FloatsFit result.store.poses.now }
    {
        self.store.as_checked()
    }

    // Leaves a store of the same sizes and age with no row used.
    pub fn clear(&mut self)
        ensures same { self.new.store.ghost_name ≡ self.old.store.ghost_name }
        ensures slices { SameSlices self.old.store.now self.new.store.now }
        ensures words { words_mut self.new.store.now ≡ stored (limits_of (words_mut self.old.store.now)) [] }
    {
        let limits = self.as_ref().rows().head().limits();
        self.store.overwrite(limits);
    }

    // Puts a pose into the tree, or says why not and leaves every word.
    pub fn add_transform(
        &mut self,
        child: u32,
        parent: u32,
        stamp: Stamp,
        pose: Isometry,
    ) -> Result<(), RegistryError>
        ensures same { self.new.store.ghost_name ≡ self.old.store.ghost_name }
        ensures slices { SameSlices self.old.store.now self.new.store.now }
        ensures outcome { outcome_of result self.new.store.now
            ≡ (let s = words_mut self.old.store.now in written s (limits_of s) (add (limits_of s) (tree_of s) (addition child parent stamp pose))) }
    {
        self.store.add(&Addition {
            child,
            parent,
            stamp,
            pose,
        })
    }

    // Drops a moving child's poses before the instant.
    pub fn remove_before(&mut self, child: u32, t: u64) -> Result<(), RegistryError>
        ensures same { self.new.store.ghost_name ≡ self.old.store.ghost_name }
        ensures slices { SameSlices self.old.store.now self.new.store.now }
        ensures outcome { outcome_of result self.new.store.now
            ≡ (let s = words_mut self.old.store.now in written s (limits_of s) (wipe (tree_of s) child t)) }
    {
        self.store.wipe(child, t)
    }
}
