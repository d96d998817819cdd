// Refusal 1: E, S and the lengths of the three slices.
ghost use Rattle.std.specs.Prelude.{◌≡◌};
ghost use Rattle.registry.specs.Store.{sizes_fit, sized};
ghost use Rattle.registry.specs.Calls.{words};

use crate::layout;
use crate::layout::head::Head;
use crate::limits::{MOST_ROWS, MOST_SAMPLES};
use crate::store::Store;

impl Store<'_> {
    // Whether the sizes are within their limits and the slices have the lengths that they ask for.
    pub(crate) fn sizes_fit(&self, rows: u64, capacity: u64) -> bool
        ensures { result ≡ sizes_fit rows capacity (words self.now) }
    {
        if !(1..=MOST_ROWS).contains(&rows) || !(1..=MOST_SAMPLES).contains(&capacity) {
            return false;
        }
        let rows = rows as usize;
        let capacity = capacity as usize;
        self.head.len() == layout::head_length(rows)
            && self.instants.len() == layout::instants_length(rows, capacity)
            && self.poses.len() == layout::poses_length(rows, capacity)
    }

    // The same of a store that is lent, by its own sizes.
    pub(crate) fn sized(&self) -> bool
        ensures { result ≡ sized (words self.now) }
    {
        match Head::new(self.head) {
            Some(head) => self.sizes_fit(head.rows(), head.capacity()),
            None => false,
        }
    }
}
