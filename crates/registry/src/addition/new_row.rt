// Room for a new child's row.
ghost use Rattle.std.specs.Prelude.{◌≡◌};
ghost use Rattle.registry.specs.Calls.{words_mut, SameSlices};
ghost use Rattle.registry.specs.layout.Rows.{RowRoom, empty_row, with_row};

use crate::layout;
use crate::layout::head::Head;
use crate::store::StoreMut;
use buffer::kind::Kind;
use buffer::words;

impl StoreMut<'_> {
    // Puts a row that holds no sample in at place k.
    #[tactic(auto, unfolding(crate::specs::layout::Rows::with_row))]
    pub(crate) fn new_row(&mut self, k: usize, child: u64, parent: u64, kind: Kind)
        requires { RowRoom k (words_mut self.old) }
        ensures same { SameSlices self.old self.new }
        ensures words { words_mut self.new
            ≡ with_row k (empty_row child parent kind) (words_mut self.old) }
    {
        let head = Head {
            words: self.as_ref().head,
        };
        let capacity = head.capacity() as usize;
        let used = head.used();
        layout::insert_row(self.head, k, child, parent, kind);
        words::insert_zeros(
            self.instants,
            layout::instants_length(k, capacity),
            layout::instants_length(used, capacity),
            capacity,
        );
        words::insert_zeros(
            self.poses,
            layout::poses_length(k, capacity),
            layout::poses_length(used, capacity),
            layout::row_floats(capacity),
        );
    }
}
