// The search for a frame's row.
ghost use Rattle.std.specs.Prelude.{◌≡◌, ◌<◌, IfSome, MatchResult};
ghost use Rattle.registry.specs.layout.Rows.{IsRow, AbsentAt, FirstRow};
ghost use Rattle.registry.specs.paths.Edges.{OfTree, edge_parent};

use crate::rows::Rows;

impl Rows<'_> {
    // The row of the frame where the children are consecutive numbers.
    fn consecutive_row(&self, frame: u64) -> Option<usize>
        ensures { IfSome result (IsRow self.now.head.now frame) }
    {
        let used = self.used();
        if used == 0 {
            return None;
        }
        // Branches, and no `checked_sub`: for that the compiler moves both outcomes, for which each step of a climb waits.
        let first = self.child(0);
        if frame < first {
            return None;
        }
        let row = frame - first;
        if used as u64 <= row {
            return None;
        }
        let row = row as usize;
        if self.child(row) != frame {
            return None;
        }
        Some(row)
    }

    // Binary search, written out: std's searches a slice, and a child is every fourth word of the head.
    fn search_row(&self, frame: u64) -> Result<usize, usize>
        ensures { MatchResult result (IsRow self.now.head.now frame) (AbsentAt self.now.head.now frame) }
    {
        let mut low = 0;
        let mut high = self.used();
        while low < high {
            let middle = low + (high - low) / 2;
            let child = self.child(middle);
            if child == frame {
                return Ok(middle);
            }
            if child < frame {
                low = middle + 1;
            } else {
                high = middle;
            }
        }
        Err(low)
    }

    // The row of the frame, or the place where its row would stand. Most trees number their frames
    // consecutively, so that place is tried first.
    pub(crate) fn find_row(&self, frame: u64) -> Result<usize, usize>
        ensures { MatchResult result (IsRow self.now.head.now frame) (AbsentAt self.now.head.now frame) }
    {
        match self.consecutive_row(frame) {
            Some(row) => Ok(row),
            None => self.search_row(frame),
        }
    }

    // The first row whose child is the frame or greater; the number of rows used where there is none.
    pub(crate) fn row_from(&self, frame: u64) -> usize
        ensures { FirstRow self.now.head.now frame result }
    {
        match self.find_row(frame) {
            Ok(row) | Err(row) => row,
        }
    }

    // The frame's parent, none where the frame is no child.
    pub(crate) fn parent_of(&self, frame: u64) -> Option<u64>
        ensures { OfTree self.now.head.now (λ t. result ≡ edge_parent t frame) }
    {
        match self.find_row(frame) {
            Ok(row) => Some(self.parent(row)),
            Err(_) => None,
        }
    }
}
