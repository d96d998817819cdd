// The rule that there is no circle, by doubling: the row of each row's parent, then of its parent's
// parent, and so on, until the steps are as many as the rows.
ghost use Rattle.std.specs.Prelude.{◌≡◌, ◌≤◌, ◌<◌, ◌↔◌, length, IsTrue};
ghost use Rattle.std.specs.List.{All};
ghost use Rattle.registry.specs.Store.{used_in};
ghost use Rattle.registry.specs.Sound.{no_circle};
ghost use Rattle.registry.specs.layout.Rows.{head_of};
ghost use Rattle.registry.specs.paths.Edges.{OfTree};
ghost use Rattle.registry.specs.soundness.Climbs.{IsUp, Climbed, jump, jumped};

use crate::limits;
use crate::rows::Rows;

// Room for a number for each row.
const MOST_ROWS: usize = limits::MOST_ROWS as usize;

impl Rows<'_> {
    // The row of the parent of row r, or the number of rows used where the parent is no child. (As in layout/head.rt, the
    // caller knows that the row is used.)
    fn parent_row(&self, r: usize) -> usize
        requires { r < used_in (head_of self.now.head.now) }
        ensures { IsUp self.now.head.now 1 r result }
    {
        self.find_row(self.parent(r)).unwrap_or(self.used())
    }

    // One step up from each row.
    fn parent_rows(&self, rows: &mut [usize])
        requires { length rows.old ≡ used_in (head_of self.now.head.now) }
        ensures { Climbed self.now.head.now 1 rows.new }
    {
        for (r, row) in rows.iter_mut().enumerate() {
            *row = self.parent_row(r);
        }
    }

    // Whether the climb from each row ends, with room for a number for each row.
    fn climbs_end(&self, rows: &mut [usize]) -> bool
        requires { length rows.old ≡ used_in (head_of self.now.head.now) }
        ensures { OfTree self.now.head.now (λ t. result ≡ no_circle t) }
    {
        self.parent_rows(rows);
        let mut steps = 1;
        // The steps double, so they are no range.
        while steps < rows.len() {
            double(rows);
            steps *= 2;
        }
        all_ended(rows)
    }

    pub(crate) fn has_no_circle(&self) -> bool
        requires { used_in (head_of self.now.head.now) ≤ MOST_ROWS }
        ensures { OfTree self.now.head.now (λ t. result ≡ no_circle t) }
    {
        let mut rows = [0; MOST_ROWS];
        self.climbs_end(&mut rows[..self.used()])
    }
}

// Where the climb from row x stands; past the rows it has ended.
fn jump(rows: &[usize], x: usize) -> usize
    ensures { result ≡ jump rows.now x }
{
    rows.get(x).copied().unwrap_or(x)
}

// At least twice as many steps up from each row.
fn double(rows: &mut [usize])
    ensures { rows.new ≡ jumped (length rows.old) rows.old }
{
    for r in 0..rows.len() {
        rows[r] = jump(rows, rows[r]);
    }
}

// Whether no climb stands at a row.
fn all_ended(rows: &[usize]) -> bool
    ensures { IsTrue result ↔ All (λ row. length rows.now ≤ row) rows.now }
{
    rows.iter().all(|row| rows.len() <= *row)
}
