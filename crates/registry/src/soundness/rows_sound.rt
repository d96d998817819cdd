// The rules of the used rows: instants, poses and what a row does not use of its capacity.
ghost use Rattle.std.specs.Prelude.{◌≡◌, ◌<◌};
ghost use Rattle.registry.specs.Store.{used_in};
ghost use Rattle.registry.specs.Sound.{row_rules, rows_sound};
ghost use Rattle.registry.specs.Calls.{words};

use crate::parts::Parts;
use crate::store::Store;
use buffer::sound::UntestedRow;

impl Parts<'_> {
    // The rules of row r. (As in layout/head.rt, the caller knows that the row is used.)
    #[tactic(auto, using(crate::proofs::layout::SizeTests::used_part, crate::proofs::layout::RowLaws::seven_floats))]
    fn row_sound(&self, r: usize) -> bool
        requires { r < used_in (words self.now.store) }
        ensures { result ≡ row_rules (words self.now.store) r }
    {
        let head = self.head();
        let row = UntestedRow {
            instants: self.row_instants(r),
            poses: self.row_poses(r),
            kind: head.kind(r),
            count: head.count(r),
        };
        row.is_sound(head.max_age())
    }

    pub(crate) fn rows_sound(&self) -> bool
        ensures { result ≡ rows_sound (words self.now.store) }
    {
        (0..self.head().used()).all(|r| self.row_sound(r))
    }
}
