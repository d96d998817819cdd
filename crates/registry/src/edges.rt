// The edges of a tree, one after the other.
ghost use Rattle.std.specs.Prelude.{◌≡◌, map};
ghost use Rattle.registry.specs.Store.{tree_of};
ghost use Rattle.registry.specs.Calls.{words};
ghost use Rattle.registry.specs.NextEdge.{told_edge};
ghost use Rattle.registry.specs.Edges.{edges_left};

use crate::checked::{Checked, Edge};

// The edges of a store that has been tested, by rising child.
#[derive(Drop)]
pub struct Edges<'a> {
    checked: Checked<'a>,
    row: usize,
}

impl Iterator for Edges<'_> {
    ghost use Rattle.std.specs.Iterator.{YieldsFirst, item_count};
    ghost use Rattle.registry.specs.Edges.{edges_left};

    type Item = Edge;

    ghost next_gives = { YieldsFirst edges_left };

    ghost remaining = { item_count edges_left };

    fn next(&mut self) -> Option<Edge> {
        if self.checked.rows().used() <= self.row {
            return None;
        }
        let edge = self.checked.edge_at(self.row);
        self.row += 1;
        Some(edge)
    }
}

impl<'a> Checked<'a> {
    // Every edge of its tree.
    pub fn edges(&self) -> Edges<'a>
        ensures { edges_left result ≡ map told_edge (tree_of (words self.now.store)) }
    {
        Edges {
            checked: *self,
            row: 0,
        }
    }
}
