// `tree`: the tree as an indented picture.
ghost use Rattle.std.specs.Prelude.{◌≡◌, ◌-◌, ◌<◌, [], ◌∷◌, ◌++◌, length, None};
ghost use Rattle.buffer.specs.Map.{get};
ghost use Rattle.text.specs.Ascii.{ascii};
ghost use Rattle.text.specs.Writing.{number_text, Writes};
ghost use Rattle.registry.specs.Calls.{words};
ghost use Rattle.registry.specs.NextEdge.{edge_from, told};
ghost use Rattle.console.specs.Edges.{coverage_texts, told_of_store};
ghost use Rattle.console.specs.Tree.{indent_texts, under, below, is_root, lowest_root, joined_lines, root_texts, roots_texts, tree_texts};
ghost use Rattle.console.specs.Reading.{tree_in};
ghost use Rattle.console.specs.Walk.{behind_frame, lines_left, left_of, Turned};

use crate::{edges, output};
use registry::checked::{Checked, Edge};
use registry::store::Store;
use text::Writer;

// Where the walk over the frames below a root stands: next comes the first edge under a frame whose child is `from`
// or greater. At level 0 the walk is at its end.
#[derive(Clone, Copy)]
struct Walk {
    under: u64,
    from: u64,
    level: usize,
}

// Two spaces a level.
pub fn put_indent(out: &mut Writer<'_>, level: usize)
    ensures { Writes out.old out.new (indent_texts level) }
{
    for _ in 0..level {
        out.write_bytes(b"  ");
    }
}

// A line for an edge.
fn put_line(out: &mut Writer<'_>, level: usize, edge: Edge)
    ensures { Writes out.old out.new (indent_texts level ++ (number_text edge.child ∷ ascii " " ∷ (coverage_texts (ascii ", ") edge.count edge.coverage ++ (ascii "\n" ∷ [])))) }
{
    put_indent(out, level);
    out.write_number(edge.child);
    out.write_bytes(b" ");
    edges::put_edge(out, edge, b", ");
    output::line_end(out);
}

// The first edge under a frame whose child is `from` or greater. The search goes by the frames alone of each edge.
fn edge_under(store: &Checked<'_>, frame: u64, from: u64) -> Option<Edge>
    ensures { result ≡ told (edge_from (under (tree_in store.now) frame) from) }
{
    let (child, _) = store
        .edges()
        .map(|edge| (edge.child, edge.parent))
        .find(|&(child, parent)| from <= child && parent == frame)?;
    store.edge_from(child)
}

// Behind the last edge under a frame the walk goes on behind the frame itself, one level up. Behind a root it ends.
fn up(store: &Checked<'_>, frame: u64, level: usize) -> Walk
    requires { 0 < level }
    ensures lower { result.level < level }
    ensures left { left_of (tree_in store.now) result ≡ behind_frame (lines_left (tree_in store.now) (level - 1)) frame (get (tree_in store.now) frame) }
{
    let Some(edge) = edges::edge_of(store, frame) else {
        return Walk {
            under: frame,
            from: 0,
            level: 0,
        };
    };
    Walk {
        under: edge.parent,
        from: frame + 1,
        level: level - 1,
    }
}

// One turn of the walk: a line for an edge, and on below its child, or at the last level behind it; or up again, where
// no edge is left.
fn turn(store: &Checked<'_>, walk: Walk, out: &mut Writer<'_>) -> Walk
    requires { 0 < walk.level }
    ensures { Turned (tree_in store.now) out.old walk out.new result }
{
    let level = walk.level;
    let Some(edge) = edge_under(store, walk.under, walk.from) else {
        return up(store, walk.under, level);
    };
    put_line(out, level, edge);
    if level < edges::MOST {
        return Walk {
            under: edge.child,
            from: 0,
            level: level + 1,
        };
    }
    let from = edge.child + 1;
    Walk {
        under: walk.under,
        from,
        level,
    }
}

// The frames below a root: the walk comes to each once, and once to the end of those below it.
fn put_below(store: &Checked<'_>, root: u64, out: &mut Writer<'_>)
    ensures { Writes out.old out.new (joined_lines (below 256 (tree_in store.now) 1 root)) }
{
    let mut walk = Walk {
        under: root,
        from: 0,
        level: 1,
    };
    // By hand: where the walk goes next is known by the turn alone, and it goes up as often as down.
    while walk.level > 0 {
        walk = turn(store, walk, out);
    }
}

// Whether a frame is no child.
fn is_root(store: &Checked<'_>, frame: u64) -> bool
    ensures { result ≡ is_root (tree_in store.now) frame }
{
    edges::edge_of(store, frame).is_none()
}

// The lowest root from a frame on.
fn root_from(store: &Checked<'_>, from: u64) -> Option<u64>
    ensures { result ≡ lowest_root (tree_in store.now) from None (tree_in store.now) }
{
    store
        .edges()
        .map(|edge| edge.parent)
        .filter(|frame| from <= *frame && is_root(store, *frame))
        .min()
}

// A root and the frames below it.
#[tactic(auto, using(text::proofs::Behind::written_in_turn, crate::proofs::Turns::append_in_turn), unfolding(crate::specs::Tree::root_texts))]
fn put_root(store: &Checked<'_>, root: u64, out: &mut Writer<'_>)
    ensures { Writes out.old out.new (root_texts (tree_in store.now) root) }
{
    out.write_number(root);
    output::line_end(out);
    put_below(store, root, out);
}

// Every root, by rising number.
fn put_roots(store: &Checked<'_>, out: &mut Writer<'_>)
    ensures { Writes out.old out.new (roots_texts 256 (tree_in store.now) 0) }
{
    let mut from = 0;
    for _ in 0..edges::MOST {
        let Some(root) = root_from(store, from) else {
            return;
        };
        put_root(store, root, out);
        from = root + 1;
    }
}

// How many edges there are.
fn count(store: &Checked<'_>) -> u64
    ensures { result ≡ length (tree_in store.now) }
{
    store.edges().count() as u64
}

// The tree of a store that has been tested.
fn put_tree(store: &Checked<'_>, out: &mut Writer<'_>)
    ensures { Writes out.old out.new (tree_texts (tree_in store.now)) }
{
    out.write_bytes(b"frames with a parent: ");
    out.write_number(count(store));
    output::line_end(out);
    put_roots(store, out);
}

// Every frame of the tree below its parent, with its kind, its count of samples and their range.
#[tactic(auto, using(crate::proofs::Told::told_tree, crate::proofs::Told::told_refused))]
pub fn tree(store: &Store<'_>, out: &mut Writer<'_>)
    ensures { Writes out.old out.new (told_of_store tree_texts (words store.now)) }
{
    match store.check() {
        Ok(checked) => put_tree(&checked, out),
        Err(error) => edges::put_refused(out, error),
    }
}
