// `dot`: the tree for Graphviz.
ghost use Rattle.std.specs.Prelude.{◌≡◌, [], ◌∷◌, ◌++◌};
ghost use Rattle.text.specs.Ascii.{ascii};
ghost use Rattle.text.specs.Writing.{number_text, Writes};
ghost use Rattle.registry.specs.Calls.{words};
ghost use Rattle.console.specs.Edges.{coverage_texts, told_of_store};
ghost use Rattle.console.specs.Dot.{style_text, arrows_texts, head_texts, dot_texts};
ghost use Rattle.console.specs.Reading.{tree_in};

use crate::edges;
use buffer::coverage::Coverage;
use registry::checked::{Checked, Edge};
use registry::store::Store;
use text::Writer;

// How an edge is drawn: dashed where it is static.
fn put_style(out: &mut Writer<'_>, coverage: Coverage)
    ensures { Writes out.old out.new (style_text coverage ∷ []) }
{
    match coverage {
        Coverage::AllTime => out.write_bytes(b"\\l\", style=dashed];\n"),
        _ => out.write_bytes(b"\\l\"];\n"),
    }
}

// From a parent to its child.
fn put_ends(out: &mut Writer<'_>, parent: u64, child: u64)
    ensures { Writes out.old out.new (ascii "  " ∷ number_text parent ∷ ascii " -> " ∷ number_text child ∷ []) }
{
    out.write_bytes(b"  ");
    out.write_number(parent);
    out.write_bytes(b" -> ");
    out.write_number(child);
}

// What stands at an arrow: what is told of its edge, and how it is drawn.
fn put_label(out: &mut Writer<'_>, edge: Edge)
    ensures { Writes out.old out.new (ascii " [label=\" " ∷ (coverage_texts (ascii "\\l ") edge.count edge.coverage ++ (style_text edge.coverage ∷ []))) }
{
    out.write_bytes(b" [label=\" ");
    edges::put_edge(out, edge, b"\\l ");
    put_style(out, edge.coverage);
}

// A line for each edge, in the order of their children.
fn put_arrows(store: &Checked<'_>, out: &mut Writer<'_>)
    ensures { Writes out.old out.new (arrows_texts (tree_in store.now)) }
{
    for edge in store.edges() {
        put_ends(out, edge.parent, edge.child);
        put_label(out, edge);
    }
}

// How frames and their edges are drawn.
fn put_head(out: &mut Writer<'_>)
    ensures { Writes out.old out.new head_texts }
{
    out.write_bytes(b"digraph transforms {\n");
    out.write_bytes(b"  node [shape=box, fontname=\"sans-serif\"];\n");
    out.write_bytes(b"  edge [fontname=\"sans-serif\", fontsize=10];\n");
}

// The graph of a sound store.
#[tactic(auto, using(text::proofs::Behind::written_in_turn, crate::proofs::Turns::append_in_turn), unfolding(crate::specs::Dot::dot_texts))]
fn put_graph(store: &Checked<'_>, out: &mut Writer<'_>)
    ensures { Writes out.old out.new (dot_texts (tree_in store.now)) }
{
    put_head(out);
    put_arrows(store, out);
    out.write_bytes(b"}\n");
}

// The tree as a graph: an arrow from each parent to its child.
#[tactic(auto, using(crate::proofs::Told::told_tree, crate::proofs::Told::told_refused))]
pub fn dot(store: &Store<'_>, out: &mut Writer<'_>)
    ensures { Writes out.old out.new (told_of_store dot_texts (words store.now)) }
{
    match store.check() {
        Ok(checked) => put_graph(&checked, out),
        Err(error) => edges::put_refused(out, error),
    }
}
