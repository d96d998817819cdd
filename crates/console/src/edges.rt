// The edge of a frame in a store that has been tested, and the words for one.
ghost use Rattle.std.specs.Prelude.{◌≡◌, [], ◌∷◌, ◌++◌, if◌then◌else◌, nat_eq};
ghost use Rattle.std.specs.Prelude.{option_map};
ghost use Rattle.time.specs.Reply.{refusal};
ghost use Rattle.buffer.specs.Map.{get};
ghost use Rattle.text.specs.Ascii.{ascii};
ghost use Rattle.text.specs.Writing.{Writes};
ghost use Rattle.registry.specs.Answers.{refusal_of};
ghost use Rattle.registry.specs.NextEdge.{told_edge};
ghost use Rattle.console.specs.Figures.{seconds_texts};
ghost use Rattle.console.specs.Refusals.{refusal_texts};
ghost use Rattle.console.specs.Edges.{samples_texts, coverage_texts};
ghost use Rattle.console.specs.Reading.{tree_in};

use crate::{figures, output, refusals};
use buffer::coverage::Coverage;
use registry::checked::{Checked, Edge};
use registry::error::RegistryError;
use registry::limits;
use text::Writer;

// As many edges as a store can have.
pub(crate) const MOST: usize = limits::MOST_ROWS as usize;

// The edge of a frame, and none for a root.
pub(crate) fn edge_of(store: &Checked<'_>, frame: u64) -> Option<Edge>
    ensures { result ≡ option_map (λ e. told_edge (frame, e)) (get (tree_in store.now) frame) }
{
    match store.edge_from(frame) {
        Some(edge) if edge.child == frame => Some(edge),
        _ => None,
    }
}

// The refusal of a store that is not sound, on a line of its own.
pub(crate) fn put_refused(out: &mut Writer<'_>, error: RegistryError)
    ensures { let told = refusal_of error in Writes out.old out.new (refusal_texts (refusal told.0 told.1) ++ (ascii "\n" ∷ [])) }
{
    refusals::put_refusal(out, error);
    output::line_end(out);
}

fn put_unit(out: &mut Writer<'_>, count: u64)
    ensures { Writes out.old out.new ((if nat_eq count 1 then ascii " sample" else ascii " samples") ∷ []) }
{
    if count == 1 {
        out.write_bytes(b" sample");
    } else {
        out.write_bytes(b" samples");
    }
}

// How many samples, with the range that they are served in.
fn put_samples(out: &mut Writer<'_>, count: u64, start: u64, end: u64, between: &[u8])
    ensures { Writes out.old out.new (samples_texts count ++ (between.now ∷ (seconds_texts start ++ (ascii " to " ∷ seconds_texts end)))) }
{
    out.write_number(count);
    put_unit(out, count);
    out.write_bytes(between);
    figures::put_seconds(out, start);
    out.write_bytes(b" to ");
    figures::put_seconds(out, end);
}

// The kind of an edge, its count of samples and their range, with the bytes that stand between these three.
pub(crate) fn put_edge(out: &mut Writer<'_>, edge: Edge, between: &[u8])
    ensures { Writes out.old out.new (coverage_texts between.now edge.count edge.coverage) }
{
    match edge.coverage {
        Coverage::AllTime => out.write_bytes(b"static"),
        Coverage::Range { start, end } => {
            out.write_bytes(b"moving");
            out.write_bytes(between);
            put_samples(out, edge.count as u64, start, end, between);
        }
        Coverage::Empty => {
            out.write_bytes(b"moving");
            out.write_bytes(between);
            out.write_bytes(b"no sample");
        }
    }
}
