// `why`: the path of a lookup, hop by hop. What is written is stated in specs/Why.antt.
ghost use Rattle.std.specs.Prelude.{◌≡◌, ◌==◌, [], ◌∷◌, ◌++◌, if◌then◌else◌, nat_eq};
ghost use Rattle.text.specs.Ascii.{ascii};
ghost use Rattle.text.specs.Writing.{Writes};
ghost use Rattle.registry.specs.Answers.{replied, refusal_of, pose, told_time};
ghost use Rattle.registry.specs.Path.{chain, until, hops, lookup};
ghost use Rattle.registry.specs.Calls.{words};
ghost use Rattle.console.specs.Why.{served_at, told_line, hop_lines, climb_texts, meeting_texts, time_texts, common_texts, outcome_texts, lookup_texts, path_texts, tree_texts, why_texts};
ghost use Rattle.console.specs.Reading.{tree_in};

use crate::{edges, figures, output, refusals, show};
use buffer::coverage::Coverage;
use geometry::isometry::Isometry;
use registry::checked::{Checked, Edge};
use registry::error::RegistryError;
use registry::store::Store;
use text::Writer;
use time::stamp::Stamp;

// Whether an edge is served at an instant.
fn is_served(coverage: Coverage, t: u64) -> bool
    ensures { result ≡ served_at t coverage }
{
    match coverage {
        Coverage::AllTime => true,
        Coverage::Range { start, end } => (start..=end).contains(&t),
        Coverage::Empty => false,
    }
}

fn put_served(out: &mut Writer<'_>, served: bool)
    ensures { Writes out.old out.new ((if served then ascii ": served\n" else ascii ": not served\n") ∷ []) }
{
    if served {
        out.write_bytes(b": served\n");
    } else {
        out.write_bytes(b": not served\n");
    }
}

// A hop on a line of its own: its frames, its kind and range, and whether it is served at the instant.
#[tactic(auto, using(text::proofs::Behind::written_in_turn, crate::proofs::Turns::append_in_turn), unfolding(crate::specs::Why::told_line))]
fn put_hop(out: &mut Writer<'_>, hop: Edge, t: u64)
    ensures { Writes out.old out.new (told_line t hop.child hop.parent hop.count hop.coverage) }
{
    out.write_bytes(b"  ");
    figures::put_frame(out, hop.child);
    out.write_bytes(b" under ");
    figures::put_frame(out, hop.parent);
    out.write_bytes(b", ");
    edges::put_edge(out, hop, b", ");
    put_served(out, is_served(hop.coverage, t));
}

// The hops from a frame up to where its climb ends.
fn put_hops(store: &Checked<'_>, frame: u64, end: u64, t: u64, out: &mut Writer<'_>)
    ensures { Writes out.old out.new (let u = tree_in store.now in hop_lines t (hops u (until (nat_eq end) (chain u frame)))) }
{
    // By hand: each hop's parent is the next frame, and its line is written on the way.
    let mut from = frame;
    while from != end {
        let Some(hop) = edges::edge_of(store, from) else {
            return;
        };
        put_hop(out, hop, t);
        from = hop.parent;
    }
}

// Which climb follows, from which frame to which.
#[tactic(auto, using(text::proofs::Behind::written_in_turn, crate::proofs::Turns::append_in_turn), unfolding(crate::specs::Why::climb_texts))]
fn put_climb(out: &mut Writer<'_>, name: &[u8], frame: u64, end: u64)
    ensures { Writes out.old out.new (climb_texts name.now frame end) }
{
    out.write_bytes(b"from the ");
    out.write_bytes(name);
    out.write_bytes(b", ");
    figures::put_frame(out, frame);
    if frame == end {
        out.write_bytes(b": no hop\n");
    } else {
        out.write_bytes(b", up to ");
        figures::put_frame(out, end);
        out.write_bytes(b":\n");
    }
}

// One climb with its hops.
fn put_side(store: &Checked<'_>, name: &[u8], frame: u64, end: u64, t: u64, out: &mut Writer<'_>)
    ensures { Writes out.old out.new (let u = tree_in store.now in climb_texts name.now frame end ++ hop_lines t (hops u (until (nat_eq end) (chain u frame)))) }
{
    put_climb(out, name, frame, end);
    put_hops(store, frame, end, t, out);
}

// Where the two climbs meet, if they end at one frame.
fn put_meeting(out: &mut Writer<'_>, target_end: u64, source_end: u64)
    ensures { Writes out.old out.new (meeting_texts target_end source_end) }
{
    if target_end == source_end {
        out.write_bytes(b"the climbs meet at ");
        figures::put_frame(out, target_end);
        output::line_end(out);
    } else {
        out.write_bytes(b"the climbs do not meet\n");
    }
}

// The latest common time, or who is to blame.
fn put_time(out: &mut Writer<'_>, common: Result<Stamp, RegistryError>)
    ensures { Writes out.old out.new (time_texts (replied told_time common)) }
{
    match common {
        Ok(Stamp::Static) => out.write_bytes(b"any, no hop moves"),
        Ok(Stamp::At(t)) => figures::put_seconds(out, t),
        Err(error) => refusals::put_refusal(out, error),
    }
}

fn put_common(out: &mut Writer<'_>, common: Result<Stamp, RegistryError>)
    ensures { Writes out.old out.new (common_texts (replied told_time common)) }
{
    out.write_bytes(b"latest common time: ");
    put_time(out, common);
    output::line_end(out);
}

// That the lookup is answered, or why not.
fn put_outcome(out: &mut Writer<'_>, seen: Result<Isometry, RegistryError>)
    ensures { Writes out.old out.new (outcome_texts (replied pose seen)) }
{
    match seen {
        Ok(_) => out.write_bytes(b"answered"),
        Err(error) => refusals::put_refusal(out, error),
    }
}

#[tactic(auto, using(text::proofs::Behind::written_in_turn, crate::proofs::Turns::append_in_turn), unfolding(crate::specs::Why::lookup_texts))]
fn put_lookup(out: &mut Writer<'_>, seen: Result<Isometry, RegistryError>)
    ensures { Writes out.old out.new (lookup_texts (replied pose seen)) }
{
    out.write_bytes(b"lookup: ");
    put_outcome(out, seen);
    output::line_end(out);
}

// The path of two frames, the time that they have in common, and what the lookup replies.
fn put_path(
    store: &Checked<'_>,
    target: u32,
    source: u32,
    t: u64,
    seen: Result<Isometry, RegistryError>,
    out: &mut Writer<'_>,
)
    requires { replied pose seen ≡ lookup (tree_in store.now) target source t }
    ensures { Writes out.old out.new (path_texts (tree_in store.now) target source t) }
{
    let a = target as u64;
    let b = source as u64;
    let ends = store.climb_ends(a, b);
    put_side(store, b"target", a, ends.target, t, out);
    put_side(store, b"source", b, ends.source, t, out);
    put_meeting(out, ends.target, ends.source);
    put_common(out, store.latest_common_time(target, source));
    put_lookup(out, seen);
}

// Whether a frame that was asked for is unknown.
fn is_unknown(error: RegistryError) -> bool
    ensures { result ≡ ((refusal_of error).0 == 9) }
{
    matches!(error, RegistryError::UnknownFrame(_))
}

// Of a sound store: the path and the lookup, or the lookup's refusal alone where a frame is unknown.
fn put_sound(store: &Checked<'_>, target: u32, source: u32, t: u64, out: &mut Writer<'_>)
    ensures { Writes out.old out.new (tree_texts (tree_in store.now) target source t) }
{
    let seen = store.get_transform(target, source, t);
    if seen.is_err_and(is_unknown) {
        put_lookup(out, seen);
    } else {
        put_path(store, target, source, t, seen, out);
    }
}

// Each hop between the target and the source, whether it is served at the instant, and what follows from that.
#[tactic(auto, using(text::proofs::Behind::written_in_turn, crate::proofs::Turns::append_in_turn, crate::proofs::Told::tree_answered, crate::proofs::Told::tree_refused), unfolding(crate::specs::Why::why_texts))]
pub fn why(store: &Store<'_>, target: u32, source: u32, t: u64, out: &mut Writer<'_>)
    ensures { Writes out.old out.new (why_texts target source t (words store.now)) }
{
    show::put_question(out, target, source, t);
    match store.check() {
        Ok(checked) => put_sound(&checked, target, source, t, out),
        Err(error) => put_lookup(out, Err(error)),
    }
}
