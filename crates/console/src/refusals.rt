// Refusals in words: what is written is stated in specs/Refusals.antt.
ghost use Rattle.std.specs.Prelude.{◌≡◌, [], ◌∷◌};
ghost use Rattle.text.specs.Writing.{Writes};
ghost use Rattle.time.specs.Reply.{refusal};
ghost use Rattle.registry.specs.Answers.{carried_by, refusal_of};
ghost use Rattle.console.specs.Refusals.{words, number_texts, hop_texts, carried_texts, refusal_texts};

use crate::figures;
use registry::error::{Carried, Covered, RegistryError};
use text::Writer;

// The words for a number that has none.
const NO_WORDS: &str = "a refusal without words";

// The words of a refusal by its number, and before them, at 0, those of a number that has none.
// They are lines of one text and no array of texts, since what a lookup in a constant array gives was not proved.
fn put_words(out: &mut Writer<'_>, number: u32)
    ensures { Writes out.old out.new (words number ∷ []) }
{
    let words = "a refusal without words\n\
        the sizes or the lengths of the slices are wrong\n\
        the store is unsound: its words break a rule\n\
        a component is not finite\n\
        the rotation is not a unit\n\
        a frame cannot be its own parent\n\
        the child is held under another parent\n\
        the child is already above its parent: a circle\n\
        static and moving samples do not mix in one frame\n\
        the frame is unknown\n\
        no path connects the frames\n\
        a frame on the way is not served at this instant\n\
        the frames have no common time\n\
        the norm of the rotation is not finite\n\
        the rotation is zero\n\
        time runs backwards\n\
        the tree is full\n\
        the row is full\n\
        this is no map file, or it is damaged\n\
        the store already holds a frame\n"
        .lines()
        .nth(number as usize);
    out.write_bytes(words.unwrap_or(NO_WORDS).as_bytes());
}

// A number, and what it means.
pub fn put_number(out: &mut Writer<'_>, number: u32)
    ensures { Writes out.old out.new (number_texts number) }
{
    out.write_bytes(b"refused with ");
    out.write_number(number as u64);
    out.write_bytes(b": ");
    put_words(out, number);
}

// A frame, and the range that it is served in, if it holds any sample.
fn put_hop(out: &mut Writer<'_>, child: u32, covered: Covered)
    ensures { Writes out.old out.new (hop_texts child covered) }
{
    figures::put_frame(out, child as u64);
    match covered {
        Some((start, end)) => {
            out.write_bytes(b" is served from ");
            figures::put_seconds(out, start);
            out.write_bytes(b" to ");
            figures::put_seconds(out, end);
        }
        None => out.write_bytes(b" holds no sample"),
    }
}

// What a refusal carries, if it carries anything.
fn put_carried(out: &mut Writer<'_>, carried: Carried)
    ensures { Writes out.old out.new (carried_texts (carried_by carried)) }
{
    match carried {
        Carried::Nothing => {}
        Carried::Norm(norm) => {
            out.write_bytes(b"; the norm is ");
            figures::put_figure(out, norm);
        }
        Carried::Frame(frame) => {
            out.write_bytes(b"; ");
            figures::put_frame(out, frame as u64);
        }
        Carried::Hop(child, covered) => {
            out.write_bytes(b"; ");
            put_hop(out, child, covered);
        }
    }
}

// A refusal whole, on one line.
pub(crate) fn put_refusal(out: &mut Writer<'_>, error: RegistryError)
    ensures { let told = refusal_of error in Writes out.old out.new (refusal_texts (refusal told.0 told.1)) }
{
    put_number(out, error.number());
    put_carried(out, error.carried());
}
