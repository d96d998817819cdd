// The text of what a load and the book of names answer.
ghost use Rattle.std.specs.Prelude.{◌≡◌, ◌∷◌, [], map, Some};
ghost use Rattle.time.specs.Reply.{answer, refusal, nothing};
ghost use Rattle.text.specs.Writing.{Writes, byte_text};
ghost use Rattle.registry.specs.Answers.{carried_by};
ghost use Rattle.map_file.specs.Book.{frame_in, name_in};
ghost use Rattle.map_loading.specs.Loading.{record_of, load_reply};
ghost use Rattle.answers.specs.Texts.{none_word, refusal_texts, load_texts, frame_texts, name_texts};

use crate::write;
use map_file::book;
use map_loading::error::LoadError;
use registry::error::Carried;
use text::Writer;

fn write_none(w: &mut Writer<'_>)
    ensures { Writes w.old w.new (none_word ∷ []) }
{
    w.write_bytes(b"none");
}

// The refusal of a file of wrong form.
fn write_map_form(w: &mut Writer<'_>)
    ensures { Writes w.old w.new (refusal_texts 18 nothing) }
{
    write::write_refusal(w, LoadError::MapForm.number(), Carried::Nothing);
}

// A record's refusal: the record's number, then the refusal by its number, whatever it carries.
pub fn write_record(w: &mut Writer<'_>, n: u32, number: u32, carried: Carried)
    ensures { Writes w.old w.new (load_texts (Some n) (refusal number (carried_by carried))) }
{
    w.write_bytes(b"record");
    write::write_number_word(w, u64::from(n));
    w.write_bytes(b" ");
    write::write_refusal(w, number, carried);
}

// What a load gives.
pub fn write_loaded(w: &mut Writer<'_>, loaded: Result<(), LoadError>)
    ensures { Writes w.old w.new (load_texts (record_of loaded) (load_reply loaded)) }
{
    match loaded {
        Ok(()) => w.write_bytes(b"done"),
        Err(LoadError::Record(n, error)) => write_record(w, n, error.number(), error.carried()),
        Err(error) => write::write_refusal(w, error.number(), error.carried()),
    }
}

fn write_number(w: &mut Writer<'_>, frame: u32)
    ensures { Writes w.old w.new (frame_texts (answer (Some frame))) }
{
    w.write_bytes(b"frame");
    write::write_number_word(w, u64::from(frame));
}

// What the book answers for a name.
pub fn write_frame(w: &mut Writer<'_>, map: &[u8], name: &[u8])
    ensures { Writes w.old w.new (frame_texts (frame_in map.now name.now)) }
{
    match book::frame_of(map, name) {
        Ok(Some(frame)) => write_number(w, frame),
        Ok(None) => write_none(w),
        Err(_) => write_map_form(w),
    }
}

// Bytes, two digits each.
#[tactic(auto, using(text::proofs::Behind::written_in_turn, crate::proofs::ByteDigits::digits_more, crate::proofs::ByteDigits::digits_last,),)]
fn write_digits(w: &mut Writer<'_>, bytes: &[u8])
    ensures { Writes w.old w.new (map byte_text bytes.now) }
{
    for b in bytes {
        w.write_byte(*b);
    }
}

fn write_bytes_of_name(w: &mut Writer<'_>, name: &[u8])
    ensures { Writes w.old w.new (name_texts (answer (Some name.now))) }
{
    w.write_bytes(b"name ");
    write_digits(w, name);
}

// What the book answers for a number.
pub fn write_name(w: &mut Writer<'_>, map: &[u8], frame: u32)
    ensures { Writes w.old w.new (name_texts (name_in map.now frame)) }
{
    match book::name_of(map, frame) {
        Ok(Some(name)) => write_bytes_of_name(w, name.bytes),
        Ok(None) => write_none(w),
        Err(_) => write_map_form(w),
    }
}
