// The text of an answer, a text behind the other.
ghost use Rattle.std.specs.Prelude.{◌≡◌, ◌∷◌};
ghost use Rattle.time.specs.Reply.{reply_by};
ghost use Rattle.geometry.specs.Answers.{refusal_of as transform_refusal_of};
ghost use Rattle.registry.specs.Answers.{refusal_of, carried_by, replied, told_done, pose, told_time};
ghost use Rattle.registry.specs.Replies.{posed as told_pose};
ghost use Rattle.text.specs.Writing.{Writes};
ghost use Rattle.answers.specs.Texts.{float, number_word, float_word, translation_texts, rotation_texts, pose_texts, hop_texts, carried_texts, refusal_texts, instant_texts, reply_texts};

use geometry::error::TransformError;
use geometry::isometry::Isometry;
use geometry::quaternion::Quaternion;
use geometry::vector3::Vector3;
use registry::error::{Carried, Covered, RegistryError};
use text::Writer;
use time::stamp::Stamp;

// A space and a number.
pub fn write_number_word(w: &mut Writer<'_>, n: u64)
    ensures { Writes w.old w.new (number_word n) }
{
    w.write_bytes(b" ");
    w.write_number(n);
}

// A space and a float.
pub fn write_float_word(w: &mut Writer<'_>, x: f64)
    ensures { Writes w.old w.new (float_word x) }
{
    w.write_bytes(b" ");
    w.write_float(x);
}

pub fn write_float_answer(w: &mut Writer<'_>, x: f64)
    ensures { Writes w.old w.new (float ∷ float_word x) }
{
    w.write_bytes(b"float");
    write_float_word(w, x);
}

fn write_translation(w: &mut Writer<'_>, t: Vector3)
    ensures { Writes w.old w.new (translation_texts t) }
{
    write_float_word(w, t.x);
    write_float_word(w, t.y);
    write_float_word(w, t.z);
}

fn write_rotation(w: &mut Writer<'_>, q: Quaternion)
    ensures { Writes w.old w.new (rotation_texts q) }
{
    write_float_word(w, q.w);
    write_float_word(w, q.x);
    write_float_word(w, q.y);
    write_float_word(w, q.z);
}

pub fn write_pose(w: &mut Writer<'_>, p: Isometry)
    ensures { Writes w.old w.new (pose_texts p) }
{
    w.write_bytes(b"pose");
    write_translation(w, p.translation);
    write_rotation(w, p.rotation);
}

// A hop: its child, and its range if it holds any sample.
fn write_hop(w: &mut Writer<'_>, child: u32, covered: Covered)
    ensures { Writes w.old w.new (hop_texts child covered) }
{
    write_number_word(w, u64::from(child));
    match covered {
        Some((start, end)) => {
            write_number_word(w, start);
            write_number_word(w, end);
        }
        None => w.write_bytes(b" none"),
    }
}

fn write_carried(w: &mut Writer<'_>, carried: Carried)
    ensures { Writes w.old w.new (carried_texts (carried_by carried)) }
{
    match carried {
        Carried::Nothing => {}
        Carried::Norm(norm) => write_float_word(w, norm),
        Carried::Frame(frame) => write_number_word(w, u64::from(frame)),
        Carried::Hop(child, covered) => write_hop(w, child, covered),
    }
}

// A refusal by its number, whatever it carries.
pub fn write_refusal(w: &mut Writer<'_>, number: u32, carried: Carried)
    ensures { Writes w.old w.new (refusal_texts number (carried_by carried)) }
{
    w.write_bytes(b"no");
    write_number_word(w, u64::from(number));
    write_carried(w, carried);
}

// The refusal of a call.
fn write_error(w: &mut Writer<'_>, error: RegistryError)
    ensures { Writes w.old w.new (refusal_texts (refusal_of error).0 (refusal_of error).1) }
{
    write_refusal(w, error.number(), error.carried());
}

fn write_instant(w: &mut Writer<'_>, t: u64)
    ensures { Writes w.old w.new (instant_texts t) }
{
    w.write_bytes(b"at");
    write_number_word(w, t);
}

// What a call that writes gives.
pub fn write_done(w: &mut Writer<'_>, done: Result<(), RegistryError>)
    ensures { Writes w.old w.new (reply_texts (replied told_done done)) }
{
    match done {
        Ok(()) => w.write_bytes(b"done"),
        Err(error) => write_error(w, error),
    }
}

// What a lookup gives.
pub fn write_lookup(w: &mut Writer<'_>, found: Result<Isometry, RegistryError>)
    ensures { Writes w.old w.new (reply_texts (replied pose found)) }
{
    match found {
        Ok(pose) => write_pose(w, pose),
        Err(error) => write_error(w, error),
    }
}

// What a latest common time gives.
pub fn write_common_time(w: &mut Writer<'_>, time: Result<Stamp, RegistryError>)
    ensures { Writes w.old w.new (reply_texts (replied told_time time)) }
{
    match time {
        Ok(Stamp::Static) => w.write_bytes(b"static"),
        Ok(Stamp::At(t)) => write_instant(w, t),
        Err(error) => write_error(w, error),
    }
}

// What an operation on poses gives.
pub fn write_posed(w: &mut Writer<'_>, posed: Result<Isometry, TransformError>)
    ensures { Writes w.old w.new (reply_texts (told_pose (reply_by transform_refusal_of posed))) }
{
    write_lookup(w, posed.map_err(RegistryError::from));
}
