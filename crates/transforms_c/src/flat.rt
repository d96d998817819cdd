// What C is told of the results of the calls and of the pose operations: one struct, filled by what they carry.
ghost use Rattle.std.specs.Prelude.{◌≡◌};
ghost use Rattle.time.specs.Reply.{refusal};
ghost use Rattle.registry.specs.Answers.{refusal_of, carried_by};
ghost use Rattle.transforms_c.specs.Flat.{plain, posed, any_instant, at_instant, normed, framed, ranged, flat, of_record};

use super::answer::{Answer, FrameAnswer, NameAnswer};
use geometry::error::TransformError;
use geometry::isometry::Isometry;
use map_file::form::FormError;
use map_file::record::Name;
use map_loading::error::LoadError;
use registry::error::{Carried, Covered, RegistryError};
use time::stamp::Stamp;

// Each fills the constant field by field: a struct written out whole is slower.

// A number that carries nothing.
fn plain(number: u32) -> Answer
    ensures { result ≡ plain number }
{
    let mut r = Answer::DONE;
    r.number = number;
    r
}

fn posed(pose: Isometry) -> Answer
    ensures { result ≡ posed pose }
{
    let mut r = Answer::DONE;
    r.pose = pose;
    r
}

fn any_instant() -> Answer
    ensures { result ≡ any_instant }
{
    let mut r = Answer::DONE;
    r.is_static = 1;
    r
}

fn at_instant(instant: u64) -> Answer
    ensures { result ≡ at_instant instant }
{
    let mut r = Answer::DONE;
    r.instant = instant;
    r
}

fn normed(number: u32, norm: f64) -> Answer
    ensures { result ≡ normed number norm }
{
    let mut r = Answer::DONE;
    r.number = number;
    r.norm = norm;
    r
}

fn framed(number: u32, frame: u32) -> Answer
    ensures { result ≡ framed number frame }
{
    let mut r = Answer::DONE;
    r.number = number;
    r.frame = frame;
    r
}

// A hop's child, and its range if it has one.
fn ranged(number: u32, frame: u32, covered: Covered) -> Answer
    ensures { result ≡ ranged number frame covered }
{
    let Some((start, end)) = covered else {
        return framed(number, frame);
    };
    let mut r = Answer::DONE;
    r.number = number;
    r.frame = frame;
    r.has_range = 1;
    r.start = start;
    r.end = end;
    r
}

// A refusal by its number, and by what it carries.
fn carrying(number: u32, carried: Carried) -> Answer
    ensures { result ≡ flat (refusal number (carried_by carried)) }
{
    match carried {
        Carried::Nothing => plain(number),
        Carried::Norm(norm) => normed(number, norm),
        Carried::Frame(frame) => framed(number, frame),
        Carried::Hop(child, covered) => ranged(number, child, covered),
    }
}

// The refusal of a call.
fn refused(error: RegistryError) -> Answer
    ensures { result ≡ flat (refusal (refusal_of error).0 (refusal_of error).1) }
{
    carrying(error.number(), error.carried())
}

// A record's refusal.
fn of_record(n: u32, refused: Answer) -> Answer
    ensures { result ≡ of_record n refused }
{
    let mut r = refused;
    r.is_record = 1;
    r.index = u64::from(n);
    r
}

// The number of the refusal of a file of wrong form.
fn map_form() -> u32
    ensures { result ≡ 18 }
{
    LoadError::MapForm.number()
}

// Of a call that writes.
impl From<Result<(), RegistryError>> for Answer {
    ghost use Rattle.registry.specs.Answers.{replied, told_done};

    ghost from_gives = { λ done answer. answer ≡ flat (replied told_done done) };

    fn from(done: Result<(), RegistryError>) -> Answer {
        match done {
            Ok(()) => plain(0),
            Err(error) => refused(error),
        }
    }
}

// Of a lookup.
impl From<Result<Isometry, RegistryError>> for Answer {
    ghost use Rattle.registry.specs.Answers.{replied, pose};

    ghost from_gives = { λ found answer. answer ≡ flat (replied pose found) };

    fn from(found: Result<Isometry, RegistryError>) -> Answer {
        match found {
            Ok(pose) => posed(pose),
            Err(error) => refused(error),
        }
    }
}

// Of a latest common time.
impl From<Result<Stamp, RegistryError>> for Answer {
    ghost use Rattle.registry.specs.Answers.{replied, told_time};

    ghost from_gives = { λ time answer. answer ≡ flat (replied told_time time) };

    fn from(time: Result<Stamp, RegistryError>) -> Answer {
        match time {
            Ok(Stamp::Static) => any_instant(),
            Ok(Stamp::At(instant)) => at_instant(instant),
            Err(error) => refused(error),
        }
    }
}

// Of an operation on poses.
impl From<Result<Isometry, TransformError>> for Answer {
    ghost use Rattle.time.specs.Reply.{reply_by};
    ghost use Rattle.geometry.specs.Answers.{refusal_of as transform_refusal_of};
    ghost use Rattle.transforms_c.specs.Flat.{flat_pose};

    ghost from_gives = { λ moved answer. answer ≡ flat_pose (reply_by transform_refusal_of moved) };

    fn from(moved: Result<Isometry, TransformError>) -> Answer {
        match moved {
            Ok(pose) => posed(pose),
            Err(error) => refused(RegistryError::from(error)),
        }
    }
}

// Of a load.
impl From<Result<(), LoadError>> for Answer {
    ghost use Rattle.map_loading.specs.Loading.{record_of, load_reply};
    ghost use Rattle.transforms_c.specs.Flat.{flat_load};

    ghost from_gives = { λ loaded answer. answer ≡ flat_load (record_of loaded) (load_reply loaded) };

    fn from(loaded: Result<(), LoadError>) -> Answer {
        match loaded {
            Ok(()) => plain(0),
            Err(LoadError::Record(n, error)) => of_record(n, refused(error)),
            Err(error) => carrying(error.number(), error.carried()),
        }
    }
}

// Of the book of a map's names, for a name.
impl From<Result<Option<u32>, FormError>> for FrameAnswer {
    ghost use Rattle.time.specs.Reply.{reply_by};
    ghost use Rattle.map_file.specs.Answers.{refusal_of as form_refusal_of};
    ghost use Rattle.transforms_c.specs.Flat.{flat_frame};

    ghost from_gives = { λ numbered answer. answer ≡ flat_frame (reply_by form_refusal_of numbered) };

    fn from(numbered: Result<Option<u32>, FormError>) -> FrameAnswer {
        match numbered {
            Ok(Some(frame)) => FrameAnswer {
                number: 0,
                is_known: 1,
                frame,
            },
            Ok(None) => FrameAnswer {
                number: 0,
                is_known: 0,
                frame: 0,
            },
            Err(_) => FrameAnswer {
                number: map_form(),
                is_known: 0,
                frame: 0,
            },
        }
    }
}

// .. and for a number.
impl From<Result<Option<Name<'_>>, FormError>> for NameAnswer {
    ghost use Rattle.map_file.specs.Answers.{part_read};
    ghost use Rattle.transforms_c.specs.Flat.{flat_name};

    ghost from_gives = { λ named answer. answer ≡ flat_name (part_read named) };

    fn from(named: Result<Option<Name<'_>>, FormError>) -> NameAnswer {
        match named {
            Ok(Some(name)) => NameAnswer {
                number: 0,
                is_known: 1,
                start: name.start,
                count: name.bytes.len(),
            },
            Ok(None) => NameAnswer {
                number: 0,
                is_known: 0,
                start: 0,
                count: 0,
            },
            Err(_) => NameAnswer {
                number: map_form(),
                is_known: 0,
                start: 0,
                count: 0,
            },
        }
    }
}
