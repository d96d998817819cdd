// `show`: a lookup in words.
ghost use Rattle.std.specs.Prelude.{◌≡◌};
ghost use Rattle.text.specs.Writing.{Writes};
ghost use Rattle.registry.specs.Answers.{replied, pose};
ghost use Rattle.registry.specs.Calls.{words, lookup_of};
ghost use Rattle.console.specs.Show.{question_texts, rotation_texts, pose_texts, answer_texts, show_texts};

use crate::{figures, output, refusals};
use geometry::isometry::Isometry;
use geometry::quaternion::Quaternion;
use registry::error::RegistryError;
use registry::store::Store;
use text::Writer;

// What is asked: the source seen from the target, at an instant.
pub(crate) fn put_question(out: &mut Writer<'_>, target: u32, source: u32, t: u64)
    ensures { Writes out.old out.new (question_texts target source t) }
{
    figures::put_frame(out, source as u64);
    out.write_bytes(b" seen from ");
    figures::put_frame(out, target as u64);
    out.write_bytes(b" at ");
    figures::put_seconds(out, t);
    output::line_end(out);
}

fn put_rotation(out: &mut Writer<'_>, q: Quaternion)
    ensures { Writes out.old out.new (rotation_texts q) }
{
    out.write_bytes(b"rotation w ");
    figures::put_figure(out, q.w);
    out.write_bytes(b" x ");
    figures::put_figure(out, q.x);
    out.write_bytes(b" y ");
    figures::put_figure(out, q.y);
    out.write_bytes(b" z ");
    figures::put_figure(out, q.z);
}

// Two lines of a pose.
fn put_pose(out: &mut Writer<'_>, pose: Isometry)
    ensures { Writes out.old out.new (pose_texts pose) }
{
    out.write_bytes(b"translation ");
    figures::put_vector(out, pose.translation);
    output::line_end(out);
    put_rotation(out, pose.rotation);
}

// The pose that is replied, or the refusal.
fn put_reply(out: &mut Writer<'_>, reply: Result<Isometry, RegistryError>)
    ensures { Writes out.old out.new (answer_texts (replied pose reply)) }
{
    match reply {
        Ok(pose) => put_pose(out, pose),
        Err(error) => refusals::put_refusal(out, error),
    }
}

// The source's pose seen from the target, or why there is none.
pub fn show(store: &Store<'_>, target: u32, source: u32, t: u64, out: &mut Writer<'_>)
    ensures { Writes out.old out.new (show_texts target source t (lookup_of (words store.now) target source t)) }
{
    put_question(out, target, source, t);
    put_reply(out, store.get_transform(target, source, t));
    output::line_end(out);
}
