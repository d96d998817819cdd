// The answer to a line, by a Writer, as `answers` and console write. Answers for people end with a line end, so that an
// empty line is their last; what was answered before a long one is written out first, so that it finds the buffer
// empty.
use super::memory::{self, Memory};
use super::operation::Operation;
use console::failure::Failed;
use console::output::{self, Output};
use registry::error::RegistryError;
use text::Writer;

fn write_malformed(out: &mut Writer<'_>) {
    out.write_bytes(b"malformed");
}

// `done`, or that the line is malformed.
fn write_done_if(out: &mut Writer<'_>, done: Option<()>) {
    match done {
        Some(()) => out.write_bytes(b"done"),
        None => write_malformed(out),
    }
}

fn write_opened(out: &mut Writer<'_>, opened: Option<Result<(), RegistryError>>) {
    match opened {
        Some(result) => answers::write_done(out, result),
        None => write_malformed(out),
    }
}

// A name and the elements of a slice.
fn write_elements<T: Copy, F: Fn(&mut Writer<'_>, T)>(
    rt: &impl Output,
    out: &mut Writer<'_>,
    name: &[u8],
    elements: &[T],
    write: F,
) -> Result<(), Failed>
    requires { F.IsAlwaysCallable write }
{
    out.write_bytes(name);
    for element in elements {
        output::spare(rt, out)?;
        write(out, *element);
    }
    Ok(())
}

// Every word of the store that is lent.
fn write_store(rt: &impl Output, out: &mut Writer<'_>, memory: &Memory<'_>) -> Result<(), Failed> {
    let store = memory.store();
    write_elements(
        rt,
        out,
        b"head",
        store.head,
        |out, word| answers::write_number_word(out, word),
    )?;
    output::line_end(out);
    write_elements(
        rt,
        out,
        b"instants",
        store.instants,
        |out, word| answers::write_number_word(out, word),
    )?;
    output::line_end(out);
    write_elements(
        rt,
        out,
        b"poses",
        store.poses,
        |out, float| answers::write_float_word(out, float),
    )
}

// The number of the name whose bytes have these digits.
fn write_frame(out: &mut Writer<'_>, map: &[u8], digits: &[u8]) {
    let mut name = [0u8; memory::GIVEN_BYTES];
    match memory::put_bytes(digits, &mut name) {
        Some(count) => answers::write_frame(out, map, &name[..count]),
        None => write_malformed(out),
    }
}

// What an operation answers.
fn write_answer(
    rt: &impl Output,
    out: &mut Writer<'_>,
    memory: &mut Memory<'_>,
    operation: Operation<'_>,
) -> Result<(), Failed> {
    match operation {
        Operation::Open {
            rows,
            samples,
            max_age,
        } => write_opened(out, memory.open(rows, samples, max_age)),
        Operation::Lend {
            head,
            instants,
            poses,
        } => write_done_if(out, memory.lend(head, instants, poses)),
        Operation::NoMap => {
            memory.clear_map();
            write_done_if(out, Some(()));
        }
        Operation::Map(digits) => write_done_if(out, memory.append_to_map(digits)),
        Operation::Add(a) => {
            let added = memory.with_store(|store| store.add_transform(
                a.child, a.parent, a.stamp, a.pose,
            ));
            answers::write_done(out, added);
        }
        Operation::Wipe { child, t } => {
            let wiped = memory.with_store(|store| store.remove_before(child, t));
            answers::write_done(out, wiped);
        }
        Operation::Load => answers::write_loaded(out, memory.load()),
        Operation::SetHead(place, word) => write_done_if(out, memory.set_head(place, word)),
        Operation::SetInstants(place, word) => write_done_if(out, memory.set_instants(place, word)),
        Operation::SetPoses(place, float) => write_done_if(out, memory.set_poses(place, float)),
        Operation::Lookup(q) => {
            answers::write_lookup(out, memory.store().get_transform(q.target, q.source, q.t));
        }
        Operation::Common { target, source } => {
            answers::write_common_time(out, memory.store().latest_common_time(target, source));
        }
        Operation::Show(q) => console::show::show(&memory.store(), q.target, q.source, q.t, out),
        Operation::Why(q) => {
            output::flush(rt, out)?;
            console::why::why(&memory.store(), q.target, q.source, q.t, out);
        }
        Operation::Tree => {
            output::flush(rt, out)?;
            console::tree::tree(&memory.store(), out);
        }
        Operation::Dot => {
            output::flush(rt, out)?;
            console::dot::dot(&memory.store(), out);
        }
        Operation::Words => write_store(rt, out, memory)?,
        Operation::Frame(digits) => write_frame(out, memory.map(), digits),
        Operation::Name(frame) => answers::write_name(out, memory.map(), frame),
        Operation::Mul(a, b) => answers::write_posed(out, a.mul(b)),
        Operation::Inv(pose) => answers::write_posed(out, pose.inverse()),
        Operation::Interp {
            first,
            second,
            start,
            end,
            t,
        } => answers::write_posed(out, first.interpolate(second, start, end, t)),
        Operation::Sqrt(x) => answers::write_float_answer(out, libm::sqrt(x)),
        Operation::Acos(x) => answers::write_float_answer(out, libm::acos(x)),
        Operation::Sin(x) => answers::write_float_answer(out, libm::sin(x)),
    }
    Ok(())
}

// The answer to a line, with no line end behind it.
pub(crate) fn answer(
    rt: &impl Output,
    line: &[u8],
    memory: &mut Memory<'_>,
    out: &mut Writer<'_>,
) -> Result<(), Failed> {
    match Operation::read(line) {
        Some(operation) => write_answer(rt, out, memory, operation),
        None => {
            write_malformed(out);
            Ok(())
        }
    }
}
