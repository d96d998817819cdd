// Why a map is refused, in words.
use crate::{lines, names};
use console::output::Output;
use console::{figures, refusals};
use map_file::file::MapFile;
use map_file::record::Record;
use map_loading::error::LoadError;
use registry::error::{Carried, RegistryError};
use text::Writer;

// What the refusal carries: a norm, or the parent that the child has.
fn put_carried(out: &mut Writer<'_>, file: &MapFile<'_>, error: RegistryError) {
    match error.carried() {
        Carried::Norm(norm) => {
            out.write_bytes(b"; the norm is ");
            figures::put_figure(out, norm);
        }
        Carried::Frame(frame) => {
            out.write_bytes(b"; its parent is ");
            names::put_frame(out, file, frame);
        }
        Carried::Nothing | Carried::Hop(..) => {}
    }
}

// The first line: the record, and what is wrong with it.
fn print_record(rt: &impl Output, out: &mut Writer<'_>, n: u32, error: RegistryError) {
    out.write_bytes(b"record ");
    out.write_number(u64::from(n));
    out.write_bytes(b", counted from 0, is ");
    refusals::put_number(out, error.number());
    lines::print(rt, out);
}

// The second line: the names of the record, and what the refusal carries.
fn print_names(
    rt: &impl Output,
    out: &mut Writer<'_>,
    file: &MapFile<'_>,
    record: Record<'_>,
    error: RegistryError,
) {
    out.write_bytes(b"  child ");
    names::put_name(out, record.child.bytes);
    out.write_bytes(b", parent ");
    names::put_name(out, record.parent.bytes);
    put_carried(out, file, error);
    lines::print(rt, out);
}

// A file that is refused as a whole.
fn print_whole(rt: &impl Output, out: &mut Writer<'_>, error: LoadError) {
    out.write_bytes(b"the map is ");
    refusals::put_number(out, error.number());
    if error == LoadError::MapForm {
        out.write_bytes(b": wrong mark, version or length byte, cut short, or bytes left over");
    }
    lines::print(rt, out);
}

// Prints what a load was refused with.
pub(crate) fn print(rt: &impl Output, map: &[u8], error: LoadError) {
    let mut line = [0u8; lines::LINE_BYTES];
    let mut out = Writer::new(&mut line);
    let LoadError::Record(n, cause) = error else {
        print_whole(rt, &mut out, error);
        return;
    };
    print_record(rt, &mut out, n, cause);
    let Ok(file) = MapFile::parse(map) else {
        return;
    };
    if let Some(record) = file.records().nth(n as usize) {
        print_names(rt, &mut out, &file, record, cause);
    }
}
