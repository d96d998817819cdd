// Names as they are printed: a byte that is no printable character, and the backslash, by its hexadecimal digits.
use map_file::file::MapFile;
use text::Writer;

fn put_byte(out: &mut Writer<'_>, byte: u8) {
    match byte {
        b'\\' | 0..=31 | 127..=255 => {
            out.write_bytes(b"\\x");
            out.write_byte(byte);
        }
        _ => out.write_bytes(&[byte]),
    }
}

pub(crate) fn put_name(out: &mut Writer<'_>, name: &[u8]) {
    for byte in name {
        put_byte(out, *byte);
    }
}

// A frame's number and its name.
pub(crate) fn put_frame(out: &mut Writer<'_>, file: &MapFile<'_>, frame: u32) {
    out.write_number(u64::from(frame));
    out.write_bytes(b" ");
    if let Some(name) = file.name_of(frame) {
        put_name(out, name.bytes);
    }
}
