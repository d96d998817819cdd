// The argument of the program: the name of a file. Where there is none that can be opened, standard error says why.
use std::env::FillError;
use std::rt::Env;

// Whether there is an argument of that number. Number 0 is the program's name.
fn is_given(rt: &impl Env, number: usize) -> bool {
    !matches!(rt.arg(number, &mut []), Err(FillError::NotPresent))
}

// The only argument, put into the buffer.
pub(crate) fn file_name<'a>(rt: &(impl Env + Eprint), buf: &'a mut [u8]) -> Option<&'a str> {
    if !is_given(rt, 1) || is_given(rt, 2) {
        let _ = eprintln!(rt; "usage: map FILE");
        return None;
    }
    let length = rt.arg(1, buf).unwrap_or(0);
    if length == 0 {
        let _ = eprintln!(rt; "map: the file's name is empty or too long");
        return None;
    }
    let name = str::from_utf8(&buf[..length]).ok();
    if name.is_none() {
        let _ = eprintln!(rt; "map: the file's name is not text in UTF-8");
    }
    name
}
