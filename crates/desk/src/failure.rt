// What is said on standard error of a read, a write or an argument that failed.
use std::io;

// What the system says of an error, without the number that the library writes after it.
fn without_number(text: &str) -> &str {
    match text.split_once(" (os error ") {
        Some((words, _)) => words,
        None => text,
    }
}

// Writes a line: what failed, and what is said of it. Where that cannot be written either, nothing is left to be told.
fn say(rt: &impl Eprint, what: &str, why: &str) {
    let _ = eprintln!(rt; "{what}: {why}");
}

// Tells what failed, with what the system said. Where there is no memory for its words, the number stands after them.
pub(crate) fn fail(rt: &(impl Eprint + Alloc), what: &str, error: io::Error) {
    match format!(in rt.alloc(); "{error}") {
        Ok(text) => say(rt, what, without_number(text.as_str())),
        Err(_) => {
            let _ = eprintln!(rt; "{what}: {error}");
        }
    }
}
