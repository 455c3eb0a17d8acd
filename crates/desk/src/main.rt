// The desk: reads a recording's text and writes what the recording holds. What it writes for every input is defined in the
// room `desk_text`; here a file or standard input is read, and the text is written.
#![tactic(auto)]

mod failure;
mod help;
mod reasons;

ghost use Rattle.std.specs.Prelude.{◌≡◌, ◌+◌, ◌≤◌, length, IfOk};
ghost use Rattle.io.specs.Counts.{IsPrefixLen};
ghost use Rattle.desk_text.specs.Enough.{most_input};
ghost use Rattle.desk_text.specs.Input.{most_widths};
ghost use Rattle.desk_text.specs.Promise.{most_text};
ghost use Rattle.desk.specs.Texts.{WholeText};

use desk_text::{Answered, MOST_TEXT, MOST_WIDTHS};
use failure::fail;
use std::env::FillError;
use std::io::{self, Error, ErrorKind, Read};
use std::rt::{Env, Files};
use std::{fs, str};

// One byte more than the longest good input has, so that an input that is too long is seen to be. What follows it changes
// nothing, and is not read.
const ENOUGH: usize = 229415;

// The longest name of a file that the system takes, with the zero that ends it.
const LONGEST_NAME: usize = 4096;

// The system's number for the error that a name is too long.
const NAME_TOO_LONG: i32 = 36;

// Bytes for the input. The three sizes are each held to a law's own number by a contract, so no generic one serves them.
fn space() -> [u8; ENOUGH]
    ensures { 1 + most_input ≡ length result }
{
    [0u8; ENOUGH]
}

// Words for its widths.
fn words() -> [u32; MOST_WIDTHS]
    ensures { most_widths ≡ length result }
{
    [0u32; MOST_WIDTHS]
}

// Bytes for the text.
fn page() -> [u8; MOST_TEXT]
    ensures { most_text ≡ length result }
{
    [0u8; MOST_TEXT]
}

// Reads until the buffer is full or the input ends, and answers how many bytes were read. By hand: what the library has for it
// says too little of an input that ends first.
fn fill(reader: &mut impl Read, buf: &mut [u8]) -> io::Result<usize>
    ensures { IfOk result (λ n. IsPrefixLen n buf.new) }
{
    let mut done = 0;
    while done < buf.len() {
        match reader.read(&mut buf[done..])? {
            0 => break,
            n => done += n,
        }
    }
    Ok(done)
}

// Writes a text on standard output. Where that fails or stops short it is told, with what the system said.
fn put_out(rt: &(impl Print + Eprint + Alloc), text: &[u8]) {
    if let Err(error) = rt.write_all(text) {
        fail(rt, "standard output", error);
    }
}

// Writes the page of help, until a part of it cannot be written, which is told.
fn put_page(rt: &(impl Print + Eprint + Alloc)) {
    for part in help::PAGE {
        if let Err(error) = rt.write_all(part.as_bytes()) {
            fail(rt, "standard output", error);
            return;
        }
    }
}

// What an input comes to: how many bytes its text has, and its first bad line, if one is bad.
#[derive(Drop)]
struct Text {
    length: usize,
    line: Option<usize>,
}

// The whole text of an input, laid first in the page. Enough is lent, so that the desk does not refuse.
fn text_in(input: &[u8], words: &mut [u32], page: &mut [u8]) -> Text
    requires { (most_widths ≤ length words.old) × (most_text ≤ length page.old) }
    ensures { WholeText input.now page.new result }
{
    match desk_report::desk(input, words, page).unwrap() {
        Answered::Report { length } => Text { length, line: None },
        Answered::Refused { line, length } => Text {
            length,
            line: Some(line),
        },
    }
}

// Writes the text of an input, and why it is refused where it is.
fn answer(rt: &(impl Print + Eprint + Alloc), input: &[u8]) {
    let mut words = words();
    let mut page = page();
    let text = text_in(input, &mut words, &mut page);
    put_out(rt, &page[..text.length]);
    if let Some(line) = text.line {
        reasons::tell(rt, input, line);
    }
}

// Answers what a reader gives; a failure is told with the name.
fn serve(rt: &(impl Print + Eprint + Alloc), reader: &mut impl Read, name: &str) {
    let mut buf = space();
    match fill(reader, &mut buf) {
        Ok(n) => answer(rt, &buf[..n]),
        Err(error) => fail(rt, name, error),
    }
}

// Answers standard input.
fn serve_input(rt: &(impl Input + Print + Eprint + Alloc)) {
    let mut reader = rt.reader();
    serve(rt, &mut reader, "standard input");
}

// Answers a file.
fn serve_file(rt: &(impl Files + Print + Eprint + Alloc), name: &str) {
    match fs::open(rt, name) {
        Ok(mut file) => serve(rt, &mut file, name),
        Err(error) => fail(rt, name, error),
    }
}

// The one argument: `-`, `--help` or a name.
fn serve_named(rt: &(impl Files + Input + Print + Eprint + Alloc), name: &[u8]) {
    if desk_field::same(name, b"-") {
        serve_input(rt);
    } else if desk_field::same(name, b"--help") {
        put_page(rt);
    } else if let Ok(name) = str::from_utf8(name) {
        serve_file(rt, name);
    } else {
        fail(
            rt,
            "desk: the argument",
            Error::new(ErrorKind::InvalidFilename, "it is not UTF-8"),
        );
    }
}

// Whether there is an argument of this number, however long it is.
fn given(rt: &impl Env, number: usize) -> bool {
    let mut text = [0u8; 1];
    !matches!(rt.arg(number, &mut text), Err(FillError::NotPresent))
}

// One argument at most: a file, `-` or `--help`.
fn main(rt: HostRuntime) {
    if given(&rt, 2) {
        let _ = eprintln!(rt; "desk: one file at most; desk --help says more");
        return;
    }
    let mut name = [0u8; LONGEST_NAME];
    match rt.arg(1, &mut name) {
        Ok(n) => serve_named(&rt, &name[..n]),
        Err(FillError::NotPresent) => serve_input(&rt),
        Err(FillError::TooLong) => fail(
            &rt,
            "desk: the argument",
            Error::from_raw_os_error(NAME_TOO_LONG),
        ),
    }
}
