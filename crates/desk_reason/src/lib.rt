// Why the first bad line of an input is bad. The desk's text says only which line it is; people are told this besides.
#![tactic(auto)]

ghost use Rattle.std.specs.Prelude.{◌≡◌, Some};
ghost use Rattle.desk_text.specs.Input.{lines};
ghost use Rattle.desk_reason.specs.Reasons.{reason_at, reason_of, first_of, ends_in_return, open_reason, closed_reason, words_of};

use desk_text::{MOST_WIDTHS, find};
use std::fmt::{self, Display, Formatter, Write};

// The byte that closes a line, and the byte that some systems put before it.
const NEWLINE: u8 = 10;

const CARRIAGE_RETURN: u8 = 13;

// Why a line is bad.
#[derive(Clone, Copy, Debug, PartialEq, Eq)]
pub enum Reason {
    // there is no such line
    Missing,
    // no newline closes it
    Unclosed,
    // a carriage return stands before its newline
    CarriageReturn,
    // it is the first line, and not `own`, customer, vehicle
    NotOwn,
    // 16,384 lines with a width stand before it
    TooMany,
    // it is a later line, and not `iv`, width
    NotWidth,
}

// The reason in words.
impl Display for Reason {
    ghost output = { λ r. Some (words_of r) };

    fn fmt<W: Write>(&self, f: &mut Formatter<W>) -> fmt::Result {
        f.write_str(match self {
            Reason::Missing => "the input has no such line",
            Reason::Unclosed => "no newline closes it",
            Reason::CarriageReturn => "a carriage return stands before its newline",
            Reason::NotOwn => "it is not own, customer and vehicle, parted by tabs",
            Reason::TooMany => "16384 lines with a width stand before it",
            Reason::NotWidth => "it is not iv and a width, parted by a tab",
        })
    }
}

// Why a line of an input is bad, the lines counted from 1, of a line that is bad.
#[tactic(auto, using(crate::proofs::Skipping::sought_laws))]
pub fn why_bad(input: &[u8], line: usize) -> Reason
    ensures { result ≡ reason_at line (lines input.now) }
{
    let mut t = input;
    for _n in 1..line {
        let Some(e) = find(t, NEWLINE) else {
            return Reason::Missing;
        };
        t = &t[e + 1..];
    }
    why_first(t, line)
}

// Why the first line of a text is bad, which is that line of the input.
#[tactic(auto, using(crate::proofs::Skipping::first_laws))]
fn why_first(t: &[u8], line: usize) -> Reason
    ensures { result ≡ reason_of line (first_of t.now) }
{
    match find(t, NEWLINE) {
        Some(e) => closed_reason(ends_in_return(&t[..e]), line),
        None => open_reason(t.len()),
    }
}

// Whether the last byte of a line is a carriage return.
#[tactic(auto, using(crate::proofs::Skipping::return_laws))]
fn ends_in_return(l: &[u8]) -> bool
    ensures { result ≡ ends_in_return l.now }
{
    matches!(l, [.., CARRIAGE_RETURN])
}

// Why a line of so many bytes is bad that no newline closes.
#[tactic(auto, unfolding(crate::specs::Reasons::open_reason))]
fn open_reason(length: usize) -> Reason
    ensures { result ≡ open_reason length }
{
    if length == 0 {
        Reason::Missing
    } else {
        Reason::Unclosed
    }
}

// Why a line is bad that a newline closes, with a carriage return before it or not.
#[tactic(auto, unfolding(crate::specs::Reasons::closed_reason))]
fn closed_reason(returned: bool, line: usize) -> Reason
    ensures { result ≡ closed_reason returned line }
{
    if returned {
        Reason::CarriageReturn
    } else if line <= 1 {
        Reason::NotOwn
    } else if MOST_WIDTHS + 1 < line {
        Reason::TooMany
    } else {
        Reason::NotWidth
    }
}
