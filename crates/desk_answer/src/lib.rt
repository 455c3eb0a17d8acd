// What the lines of the text take from an answer, by value: where reading goes on after it, the mark of its response and the
// hex digits of its bytes. And whether what a caller lends is too little.
#![tactic(auto)]

ghost use Rattle.std.specs.Prelude.{◌≡◌, ◌/◌, ◌%◌, ◌<◌};
ghost use Rattle.desk_text.specs.Promise.{lent_short};
ghost use Rattle.desk_text.specs.Numerals.{hex_digit};
ghost use Rattle.desk_answer.specs.Shown.{after_of, is_without, mark_of};

use desk_text::{MOST_TEXT, MOST_WIDTHS};
use frame::{ReadRefusal, Reading, Response};

// Where reading goes on after an answer: after a frame and after a fault, and nowhere after any other.
pub fn after(answer: Result<Reading, ReadRefusal>) -> Option<usize>
    ensures { result ≡ after_of answer }
{
    match answer {
        Ok(Reading::Frame { next, .. } | Reading::Faulty { next, .. }) => Some(next.0),
        Ok(Reading::Quiet { .. } | Reading::Unfinished { .. }) | Err(_) => None,
    }
}

// Whether a frame has no response.
pub fn without(kind: Response) -> bool
    ensures { result ≡ is_without kind }
{
    matches!(kind, Response::Without)
}

// What the last field of a frame's line begins with: the mark of its response, or the whole of it where there is none.
pub fn mark(kind: Response) -> [u8; 2]
    ensures { result ≡ mark_of kind }
{
    match kind {
        Response::Without => [b'-', b'\n'],
        Response::Plain => [b'p', b':'],
        Response::Checked => [b'c', b':'],
    }
}

// The digit of a number below 16.
fn hex_digit(d: u8) -> u8
    requires { d < 16 }
    ensures { result ≡ hex_digit d }
{
    if d < 10 { b'0' + d } else { b'A' - 10 + d }
}

// A byte's first hex digit. It and the second stay two public calls.
pub fn high(b: u8) -> u8
    ensures { result ≡ hex_digit (b / 16) }
{
    hex_digit(b / 16)
}

// And its second.
pub fn low(b: u8) -> u8
    ensures { result ≡ hex_digit (b % 16) }
{
    hex_digit(b % 16)
}

// Whether so many words and bytes are too few for some input.
pub fn too_little(words: usize, bytes: usize) -> bool
    ensures { result ≡ (lent_short words bytes).says }
{
    words < MOST_WIDTHS || bytes < MOST_TEXT
}
