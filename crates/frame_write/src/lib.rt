// Writing: a message becomes the words of a frame.
#![tactic(auto)]

ghost use Rattle.std.specs.Prelude.{false, [], ◌∷◌, ◌++◌};
ghost use Rattle.frame.specs.Bits.{bits_of_byte};
ghost use Rattle.frame.specs.Writing.{bit_widths, byte_widths, response_widths, frame_words};
ghost use Rattle.frame.specs.WritePromise.{WritePromise};
ghost use Rattle.frame_write.specs.Laid.{Fits, Lays};

use frame::{Response, WriteRefusal};
use symbol::{Clock, END_SENT};

// Writes the frame of a message, at a clock, into lent words. The bytes are given without check bytes: they are added.
// The response's bytes count only where a response is asked for. A refusal changes nothing.
pub fn write(
    clock: Clock,
    main: &[u8],
    kind: Response,
    response: &[u8],
    lent: &mut [u32],
) -> Result<usize, WriteRefusal>
    ensures { WritePromise clock main.now kind response.now lent.old lent.new result }
{
    if !symbol::good_clock(clock) {
        return Err(WriteRefusal::BadClock);
    }
    if frame_words::bad_message(main, kind, response) {
        return Err(WriteRefusal::BadMessage);
    }
    if frame_words::few_words(lent.len()) {
        return Err(WriteRefusal::FewLentWords);
    }
    Ok(put_frame(clock, main, kind, response, lent))
}

// Each of these lays words at the front of what it is lent, leaves the rest as it was, and answers how many they are.

// The whole frame: the opening, the SOF, the main part with its check byte, the response, the closing end.
#[tactic(auto, using(crate::proofs::Words::head_space))]
fn put_frame(clock: Clock, main: &[u8], kind: Response, response: &[u8], lent: &mut [u32]) -> usize
    requires { Fits (frame_words clock main.now kind response.now) lent.old }
    ensures { Lays (frame_words clock main.now kind response.now) lent.old lent.new result }
{
    lent[..2].copy_from_slice(&[END_SENT, clock.sof.0]);
    let eod = 2 + put_checked(clock, main, checkbyte::check_byte(main), &mut lent[2..]);
    let closing = eod + put_response(clock, kind, response, &mut lent[eod..]);
    lent[closing] = END_SENT;
    closing + 1
}

// The response, from the EOD on, or nothing where none is asked for.
#[tactic(auto, unfolding(checkbyte::specs::Register::check_of))]
fn put_response(clock: Clock, kind: Response, response: &[u8], lent: &mut [u32]) -> usize
    requires { Fits (response_widths clock kind response.now) lent.old }
    ensures { Lays (response_widths clock kind response.now) lent.old lent.new result }
{
    match kind {
        Response::Without => 0,
        Response::Plain => {
            lent[..2].copy_from_slice(&frame_words::before(clock, true));
            2 + put_bytes(clock, response, &mut lent[2..])
        }
        Response::Checked => {
            lent[..2].copy_from_slice(&frame_words::before(clock, false));
            2 + put_checked(
                clock,
                response,
                checkbyte::check_byte(response),
                &mut lent[2..],
            )
        }
    }
}

// Bytes, and their check byte after them.
#[tactic(auto, using(crate::proofs::Words::bytes_space, crate::proofs::Words::check_space))]
fn put_checked(clock: Clock, bytes: &[u8], check: u8, lent: &mut [u32]) -> usize
    requires { Fits (byte_widths clock (bytes.now ++ check ∷ [])) lent.old }
    ensures { Lays (byte_widths clock (bytes.now ++ check ∷ [])) lent.old lent.new result }
{
    let last = put_bytes(clock, bytes, lent);
    last + put_byte(clock, check, &mut lent[last..])
}

// Bytes, one after the other.
fn put_bytes(clock: Clock, bytes: &[u8], lent: &mut [u32]) -> usize
    requires { Fits (byte_widths clock bytes.now) lent.old }
    ensures { Lays (byte_widths clock bytes.now) lent.old lent.new result }
{
    let mut next = 0;
    for b in bytes {
        next += put_byte(clock, *b, &mut lent[next..]);
    }
    next
}

// The eight words of a byte.
#[tactic(auto, using(crate::proofs::Words::eight_fit))]
fn put_byte(clock: Clock, b: u8, lent: &mut [u32]) -> usize
    requires { Fits (bit_widths clock false (bits_of_byte b)) lent.old }
    ensures { Lays (bit_widths clock false (bits_of_byte b)) lent.old lent.new result }
{
    lent[..8].copy_from_slice(&frame_words::byte_words(clock, b));
    8
}
