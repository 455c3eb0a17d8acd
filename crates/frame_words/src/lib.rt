// What a frame is written with, by value: whether a message is turned away, the words of a byte, and the words before a
// response.
#![tactic(auto)]

ghost use Rattle.std.specs.Prelude.{◌≡◌, ◌+◌, ◌≤◌, true, false, [], ◌∷◌, length, ltb};
ghost use Rattle.symbol.specs.Sending.{bit_width};
ghost use Rattle.frame.specs.Bits.{bits_of_byte};
ghost use Rattle.frame.specs.Writing.{bit_widths, response_sent, empty_response, bad_message, most_words};

use frame::{MOST_BYTES, MOST_WORDS, Response};
use symbol::Clock;

// Whether the message is empty, or a response that is asked for is, or their bytes with checks are too many.
#[tactic(auto, using(frame::proofs::WidthLaws::bad_empty, frame::proofs::WidthLaws::bad_response, frame::proofs::WidthLaws::bad_length))]
pub fn bad_message(main: &[u8], kind: Response, response: &[u8]) -> bool
    ensures { result ≡ bad_message main.now kind response.now }
{
    main.is_empty()
        || empty_response(kind, response)
        || main.len() + bytes_sent(kind, response) >= MOST_BYTES
}

// Whether a response is asked for and has no bytes.
fn empty_response(kind: Response, response: &[u8]) -> bool
    ensures { result ≡ empty_response kind response.now }
{
    !matches!(kind, Response::Without) && response.is_empty()
}

// How many bytes of a response go out, its check byte with them.
fn bytes_sent(kind: Response, response: &[u8]) -> usize
    ensures value { result ≡ length (response_sent kind response.now) }
    ensures most { result ≤ length response.now + 1 }
{
    match kind {
        Response::Without => 0,
        Response::Plain => response.len(),
        Response::Checked => response.len() + 1,
    }
}

// Whether so many lent words are too few for some frame.
pub fn few_words(lent: usize) -> bool
    ensures { result ≡ ltb lent most_words }
{
    lent < MOST_WORDS
}

// The words of a byte's eight bits, the high bit first: passive and active in turn.
#[tactic(auto, using(crate::proofs::Bits::eight_laid))]
pub fn byte_words(clock: Clock, b: u8) -> [u32; 8]
    ensures { result ≡ bit_widths clock false (bits_of_byte b) }
{
    let mut words = [0; 8];
    for (i, word) in words.iter_mut().enumerate() {
        *word = symbol::bit_width(clock, i % 2 == 1, (b >> (7 - i)) % 2 == 1).0;
    }
    words
}

// The words before a response: the EOD, and the normalization bit, a short one, which is a 1, for a response without a check
// byte.
pub fn before(clock: Clock, plain: bool) -> [u32; 2]
    ensures { result ≡ clock.sof.0 ∷ (bit_width clock true plain).0 ∷ [] }
{
    [clock.sof.0, symbol::bit_width(clock, true, plain).0]
}
