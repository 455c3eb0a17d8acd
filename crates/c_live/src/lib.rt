// The open calls on a lent live reader for C, Rust and Python. The reader is handed on as it is lent, and changed in place.
// They are compiled apart from the other calls, so that the frame machine is laid out once in the loop that reads a whole
// recording and once here.
#![tactic(auto)]

ghost use Rattle.std.specs.Prelude.{◌≡◌, length};
ghost use Rattle.live.specs.Feeding.{started, fed_of, lent_of, asked_of};
ghost use Rattle.c_live_answers.specs.Answers.{heard_as, asked_as};

use c_live_answers::{AskedAnswer, HeardAnswer};
use live_held::Live;
use units::Micros;

// A live reader that has heard nothing.
#[unsafe(no_mangle)]
pub extern "C" fn j1850_live_start() -> Live
    ensures { result ≡ started }
{
    live::start()
}

// One interval more. The bytes of a frame that it closes go into lent bytes, at least 12.
#[unsafe(no_mangle)]
pub extern "C" fn j1850_hear(live: &mut Live, width: u32, bytes: &mut [u8]) -> HeardAnswer
    ensures { (result ≡ heard_as (fed_of live.old width (length bytes.old)).heard)
        × (live.new ≡ (fed_of live.old width (length bytes.old)).live)
        × (bytes.new ≡ lent_of live.old width bytes.old) }
{
    live_lent::hear(live, Micros(width), bytes).into()
}

// Whether a frame has begun and is unfinished, at the moment of asking.
#[unsafe(no_mangle)]
pub extern "C" fn j1850_ask(live: &Live) -> AskedAnswer
    ensures { result ≡ asked_as (asked_of live.now) }
{
    live_lent::ask(live).into()
}
