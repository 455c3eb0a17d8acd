// What an interval answers that is not refused, by value, and the reader after it: it decides nothing, it closes a frame, or it
// is at fault.
#![tactic(auto)]

ghost use Rattle.std.specs.Prelude.{◌≡◌};
ghost use Rattle.live_answer.specs.Answered.{still_open, closed_frame, fault_heard};

use frame::{Fault, Lengths, MOST_BYTES, Response};
use frame_machine::Machine;
use live_held::{Live, begins_anew, goes_on};
use units::LongPlace;

// What an interval answers that is not refused: nothing yet, the frame that it closes, or the fault that it is at.
#[derive(Clone, Copy)]
pub enum Heard {
    Nothing,
    Frame {
        lengths: Lengths,
        response: Response,
        opening: LongPlace,
        next: LongPlace,
    },
    Faulty {
        fault: Fault,
        next: LongPlace,
    },
}

// Why an interval is refused: it stands past the last place, or too few bytes are lent for it.
#[derive(Clone, Copy, Debug, PartialEq, Eq)]
pub enum HearRefusal {
    PastPlaces,
    FewLentBytes,
}

// The reader after an interval, and what the interval answers. A refusal leaves the reader as it was.
#[derive(Clone, Copy)]
pub struct Fed {
    pub heard: Result<Heard, HearRefusal>,
    pub live: Live,
}

// The interval decides nothing yet.
pub fn going(live: Live, machine: Machine, kept: [u8; MOST_BYTES]) -> Fed
    ensures { result ≡ still_open live machine kept }
{
    Fed {
        heard: Ok(Heard::Nothing),
        live: goes_on(live, machine, kept),
    }
}

// The frame that the interval closes: its parts, where it opens, and its closing end, from which reading goes on.
pub fn closed(live: Live, machine: Machine, end: bool) -> Fed
    ensures { result ≡ closed_frame live machine end }
{
    let closing = live.places.next;
    let parts = frame_parts::parts_of(machine);
    Fed {
        heard: Ok(Heard::Frame {
            lengths: parts.lengths,
            response: parts.response,
            opening: LongPlace(live.places.opening),
            next: LongPlace(closing),
        }),
        live: begins_anew(live, closing, end),
    }
}

// The interval is at fault, and reading goes on from it.
pub fn at_fault(live: Live, fault: Fault, end: bool) -> Fed
    ensures { result ≡ fault_heard live fault end }
{
    let here = live.places.next;
    Fed {
        heard: Ok(Heard::Faulty {
            fault,
            next: LongPlace(here),
        }),
        live: begins_anew(live, here, end),
    }
}
