// A live reader and what it holds: its places, and the frame machine in it; and where it stands after an interval.
#![tactic(auto)]

mod held;

ghost use Rattle.std.specs.Prelude.{◌≡◌};
ghost use Rattle.live_held.specs.Held.{after as after_of};
ghost use Rattle.live_held.specs.Reader.{begins_anew, goes_on};

use frame::MOST_BYTES;
use frame_machine::Machine;
pub use held::{NO_FRAME, SOF_NEXT, held_by};
use held::{inside_of, outside};

// The places of a live reader: the place of the next interval, the position from which reading goes on, and the opening of
// the frame that is being heard. `full` is not 0 once the last place has been heard: no bool, since any bytes are a reader.
#[repr(C)]
#[derive(Clone, Copy, Debug, PartialEq, Eq)]
pub struct Places {
    pub next: u64,
    pub from: u64,
    pub opening: u64,
    pub full: u64,
}

// The frame that is being heard: what the frame machine holds of it, and its bytes so far. Phase 0 is no frame: no end has
// been heard since the position from which reading goes on.
#[repr(C)]
#[derive(Clone, Copy, Debug, PartialEq, Eq)]
pub struct Inside {
    pub count: usize,
    pub began: usize,
    pub kept: [u8; MOST_BYTES],
    pub phase: u16,
    pub partial: u8,
    pub register: u8,
}

// A live reader, which its owner lends to each call. All of it is plain numbers, laid out as C has it and without padding:
// whatever bytes it holds it is a reader, and one of zeros has heard nothing.
#[repr(C)]
#[derive(Clone, Copy, Debug, PartialEq, Eq)]
pub struct Live {
    pub places: Places,
    pub inside: Inside,
}

// The last place that 64 bits count, and what says that it has been heard.
const LAST_PLACE: u64 = u64::MAX;

const FULL: u64 = 1;

// The places after an interval. After the last place there is none to count on to.
#[tactic(auto, unfolding(crate::specs::Held::after))]
fn after(places: Places, from: u64, opening: u64) -> Places
    ensures { result ≡ after_of places from opening }
{
    if places.next == LAST_PLACE {
        return Places {
            from,
            opening,
            full: FULL,
            ..places
        };
    }
    Places {
        next: places.next + 1,
        from,
        opening,
        full: 0,
    }
}

// After an interval that stands in no frame, or that ends one: an end opens the next frame.
pub fn begins_anew(live: Live, from: u64, end: bool) -> Live
    ensures { result ≡ begins_anew live from end }
{
    let places = live.places;
    let kept = live.inside.kept;
    if end {
        return Live {
            places: after(places, from, places.next),
            inside: inside_of(frame_machine::start(), kept),
        };
    }
    Live {
        places: after(places, from, places.opening),
        inside: outside(kept),
    }
}

// After an interval that leaves its frame open.
#[tactic(auto, unfolding(crate::specs::Reader::goes_on))]
pub fn goes_on(live: Live, machine: Machine, kept: [u8; MOST_BYTES]) -> Live
    ensures { result ≡ goes_on live machine kept }
{
    let places = live.places;
    Live {
        places: after(places, places.from, places.opening),
        inside: inside_of(machine, kept),
    }
}
