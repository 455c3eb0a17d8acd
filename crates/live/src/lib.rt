// The live reader by value: one interval more, and what is asked of it between two intervals. What it answers is what
// reading the whole recording answers; proofs/Whole.antt says so of every reader that was started and heard intervals.
#![tactic(auto)]

ghost use Rattle.std.specs.Prelude.{◌≡◌, length};
ghost use Rattle.live.specs.Feeding.{started, refusal_of, taken_of, laid_of, fed_of, lent_of, asked_of};

use frame::MOST_BYTES;
use live_answer::{Fed, HearRefusal};
use live_held::{Inside, Live, NO_FRAME, Places, SOF_NEXT};
use live_taken::{inside_frame, outside_frame};
use units::{LongPlace, Micros};

// What there is at the moment of asking: no frame has begun, or one is unfinished.
#[derive(Clone, Copy)]
pub enum Asked {
    Quiet { next: LongPlace },
    Unfinished { opening: LongPlace },
}

// A reader that has heard nothing.
#[tactic(auto, unfolding(crate::specs::Feeding::started, live_held::specs::Held::outside))]
pub fn start() -> Live
    ensures { result ≡ started }
{
    Live {
        places: Places {
            next: 0,
            from: 0,
            opening: 0,
            full: 0,
        },
        inside: Inside {
            count: 0,
            began: 0,
            kept: [0; MOST_BYTES],
            phase: NO_FRAME,
            partial: 0,
            register: 0,
        },
    }
}

// Why an interval with so many bytes lent is refused, 51 before 32, if it is.
#[tactic(auto, unfolding(crate::specs::Feeding::refusal_of))]
pub fn refusal(live: Live, lent: usize) -> Result<(), HearRefusal>
    ensures { result ≡ refusal_of live lent }
{
    if live.places.full != 0 {
        return Err(HearRefusal::PastPlaces);
    }
    if lent < MOST_BYTES {
        return Err(HearRefusal::FewLentBytes);
    }
    Ok(())
}

// An interval that is not refused: it stands before a frame or in one.
#[tactic(auto, unfolding(crate::specs::Feeding::taken_of, crate::specs::Feeding::laid_of))]
pub fn taken(live: Live, width: Micros, lent: &mut [u8]) -> Fed
    ensures value { result ≡ taken_of live width.0 }
    ensures lent_after { lent.new ≡ laid_of live width.0 lent.old }
{
    if live.inside.phase == NO_FRAME {
        outside_frame(live, width)
    } else {
        inside_frame(live, width, lent)
    }
}

// One interval more. Both refusals leave the reader and the lent bytes as they are; otherwise the interval is taken.
pub fn hear(live: Live, width: Micros, lent: &mut [u8]) -> Fed
    ensures value { result ≡ fed_of live width.0 (length lent.old) }
    ensures lent_after { lent.new ≡ lent_of live width.0 lent.old }
{
    if let Err(why) = refusal(live, lent.len()) {
        return Fed {
            heard: Err(why),
            live,
        };
    }
    taken(live, width, lent)
}

// What there is between two intervals. An opening that no interval follows yet is no unfinished frame.
#[tactic(auto, unfolding(crate::specs::Feeding::asked_of))]
pub fn ask(live: Live) -> Asked
    ensures { result ≡ asked_of live }
{
    if live.inside.phase <= SOF_NEXT {
        return Asked::Quiet {
            next: LongPlace(live.places.from),
        };
    }
    Asked::Unfinished {
        opening: LongPlace(live.places.opening),
    }
}
