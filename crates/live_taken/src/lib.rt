// One interval that is not refused: it stands before a frame or in one.
#![tactic(auto)]

ghost use Rattle.std.specs.Prelude.{◌≡◌};
ghost use Rattle.frame.specs.Line.{active_at};
ghost use Rattle.live_taken.specs.Taken.{laid_by, waiting, fed_by, step_at, ends_at};

use frame::MOST_BYTES;
use frame_machine::Event;
use live_answer::{Fed, Heard, at_fault, closed, going};
use live_held::{Live, begins_anew, held_by};
use units::Micros;

// The level at a place: active at the odd ones.
fn active_at(place: u64) -> bool
    ensures { result ≡ active_at place }
{
    place % 2 == 1
}

// An interval in no frame: an end is the opening, and anything else is passed over.
pub fn outside_frame(live: Live, width: Micros) -> Fed
    ensures { result ≡ waiting live width.0 }
{
    let places = live.places;
    let end = symbol::is_end(active_at(places.next), width);
    Fed {
        heard: Ok(Heard::Nothing),
        live: begins_anew(live, places.from, end),
    }
}

// An interval in a frame: one step of the frame machine. Until the frame is closed its bytes stay in the reader, which has
// space for each that the machine tells of.
pub fn inside_frame(live: Live, width: Micros, lent: &mut [u8]) -> Fed
    ensures value { result ≡ fed_by (step_at live width.0).event live (step_at live width.0).machine (ends_at live width.0) }
    ensures lent_after { lent.new ≡ laid_by (step_at live width.0).event live.inside lent.old }
{
    let active = active_at(live.places.next);
    let end = symbol::is_end(active, width);
    let held = held_by(live.inside);
    let sign = frame_tests::sign_of(symbol::class(active, width));
    let stepped = frame_machine::step(MOST_BYTES, held, sign);
    match stepped.event {
        Event::Going => going(live, stepped.machine, live.inside.kept),
        Event::Byte(byte) => {
            let mut kept = live.inside.kept;
            kept[held.count] = byte;
            going(live, stepped.machine, kept)
        }
        Event::Closed => {
            frame_parts::lay(live.inside.kept, held.count, lent);
            closed(live, held, end)
        }
        Event::Faulty(fault) => at_fault(live, fault, end),
    }
}
