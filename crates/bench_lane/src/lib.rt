// One place of a round at one bit: what it asks of the line, what it adds to what others ask, and where it loses. The room
// above keeps the places and goes over them.
#![tactic(auto)]

ghost use Rattle.std.specs.Prelude.{◌≡◌};
ghost use Rattle.bench_lane.specs.Lane.{bit_of, ask_of, outlasts_of, taken_in, lost_by};

use symbol::Clock;

// The bits of a byte.
pub const BITS_OF_BYTE: usize = 8;

// A place of a round: how many bits it has to send, 0 where it is empty; its clock; and the bit at which it lost, counted
// from 1 after the SOF. The bytes that it sends are kept beside it.
#[derive(Clone, Copy)]
pub struct Lane {
    pub count: usize,
    pub clock: Clock,
    pub lost: Option<usize>,
}

// What a place asks of the line at a bit: nothing, because it is out of the round or was never in it; nothing, because
// it has sent its check byte; or a bit, a 1 or not, of a width.
#[derive(Clone, Copy)]
pub enum Ask {
    Out,
    Ended,
    Bit(bool, u32),
}

// What a place asks of the line at bit j, from 0 on, with the byte in which bit j lies. Most places are out of most rounds
// soon, so that is looked at first.
#[tactic(auto, unfolding(crate::specs::Lane::ask_of))]
pub fn asks(lane: &Lane, byte: u8, active: bool, j: usize) -> Ask
    ensures { result ≡ ask_of lane.now byte active j }
{
    if lane.lost.is_some() || lane.count == 0 {
        return Ask::Out;
    }
    if lane.count <= j {
        return Ask::Ended;
    }
    let one = bit_of(byte, j);
    Ask::Bit(one, symbol::bit_width(lane.clock, active, one).0)
}

// The bit of a byte in which bit j of the bytes that are sent lies, the high bit first.
#[tactic(auto, unfolding(crate::specs::Lane::bit_of))]
fn bit_of(byte: u8, j: usize) -> bool
    ensures { result ≡ bit_of byte j }
{
    (byte >> (BITS_OF_BYTE - 1 - j % BITS_OF_BYTE)) % 2 == 1
}

// What one place asks, taken in with what the places before it ask: of two passive bits the shorter, of two active ones
// the longer. Nobody asks at first.
pub fn taken_in(asked: Option<u32>, ask: Ask, active: bool) -> Option<u32>
    ensures { result ≡ taken_in active asked ask }
{
    match ask {
        Ask::Out | Ask::Ended => asked,
        Ask::Bit(_, width) => Some(outlasts(asked, width, active)),
    }
}

// The width that stands on the line of one that is asked for and those that were asked for before.
fn outlasts(asked: Option<u32>, width: u32, active: bool) -> u32
    ensures { result ≡ outlasts_of asked width active }
{
    match asked {
        None => width,
        Some(other) if active => width.max(other),
        Some(other) => width.min(other),
    }
}

// A place hears bit k, a 1 or not, at which it asked this: it loses there if its own bit was another, or if it had sent its
// check byte already.
pub fn hear(lane: &mut Lane, ask: Ask, k: usize, one: bool)
    ensures { lane.new ≡ record lane.old { lost = lost_by k one ask lane.old.lost } }
{
    match ask {
        Ask::Out => {}
        Ask::Ended => lane.lost = Some(k),
        Ask::Bit(own, _) => {
            if own != one {
                lane.lost = Some(k);
            }
        }
    }
}
