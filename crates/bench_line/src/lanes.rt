// All senders of a round at one bit: what they ask of the line together, and what each of them hears.
ghost use Rattle.std.specs.Prelude.{◌+◌, ◌<◌, ◌≡◌, map, not};
ghost use Rattle.bench.specs.Course.{asked, heard, most_bits, on_line};
ghost use Rattle.bench_line.specs.Lanes.{asked_by, seats_at};

use crate::sender::Sender;
use symbol::Symbol;
use units::Micros;

// What all places ask of the line at bit j, from 0 on.
pub(crate) fn all_ask(senders: &[Sender], active: bool, j: usize) -> Option<u32>
    ensures { result ≡ asked_by active (asked (seats_at active j senders.now)) }
{
    let mut asked = None;
    for sender in senders {
        asked = bench_lane::taken_in(asked, sender.asks(active, j), active);
    }
    asked
}

// Every place hears bit j. Answers what all of them ask at the bit after it, so that a bit costs one walk over the places.
pub(crate) fn hear(senders: &mut [Sender], active: bool, j: usize, one: bool) -> Option<u32>
    requires { j < most_bits }
    ensures hears { seats_at (not active) (j + 1) senders.new ≡ map (heard (j + 1) one) (seats_at active j senders.old) }
    ensures asks { result ≡ asked_by (not active) (asked (seats_at (not active) (j + 1) senders.new)) }
{
    let mut asked = None;
    for sender in senders.iter_mut() {
        let ask = sender.asks(active, j);
        bench_lane::hear(&mut sender.lane, ask, j + 1, one);
        let next = sender.asks(!active, j + 1);
        asked = bench_lane::taken_in(asked, next, !active);
    }
    asked
}

// The bit on the line: the one that the table of symbols gives to its width, at its level.
#[tactic(auto, unfolding(bench::specs::Course::on_line))]
pub(crate) fn on_line(active: bool, width: u32) -> bool
    ensures { result ≡ on_line active width }
{
    matches!(symbol::class(active, Micros(width)), Symbol::Bit1)
}
