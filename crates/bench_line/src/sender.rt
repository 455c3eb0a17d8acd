// A place of a round with the bytes that it sends.
ghost use Rattle.std.specs.Prelude.{◌≤◌, ◌*◌, length};

use bench::MOST_SENT;
use bench_lane::{Ask, BITS_OF_BYTE, Lane};

// A place of a round, and the bytes that its bits stand in, the check byte included.
#[derive(Clone, Copy)]
pub struct Sender {
    pub lane: Lane,
    pub frame: [u8; MOST_SENT],
    // It sends no bit that its bytes do not hold.
    pub ghost held: { lane.count ≤ 8 * length frame },
}

impl Sender {
    ghost use Rattle.std.specs.Prelude.{◌≡◌};
    ghost use Rattle.bench_line.specs.Lanes.{ask_at};

    // What it asks of the line at bit j, from 0 on.
    #[tactic(auto, unfolding(crate::specs::Lanes::ask_at, bench_lane::specs::Lane::ask_of))]
    pub fn asks(&self, active: bool, j: usize) -> Ask
        ensures { result ≡ ask_at active j self.now }
    {
        // most places are out of most rounds soon, or were never in them: of those no byte is read
        if self.lane.lost.is_some() || self.lane.count == 0 {
            return Ask::Out;
        }
        // past the last byte no bit is sent, and what stands for it does not matter
        let byte = self.frame.get(j / BITS_OF_BYTE).copied().unwrap_or(0);
        bench_lane::asks(&self.lane, byte, active, j)
    }
}
