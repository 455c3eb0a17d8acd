// The parts of a frame that closes: what the answer for it says of them, and their bytes, wherever the frame was read from.
#![tactic(auto)]

ghost use Rattle.std.specs.Prelude.{◌≡◌};
ghost use Rattle.frame_parts.specs.Laying.{laid_of};
ghost use Rattle.frame_parts.specs.Parts.{alone, answered, parts_of};

use frame::{Lengths, MOST_BYTES, Response};
use frame_machine::{Machine, Phase};

// How many bytes each part has, its check byte included, and what response there is.
#[derive(Clone, Copy, Debug, PartialEq, Eq)]
pub struct Parts {
    pub lengths: Lengths,
    pub response: Response,
}

// A frame without a response.
fn main_alone(machine: Machine) -> Parts
    ensures { result ≡ alone machine }
{
    Parts {
        lengths: Lengths {
            main: machine.count,
            response: 0,
        },
        response: Response::Without,
    }
}

// A frame with a response, which begins where the machine's part does.
fn with_response(machine: Machine, response: Response) -> Parts
    ensures { result ≡ answered machine response }
{
    Parts {
        lengths: Lengths {
            main: machine.began,
            response: machine.count.saturating_sub(machine.began),
        },
        response,
    }
}

// The parts of the frame that closes where the machine stands.
pub fn parts_of(machine: Machine) -> Parts
    ensures { result ≡ parts_of machine }
{
    match machine.phase {
        Phase::Sof | Phase::Normalization | Phase::Main => main_alone(machine),
        Phase::Plain => with_response(machine, Response::Plain),
        Phase::Checked => with_response(machine, Response::Checked),
    }
}

// The bytes of the frame, which were kept aside, stand first in the lent bytes, whose rest stays. Where fewer are kept or
// lent than are counted nothing is laid; no frame that was read comes to that.
#[tactic(auto, using(crate::specs::Laying::laid_enough), unfolding(crate::specs::Laying::laid_of))]
pub fn lay(kept: [u8; MOST_BYTES], count: usize, lent: &mut [u8])
    ensures { lent.new ≡ laid_of count kept lent.old }
{
    if count <= MOST_BYTES && count <= lent.len() {
        lent[..count].copy_from_slice(&kept[..count]);
    }
}
