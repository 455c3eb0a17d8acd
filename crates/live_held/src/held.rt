// The frame machine in a live reader: what it holds is taken out of the reader's numbers before an interval, and put back
// after it. Whatever the numbers are, some machine is taken out, so that no caller has to vouch for a reader.
ghost use Rattle.std.specs.Prelude.{◌≡◌};
ghost use Rattle.live_held.specs.Held.{phase_number, inside_of, outside as outside_of};
ghost use Rattle.live_held.specs.Reader.{phase_by, held_by};

use crate::Inside;
use frame::MOST_BYTES;
use frame_machine::{Machine, Phase};

// The number of each phase in a reader; before an opening there is no frame and no phase. They come in the order of `Phase`, so
// that the compiler adds 1 to a phase, or takes 1 from a number, where it would look them up.
// A reader keeps numbers and no enum, since C lays it out and any bytes are one: `Live`.
pub const NO_FRAME: u16 = 0;

pub const SOF_NEXT: u16 = 1;

const NORMALIZATION_NEXT: u16 = 2;

const IN_MAIN: u16 = 3;

const IN_PLAIN: u16 = 4;

const IN_CHECKED: u16 = 5;

// The number of a phase.
fn phase_number(phase: Phase) -> u16
    ensures { result ≡ phase_number phase }
{
    match phase {
        Phase::Sof => SOF_NEXT,
        Phase::Normalization => NORMALIZATION_NEXT,
        Phase::Main => IN_MAIN,
        Phase::Plain => IN_PLAIN,
        Phase::Checked => IN_CHECKED,
    }
}

// The phase of a number. A number that stands for none is taken for the last.
fn phase_by(number: u16) -> Phase
    ensures { result ≡ phase_by number }
{
    match number {
        SOF_NEXT => Phase::Sof,
        NORMALIZATION_NEXT => Phase::Normalization,
        IN_MAIN => Phase::Main,
        IN_PLAIN => Phase::Plain,
        _ => Phase::Checked,
    }
}

// The machine that a reader holds. Its counts are bounded here, since they are places in the kept bytes.
#[tactic(auto, unfolding(crate::specs::Reader::held_by))]
pub fn held_by(inside: Inside) -> Machine
    ensures { result ≡ held_by inside }
{
    let count = inside.count.min(MOST_BYTES);
    Machine {
        phase: phase_by(inside.phase),
        partial: inside.partial,
        register: inside.register,
        count,
        began: inside.began.min(count),
    }
}

// A frame that is being heard: what the machine holds, and the bytes so far.
#[tactic(auto, unfolding(crate::specs::Held::inside_of))]
pub(crate) fn inside_of(machine: Machine, kept: [u8; MOST_BYTES]) -> Inside
    ensures { result ≡ inside_of machine kept }
{
    Inside {
        count: machine.count,
        began: machine.began,
        kept,
        phase: phase_number(machine.phase),
        partial: machine.partial,
        register: machine.register,
    }
}

// No frame. The kept bytes stay where they are, since the next frame's overwrite them.
#[tactic(auto, unfolding(crate::specs::Held::outside))]
pub(crate) fn outside(kept: [u8; MOST_BYTES]) -> Inside
    ensures { result ≡ outside_of kept }
{
    Inside {
        count: 0,
        began: 0,
        kept,
        phase: NO_FRAME,
        partial: 0,
        register: 0,
    }
}
