// The EOD or the end after a part: whether the part may be closed there, and what follows.
ghost use Rattle.std.specs.Prelude.{◌≡◌};
ghost use Rattle.frame_machine.specs.Steps.{closing, needing, needed_of, eod_of, close_of};

use crate::{Event, Machine, NO_BITS, Phase, Stepped, begin, fail};
use frame::Fault;

// What is asked of a part at its EOD or end: how many bytes at least, and whether the last of them is a check byte.
#[derive(Clone, Copy)]
struct Needed {
    fewest: usize,
    checked: bool,
}

// The fewest bytes of each part, its check byte included.
const FEWEST_MAIN: usize = 2;

const FEWEST_PLAIN: usize = 1;

const FEWEST_CHECKED: usize = 2;

// The interval is the end that closes the frame.
fn close(machine: Machine) -> Stepped
    ensures { result ≡ closing machine }
{
    Stepped {
        event: Event::Closed,
        machine,
    }
}

// What is asked of a part: a short name, so that each part below stands on one line.
fn need(fewest: usize, checked: bool) -> Needed
    ensures { result ≡ needing fewest checked }
{
    Needed { fewest, checked }
}

// What is asked of the part that closes. The places of the SOF and of the normalization bit are active, where no EOD or
// end can stand: nothing is asked there, here and below.
fn needed_of(phase: Phase) -> Needed
    ensures { result ≡ needed_of phase }
{
    match phase {
        Phase::Sof | Phase::Normalization => need(0, false),
        Phase::Main => need(FEWEST_MAIN, true),
        Phase::Plain => need(FEWEST_PLAIN, false),
        Phase::Checked => need(FEWEST_CHECKED, true),
    }
}

// What follows an EOD that is not at fault itself: a response after the main part, and nothing after a response.
fn after_eod(machine: Machine) -> Stepped
    ensures { result ≡ eod_of machine }
{
    match machine.phase {
        Phase::Sof => begin(machine, Phase::Main),
        Phase::Normalization | Phase::Main => begin(machine, Phase::Normalization),
        Phase::Plain | Phase::Checked => fail(machine, Fault::EodAfterResponse),
    }
}

// An EOD or an end closes a part: it has no open byte, enough bytes, and the right check byte.
#[tactic(auto, unfolding(crate::specs::Steps::close_of))]
pub fn close_part(machine: Machine, eod: bool) -> Stepped
    ensures { result ≡ close_of machine eod }
{
    let needed = needed_of(machine.phase);
    if machine.partial != NO_BITS {
        return fail(machine, Fault::SplitByte);
    }
    if frame_tests::too_few(machine.count, machine.began, needed.fewest) {
        return fail(machine, Fault::FewBytes);
    }
    if frame_tests::wrong_check(needed.checked, machine.register) {
        return fail(machine, Fault::WrongCheck);
    }
    if eod {
        after_eod(machine)
    } else {
        close(machine)
    }
}
