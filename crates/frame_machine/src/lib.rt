// The frame machine. It is told what the intervals after an opening show, one after the other, and says of each whether the
// frame goes on, has one byte more, is closed, or is at fault. It sees no widths and keeps no bytes: whoever drives it does.
// How many bytes a frame may have it is told as well.
#![tactic(auto)]

mod shut;

ghost use Rattle.std.specs.Prelude.{◌≡◌};
ghost use Rattle.frame_machine.specs.Steps.{faulty, begun, push_of, response_begun, bit_of, sof_of, step_of, fresh};

use frame::{Fault, Sign};
use shut::close_part;

// Where the next interval stands in the frame: at the place of the SOF or of the normalization bit, in the main part, or
// in a response without or with a check byte.
#[derive(Clone, Copy, Debug, PartialEq, Eq)]
pub enum Phase {
    Sof,
    Normalization,
    Main,
    Plain,
    Checked,
}

// What is known of a frame between two intervals: the bits of a byte that is not whole yet, after a leading 1; the check
// register over this part; and how many bytes both parts have so far, and how many of them stand before this part.
#[derive(Clone, Copy, Debug, PartialEq, Eq)]
pub struct Machine {
    pub phase: Phase,
    pub partial: u8,
    pub register: u8,
    pub count: usize,
    pub began: usize,
}

// What an interval does to a frame.
#[derive(Clone, Copy, Debug, PartialEq, Eq)]
pub enum Event {
    Going,
    Byte(u8),
    Closed,
    Faulty(Fault),
}

// What an interval does, and what is known of the frame after it. The event stands first, and `push`, `bit`, `sof` and
// `close_part` are each called from one place: so the compiler keeps all of it in registers, and reading is half as long as
// it is otherwise.
#[derive(Clone, Copy, Debug, PartialEq, Eq)]
pub struct Stepped {
    pub event: Event,
    pub machine: Machine,
}

// A partial byte that has no bit yet, and what a whole byte's leading 1 counts.
const NO_BITS: u8 = 1;

const WHOLE: usize = 256;

// Before the SOF.
pub fn start() -> Machine
    ensures { result ≡ fresh }
{
    Machine {
        phase: Phase::Sof,
        partial: NO_BITS,
        register: checkbyte::ALL_ONES,
        count: 0,
        began: 0,
    }
}

// The interval is at fault.
fn fail(machine: Machine, fault: Fault) -> Stepped
    ensures { result ≡ faulty machine fault }
{
    Stepped {
        event: Event::Faulty(fault),
        machine,
    }
}

// The next part begins after the interval, with a register of its own.
fn begin(machine: Machine, phase: Phase) -> Stepped
    ensures { result ≡ begun machine phase }
{
    Stepped {
        event: Event::Going,
        machine: Machine {
            phase,
            partial: NO_BITS,
            register: checkbyte::ALL_ONES,
            began: machine.count,
            ..machine
        },
    }
}

// A bit of a byte, in either part: the first of a byte too many, one that leaves the byte open, or its last.
#[tactic(auto, unfolding(crate::specs::Steps::push_of))]
fn push(limit: usize, machine: Machine, one: bool) -> Stepped
    ensures { result ≡ push_of limit machine one }
{
    if limit <= machine.count {
        return fail(machine, Fault::ThirteenthByte);
    }
    let bits = usize::from(machine.partial) * 2 + usize::from(one);
    if bits < WHOLE {
        return Stepped {
            event: Event::Going,
            machine: Machine {
                partial: bits as u8,
                ..machine
            },
        };
    }
    let byte = (bits - WHOLE) as u8;
    Stepped {
        event: Event::Byte(byte),
        machine: Machine {
            partial: NO_BITS,
            register: checkbyte::step(machine.register, byte),
            count: machine.count + 1,
            ..machine
        },
    }
}

// The normalization bit says what response follows: a short one, a 1, one without a check byte.
fn begin_response(machine: Machine, one: bool) -> Stepped
    ensures { result ≡ response_begun machine one }
{
    begin(machine, if one { Phase::Plain } else { Phase::Checked })
}

// A bit's width: a bit of a byte, no SOF where one should be, or the normalization bit, which belongs to no byte.
#[tactic(auto, unfolding(crate::specs::Steps::bit_of))]
fn bit(limit: usize, machine: Machine, one: bool) -> Stepped
    ensures { result ≡ bit_of limit machine one }
{
    match machine.phase {
        Phase::Main | Phase::Plain | Phase::Checked => push(limit, machine, one),
        Phase::Sof => fail(machine, Fault::NoSof),
        Phase::Normalization => begin_response(machine, one),
    }
}

// The SOF's width: the SOF, or a fault anywhere after it.
#[tactic(auto, unfolding(crate::specs::Steps::sof_of))]
fn sof(machine: Machine) -> Stepped
    ensures { result ≡ sof_of machine }
{
    if machine.phase == Phase::Sof {
        begin(machine, Phase::Main)
    } else {
        fail(machine, Fault::LateSof)
    }
}

// One interval more, in a frame of at most `limit` bytes.
pub fn step(limit: usize, machine: Machine, sign: Sign) -> Stepped
    ensures { result ≡ step_of limit machine sign }
{
    match sign {
        Sign::Bit(one) => bit(limit, machine, one),
        Sign::Shut(eod) => close_part(machine, eod),
        Sign::Sof => sof(machine),
        Sign::Wrong(fault) => fail(machine, fault),
    }
}
