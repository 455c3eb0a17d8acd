// The numbers that answers are told by. Document 01 has one for each fault, for what is no fault, and for each refusal; and
// since enums do not cross to other languages, each symbol and each kind of response has one too.
#![tactic(auto)]

ghost use Rattle.std.specs.Prelude.{◌≡◌};
ghost use Rattle.frame.specs.ReadPromise.{fault_number};
ghost use Rattle.frame_numbers.specs.Numbers.{symbol_number, kind_number, kind_of};

use frame::{Fault, Response};
use symbol::Symbol;

// Document 01's numbers: for a call that was done, for what reading answers besides faults, and for the refusals of reading
// and writing.
pub const DONE: u32 = 0;

pub const QUIET: u32 = 1;

pub const UNFINISHED: u32 = 2;

pub const PAST_RECORDING: u32 = 31;

pub const FEW_LENT: u32 = 32;

pub const BAD_CLOCK: u32 = 36;

pub const BAD_MESSAGE: u32 = 37;

// The numbers of the kinds of response.
pub const WITHOUT: u32 = 0;

const PLAIN: u32 = 1;

pub const CHECKED: u32 = 2;

// The number of a symbol. Numbers are for C alone, so the match stands here, and the enum names none; so it is below.
pub fn symbol_number(symbol: Symbol) -> u32
    ensures { result ≡ symbol_number symbol }
{
    match symbol {
        Symbol::Noise => 0,
        Symbol::Bit0 => 1,
        Symbol::Bit1 => 2,
        Symbol::Eod => 3,
        Symbol::Sof => 4,
        Symbol::Eof => 5,
        Symbol::Ifs => 6,
        Symbol::Break => 7,
        Symbol::Stuck => 8,
    }
}

// The kind of response that a number of at most 2 asks for.
pub fn kind_of(kind: u32) -> Response
    ensures { result ≡ kind_of kind }
{
    match kind {
        WITHOUT => Response::Without,
        PLAIN => Response::Plain,
        _ => Response::Checked,
    }
}

// The number of a kind of response.
pub fn kind_number(kind: Response) -> u32
    ensures { result ≡ kind_number kind }
{
    match kind {
        Response::Without => WITHOUT,
        Response::Plain => PLAIN,
        Response::Checked => CHECKED,
    }
}

// Document 01's number of a fault.
pub fn fault_number(fault: Fault) -> u32
    ensures { result ≡ fault_number fault }
{
    match fault {
        Fault::Noise => 11,
        Fault::NoSof => 12,
        Fault::Break => 13,
        Fault::Stuck => 14,
        Fault::LateSof => 15,
        Fault::SplitByte => 16,
        Fault::FewBytes => 17,
        Fault::WrongCheck => 18,
        Fault::EodAfterResponse => 19,
        Fault::ThirteenthByte => 20,
    }
}
