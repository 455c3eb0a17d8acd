// What the frame machine asks of plain values: what a symbol shows inside a frame, whether a part has too few bytes, and whether
// its check byte is wrong.
#![tactic(auto)]

ghost use Rattle.std.specs.Prelude.{◌≡◌, ◌&&◌, not, ◌+◌, eqb, ltb};
ghost use Rattle.checkbyte.specs.Register.{residue};
ghost use Rattle.frame_tests.specs.Shown.{sign_for};

use frame::{Fault, Sign};
use symbol::Symbol;

// What a symbol shows inside a frame.
pub fn sign_of(symbol: Symbol) -> Sign
    ensures { result ≡ sign_for symbol }
{
    match symbol {
        Symbol::Noise => Sign::Wrong(Fault::Noise),
        Symbol::Bit0 => Sign::Bit(false),
        Symbol::Bit1 => Sign::Bit(true),
        Symbol::Eod => Sign::Shut(true),
        Symbol::Sof => Sign::Sof,
        Symbol::Eof | Symbol::Ifs => Sign::Shut(false),
        Symbol::Break => Sign::Wrong(Fault::Break),
        Symbol::Stuck => Sign::Wrong(Fault::Stuck),
    }
}

// Whether the check byte of a part that has one is wrong, by what the register has come to over the part.
pub fn wrong_check(checked: bool, register: u8) -> bool
    ensures { result ≡ (checked && not (eqb register residue)) }
{
    checked && register != checkbyte::RESIDUE
}

// Whether a part has fewer bytes than are asked of it.
pub fn too_few(count: usize, began: usize, fewest: usize) -> bool
    ensures { result ≡ ltb count (began + fewest) }
{
    count < fewest || count - fewest < began // a sum of the two might not fit
}
