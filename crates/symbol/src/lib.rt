// Symbols: what an interval of the line is, by its level and its width, and with what width a bit is sent.
// A level is a bool in every room: true is active, false is passive.
#![tactic(auto)]

ghost use Rattle.std.specs.Prelude.{◌≡◌, true, false};
ghost use Rattle.symbol.specs.Classes.{class_of, end_of};
ghost use Rattle.symbol.specs.Clocks.{within_of, good_of, nominal_clock};
ghost use Rattle.symbol.specs.Sending.{bit_width};

use units::Micros;

// The kinds of interval that document 01's table of widths tells apart.
#[derive(Clone, Copy, Debug, PartialEq, Eq)]
pub enum Symbol {
    Noise,
    Bit0,
    Bit1,
    Eod,
    Sof,
    Eof,
    Ifs,
    Break,
    Stuck,
}

// The widths that a controller sends with: its short bit, its long bit, and its SOF, which is its EOD too. Laid out
// as C has it, since other languages hand it over.
#[repr(C)]
#[derive(Clone, Copy, Debug, PartialEq, Eq)]
pub struct Clock {
    pub short: Micros,
    pub long: Micros,
    pub sof: Micros,
}

// The last width of each row of the table, and the first width at which an active line counts as stuck.
const NOISE_LAST: u32 = 34;

const SHORT_LAST: u32 = 96;

const LONG_LAST: u32 = 163;

const SOF_LAST: u32 = 239;

const EOF_LAST: u32 = 280;

const STUCK_FIRST: u32 = 1000000;

// The sending windows: the least and the most that a good clock sends for its short bit, its long bit and its SOF.
const SHORT_LEAST: u32 = 49;

const SHORT_MOST: u32 = 79;

const LONG_LEAST: u32 = 112;

const LONG_MOST: u32 = 145;

const SOF_LEAST: u32 = 182;

const SOF_MOST: u32 = 218;

// The width of an opening and a closing end, which is the same for every clock.
pub const END_SENT: u32 = 300;

// What the nominal clock sends.
const SHORT_NOMINAL: u32 = 64;

const LONG_NOMINAL: u32 = 128;

const SOF_NOMINAL: u32 = 200;

// The symbol of a passive interval, where a short bit is a 0.
#[tactic(auto, unfolding(crate::specs::Classes::class_of))]
fn class_passive(w: u32) -> Symbol
    ensures { result ≡ class_of false w }
{
    match w {
        ..=NOISE_LAST => Symbol::Noise,
        ..=SHORT_LAST => Symbol::Bit0,
        ..=LONG_LAST => Symbol::Bit1,
        ..=SOF_LAST => Symbol::Eod,
        ..=EOF_LAST => Symbol::Eof,
        _ => Symbol::Ifs,
    }
}

// The symbol of an active interval, where a short bit is a 1.
#[tactic(auto, unfolding(crate::specs::Classes::class_of))]
fn class_active(w: u32) -> Symbol
    ensures { result ≡ class_of true w }
{
    match w {
        ..=NOISE_LAST => Symbol::Noise,
        ..=SHORT_LAST => Symbol::Bit1,
        ..=LONG_LAST => Symbol::Bit0,
        ..=SOF_LAST => Symbol::Sof,
        ..STUCK_FIRST => Symbol::Break,
        _ => Symbol::Stuck,
    }
}

// The symbol of an interval: every width, at either level, has one.
pub fn class(active: bool, width: Micros) -> Symbol
    ensures { result ≡ class_of active width.0 }
{
    if active {
        class_active(width.0)
    } else {
        class_passive(width.0)
    }
}

// Whether an interval is an end: it opens a frame, and it closes one.
#[tactic(auto, unfolding(crate::specs::Classes::end_of))]
pub fn is_end(active: bool, width: Micros) -> bool
    ensures { result ≡ end_of active width.0 }
{
    !active && SOF_LAST < width.0
}

// Whether a width lies in a window, its two edges included.
fn within(w: u32, first: u32, last: u32) -> bool
    ensures { result ≡ within_of first last w }
{
    (first..=last).contains(&w)
}

// Whether all three widths of a clock lie in the sending windows.
#[tactic(auto, unfolding(crate::specs::Clocks::good_of))]
pub fn good_clock(clock: Clock) -> bool
    ensures { result ≡ good_of clock }
{
    within(clock.short.0, SHORT_LEAST, SHORT_MOST)
        && within(clock.long.0, LONG_LEAST, LONG_MOST)
        && within(clock.sof.0, SOF_LEAST, SOF_MOST)
}

// The clock that every controller means to keep.
pub fn nominal() -> Clock
    ensures { result ≡ nominal_clock }
{
    Clock {
        short: Micros(SHORT_NOMINAL),
        long: Micros(LONG_NOMINAL),
        sof: Micros(SOF_NOMINAL),
    }
}

// The width of a bit: a 0 is short where the line is passive, a 1 where it is active.
#[tactic(auto, using(crate::proofs::BitWidth::short_bit, crate::proofs::BitWidth::long_bit))]
pub fn bit_width(clock: Clock, active: bool, one: bool) -> Micros
    ensures { result ≡ bit_width clock active one }
{
    if active == one {
        clock.short
    } else {
        clock.long
    }
}
