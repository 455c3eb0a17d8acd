// The bench of arbitration: the types that callers see. What a round is, what each call answers and what it changes are
// defined in specs/, in document 01's words; the code that works them out stands in the rooms above.
#![tactic(auto)]

use symbol::Clock;
use units::Micros;

// The most stations that a row may have.
pub const MOST_STATIONS: usize = 32;

// The most bytes that a station stores, and the most that it sends, which are those and their check byte.
pub const MOST_STORED: usize = 11;

pub const MOST_SENT: usize = MOST_STORED + 1;

// A station of the row: its clock and its stored message, the first `len` of its bytes. A station of length 0 is empty;
// what its bytes then hold counts for nothing. Laid out as C has it, since other languages lend a row of them.
#[repr(C)]
#[derive(Clone, Copy)]
pub struct Station {
    pub clock: Clock,
    pub bytes: [u8; MOST_STORED],
    pub len: u8,
}

// How a place fared in a round: it held no message; its message went out whole; or it had to stop at a bit, counted from
// 1 after the SOF.
#[derive(Clone, Copy)]
pub enum Fared {
    Idle,
    Through,
    Lost(usize),
}

// How a place fared, as one of the 32 verdicts of a round.
#[derive(Clone, Copy)]
pub struct Verdict {
    pub fared: Fared,
}

// Why loading, withdrawing or setting a clock is turned away. A refusal changes nothing.
#[derive(Clone, Copy, Debug, PartialEq, Eq)]
pub enum CallRefusal {
    RowSize,
    UnsoundStation,
    NoStation,
    BadMessage,
    BadClock,
    Holding,
    NothingWaiting,
}

// Why a round is turned away. A refusal changes nothing, and no word is written.
#[derive(Clone, Copy, Debug, PartialEq, Eq)]
pub enum RoundRefusal {
    RowSize,
    UnsoundStation,
    FewLentWords,
    NobodyWaiting,
}

// What a round that is played answers: how each of 32 places fared, idle past the row, with the number of words written
// and the line time.
#[derive(Clone, Copy)]
pub struct RoundAnswer {
    pub verdicts: [Verdict; MOST_STATIONS],
    pub words: usize,
    pub line_time: Micros,
}
