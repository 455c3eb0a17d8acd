// The desk's text: the types that callers see. What the text is for every input, and what the calls promise, is defined in
// specs/, in document 01's words; the code that works it out stands in the rooms above, and here only the search for a byte that
// they share.
#![tactic(auto)]

ghost use Rattle.std.specs.Prelude.{◌≡◌, ◌<◌, length, MatchOption};
ghost use Rattle.desk_text.specs.Places.{index_of};

// What every input can be answered with: a word for each width that it may have, and bytes for the longest text.
pub const MOST_WIDTHS: usize = 16384;

pub const MOST_TEXT: usize = 442463;

// How many bytes each label of a good input has. The customer's stands after `own` and a tab, the vehicle's after it and
// another tab.
#[derive(Clone, Copy, Debug, PartialEq, Eq)]
pub struct Labels {
    pub customer: usize,
    pub vehicle: usize,
}

// What judging a good input answers: its labels, and the number of its widths, which then stand first in the lent words.
#[derive(Clone, Copy, Debug, PartialEq, Eq)]
pub struct GoodInput {
    pub labels: Labels,
    pub widths: usize,
}

// Why judging refuses an input: the number of its first bad line; or that too little is lent. Then nothing lent is changed.
#[derive(Clone, Copy, Debug, PartialEq, Eq)]
pub enum InputRefusal {
    Bad { line: usize },
    FewLentWords,
}

// What the desk answers: how many bytes of text stand first in the lent bytes, and, where that text is a refusal of the input,
// the number of its first bad line. The widths of a good input stand first in the lent words; a bad one leaves them as they
// were.
#[derive(Clone, Copy, Debug, PartialEq, Eq)]
pub enum Answered {
    Report { length: usize },
    Refused { line: usize, length: usize },
}

// Why the desk refuses a call: too few words or bytes are lent. Then nothing lent is changed.
#[derive(Clone, Copy, Debug, PartialEq, Eq)]
pub struct FewLent;

// Where the first such byte of a text stands, or None where there is none.
pub fn find(s: &[u8], byte: u8) -> Option<usize>
    ensures { MatchOption result (index_of byte s.now ≡ length s.now) (λ m. (m ≡ index_of byte s.now) × (m < length s.now)) }
{
    s.iter().position(|&x| x == byte)
}
