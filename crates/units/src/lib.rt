// The measures of a recording: a place, a place of a recording that is read as it comes, and a width. All three are whole
// numbers, and a program that takes one for another reads nonsense without a complaint, so each has a type of its own that
// no other room can mistake.

#![tactic(auto)]

// A place in a recording: the number of intervals that stand before it. Even places are passive, odd ones active.
#[derive(Clone, Copy, Debug, PartialEq, Eq)]
pub struct Place(pub usize);

// A width: the time that an interval lasts, in microseconds. Laid out as C has it, since clocks hold widths and
// other languages hand clocks over.
#[repr(C)]
#[derive(Clone, Copy, Debug, PartialEq, Eq)]
pub struct Micros(pub u32);

// A place in a recording that is read as it comes, counted in 64 bits.
#[derive(Clone, Copy, Debug, PartialEq, Eq)]
pub struct LongPlace(pub u64);
