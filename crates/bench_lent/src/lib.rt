// The bench of arbitration: the calls on a lent row of stations, worked out. What each of them answers and changes is
// defined in `bench`, in document 01's words.
#![tactic(auto)]

mod row;

pub use row::{load, round, set_clock, withdraw};
