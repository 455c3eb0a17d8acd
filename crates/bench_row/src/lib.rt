// A row by value, and what is asked of it as a whole.
#![tactic(auto)]

ghost use Rattle.std.specs.Prelude.{◌≡◌, min, replicate};
ghost use Rattle.bench.specs.Stations.{most_stations, blank};
ghost use Rattle.bench.specs.Round.{emptied};

use bench::{MOST_STATIONS, Station};

mod survey;

pub use survey::{Survey, bad_size, greater, survey_all};

// A row of up to 32 stations, with blank ones past its end, and how many the row has. Where that is more than 32 the
// rest of the row is not here: no call is taken on such a row.
// Kept an array with a count beside it: document 01 has the core by value first, and a library room has no heap.
#[derive(Clone, Copy)]
pub struct HeldRow {
    pub at: [Station; MOST_STATIONS],
    pub count: usize,
}

// 32 blank stations. Not inlined, since each call would lay them out anew, field by field.
#[inline(never)]
pub fn blanks() -> [Station; MOST_STATIONS]
    ensures { result ≡ replicate most_stations blank }
{
    [survey::blank(); MOST_STATIONS]
}

// How many stations of a row of so many a held row keeps.
pub fn kept(count: usize) -> usize
    ensures { result ≡ min count most_stations }
{
    count.min(MOST_STATIONS)
}

// The held row of these stations, for a row of so many.
pub fn held_of(at: [Station; MOST_STATIONS], count: usize) -> HeldRow
    ensures { result ≡ record { at = at; count = count } }
{
    HeldRow { at, count }
}

// A station of length 0; every other field stays.
pub fn empty(station: Station) -> Station
    ensures { result ≡ emptied station }
{
    Station { len: 0, ..station }
}
