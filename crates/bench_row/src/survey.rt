// What is asked of a whole row before a call on it is taken. A row has 32 places here; those past its end hold a blank
// station, which is sound, empty and asks for nothing.
ghost use Rattle.std.specs.Prelude.{max, ◌≡◌, ◌||◌, eqb, ltb};
ghost use Rattle.bench.specs.Stations as Stations;
ghost use Rattle.bench.specs.Stations.{most_stations, empty, sound};
ghost use Rattle.bench_row.specs.Surveys.{sof_of, longer, survey_of};
ghost use Rattle.std.specs.List.{list_all, fold};

use bench::{MOST_STATIONS, MOST_STORED, Station};

// Whether a row has no station, or more than 32.
pub fn bad_size(count: usize) -> bool
    ensures { result ≡ (eqb count 0 || ltb most_stations count) }
{
    count == 0 || MOST_STATIONS < count
}

// A station that stands in no row.
pub fn blank() -> Station
    ensures { result ≡ Stations.blank }
{
    Station {
        clock: symbol::nominal(),
        bytes: [0; MOST_STORED],
        len: 0,
    }
}

// Whether a station's stored length is at most 11 and its clock good.
fn is_sound(station: Station) -> bool
    ensures { result ≡ sound station }
{
    usize::from(station.len) <= MOST_STORED && symbol::good_clock(station.clock)
}

// What is asked of a row: whether every station is sound, whether every one is empty, and the longest SOF that a holder
// asks for.
#[derive(Clone, Copy)]
pub struct Survey {
    pub sound: bool,
    pub empty: bool,
    pub sof: u32,
}

// The SOF that a station asks for: none where it is empty, since only holders shape the line.
fn sof_asked(station: Station) -> u32
    ensures { result ≡ sof_of station }
{
    if station.len == 0 {
        0
    } else {
        station.clock.sof.0
    }
}

// The greater of two widths.
pub fn greater(a: u32, b: u32) -> u32
    ensures { result ≡ max a b }
{
    a.max(b)
}

// Whether every station of a row is sound.
fn all_sound(row: &[Station]) -> bool
    ensures { result ≡ list_all sound row.now }
{
    row.iter().all(|station| is_sound(*station))
}

// Whether every station of a row is empty.
fn all_empty(row: &[Station]) -> bool
    ensures { result ≡ list_all empty row.now }
{
    row.iter().all(|station| station.len == 0)
}

// The longest SOF that a holder of a row asks for.
fn longest_sof(row: &[Station]) -> u32
    ensures { result ≡ fold longer 0 row.now }
{
    row.iter()
        .fold(0, |sof, station| greater(sof, sof_asked(*station)))
}

// What is asked of the whole row. Inlined, so that a call that asks for one of the three does not work out the others.
#[inline(always)]
#[tactic(auto, using(crate::specs::SurveyLaws::surveyed))]
pub fn survey_all(row: &[Station; MOST_STATIONS]) -> Survey
    ensures { result ≡ survey_of row.now }
{
    Survey {
        sound: all_sound(row),
        empty: all_empty(row),
        sof: longest_sof(row),
    }
}
