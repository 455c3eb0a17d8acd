// The calls at one place of a row by value: loading, withdrawing and setting a clock. Each rule that turns a call away is
// one test, and they stand in document 01's order.
#![tactic(auto)]

ghost use Rattle.std.specs.Prelude.{◌<◌, ◌≡◌, OnOk};
ghost use Rattle.bench.specs.Stations.{most_stations};
ghost use Rattle.bench.specs.Round.{emptied};
ghost use Rattle.bench.specs.Calls as Calls;
ghost use Rattle.bench.specs.Calls.{clocked};
ghost use Rattle.bench.specs.Promise.{called_number};
ghost use Rattle.bench_calls.specs.Changes.{station_of, call_number, row_number, load_number, withdraw_number, clock_number, ChangedBy, ChangedAt, loaded_row, withdrawn_row, clocked_row};

use bench::{CallRefusal, MOST_STORED, Station};
use bench_row::HeldRow;
use symbol::Clock;

// What every call at a place is turned away for first: the row's size, an unsound station in it, no station there.
#[tactic(auto, unfolding(crate::specs::Changes::row_number))]
fn row_call(held: HeldRow, place: usize) -> Result<(), CallRefusal>
    ensures answers { called_number result ≡ row_number held place }
    ensures inside { OnOk result (place < most_stations) }
{
    if bench_row::bad_size(held.count) {
        return Err(CallRefusal::RowSize);
    }
    if !bench_row::survey_all(&held.at).sound {
        return Err(CallRefusal::UnsoundStation);
    }
    if held.count <= place {
        return Err(CallRefusal::NoStation);
    }
    Ok(())
}

// A call at a place: what every such call is turned away for, and then its own change of the station there, which may turn it
// away too.
#[tactic(auto, unfolding(crate::specs::Changes::with_of, crate::specs::Changes::ChangedAt))]
fn at_place<F: FnOnce(Station) -> Result<Station, CallRefusal>>(
    mut held: HeldRow,
    place: usize,
    change: F,
) -> Result<HeldRow, CallRefusal>
    requires { F.IsAlwaysCallable change }
    ensures { ChangedAt (F.post change (station_of held place)) held place result }
{
    row_call(held, place)?;
    let station = held.at[place];
    let next = change(station)?;
    held.at[place] = next;
    Ok(held)
}

// Loads a message at a place.
pub fn load_on(held: HeldRow, place: usize, message: &[u8]) -> Result<HeldRow, CallRefusal>
    ensures { ChangedBy (call_number (Calls.load place message.now) held) (loaded_row held place message.now) result }
{
    at_place(held, place, |station| loaded(station, message))
}

// A station with a message: the bytes stand first, and their number is the length.
fn loaded(station: Station, message: &[u8]) -> Result<Station, CallRefusal>
    ensures { ChangedBy (load_number message.now station) (Calls.loaded message.now station) result }
{
    if message.is_empty() || MOST_STORED < message.len() {
        return Err(CallRefusal::BadMessage);
    }
    if 0 < station.len {
        return Err(CallRefusal::Holding);
    }
    let mut bytes = station.bytes;
    bytes[..message.len()].copy_from_slice(message);
    Ok(Station {
        bytes,
        len: message.len() as u8,
        ..station
    })
}

// Withdraws the message at a place.
pub fn withdraw_on(held: HeldRow, place: usize) -> Result<HeldRow, CallRefusal>
    ensures { ChangedBy (call_number (Calls.withdraw place) held) (withdrawn_row held place) result }
{
    at_place(held, place, |station| withdrawn(station))
}

// A station without its message.
fn withdrawn(station: Station) -> Result<Station, CallRefusal>
    ensures { ChangedBy (withdraw_number station) (emptied station) result }
{
    if station.len == 0 {
        return Err(CallRefusal::NothingWaiting);
    }
    Ok(bench_row::empty(station))
}

// Sets the clock at a place.
pub fn set_clock_on(held: HeldRow, place: usize, clock: Clock) -> Result<HeldRow, CallRefusal>
    ensures { ChangedBy (call_number (Calls.set_clock place clock) held) (clocked_row held place clock) result }
{
    at_place(held, place, |station| with_clock(station, clock))
}

// A station with another clock.
fn with_clock(station: Station, clock: Clock) -> Result<Station, CallRefusal>
    ensures { ChangedBy (clock_number clock) (clocked clock station) result }
{
    if !symbol::good_clock(clock) {
        return Err(CallRefusal::BadClock);
    }
    Ok(Station { clock, ..station })
}
