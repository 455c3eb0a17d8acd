// What the stations of a row bring to a round: a place with its bytes for each. A stored length past 11 counts as 11.
ghost use Rattle.std.specs.Prelude.{◌-◌, ◌≤◌, ◌≡◌, ◌++◌, false, length, map, replicate, take};
ghost use Rattle.checkbyte.specs.Register.{with_check};
ghost use Rattle.bench.specs.Stations.{most_stations, most_stored};
ghost use Rattle.bench_line.specs.Lanes.{seat_at, seats_at};
ghost use Rattle.bench_line.specs.Entries.{Holders, place_of};

use crate::sender::Sender;
use bench::{MOST_SENT, MOST_STATIONS, MOST_STORED, Station};
use bench_lane::{BITS_OF_BYTE, Lane};

// The number of places up to the last holder: a round looks at no more, however long the row is.
pub(crate) fn places(row: &[Station; MOST_STATIONS]) -> usize
    ensures { Holders row.now result }
{
    row.iter()
        .rposition(|station| 0 < station.len)
        .map_or(0, |last| last + 1)
}

// The bytes that a message sends, its check byte after them, filled up with zeros.
fn frame_of(message: &[u8]) -> [u8; MOST_SENT]
    requires { length message.now ≤ most_stored }
    ensures { result ≡ with_check message.now ++ replicate (most_stored - length message.now) 0 }
{
    let mut frame = [0; MOST_SENT];
    frame[..message.len()].copy_from_slice(message);
    frame[message.len()] = checkbyte::check_byte(message);
    frame
}

// The place of a station as a round begins.
#[tactic(auto, using(crate::specs::EntryLaws::sender_empty, crate::specs::EntryLaws::sender_holder))]
fn sender_of(station: &Station) -> Sender
    ensures { seat_at false 0 result ≡ place_of station.now }
{
    let message = &station.bytes[..(station.len as usize).min(MOST_STORED)];
    let count = if message.is_empty() {
        0
    } else {
        (message.len() + 1) * BITS_OF_BYTE
    };
    let lane = Lane {
        count,
        clock: station.clock,
        lost: None,
    };
    Sender {
        lane,
        frame: frame_of(message),
    }
}

// The places of the stations of a row. Those past its end have nothing to send. Not inlined, so that they are made where the caller
// has them, and there is no second array of them on the stack.
#[inline(never)]
#[tactic(auto, using(crate::specs::LoopLaws::map_one))]
pub(crate) fn senders(row: &[Station]) -> [Sender; MOST_STATIONS]
    requires { length row.now ≤ most_stations }
    ensures { seats_at false 0 (take (length row.now) result) ≡ map place_of row.now }
{
    let lane = Lane {
        count: 0,
        clock: symbol::nominal(),
        lost: None,
    };
    let none = Sender {
        lane,
        frame: [0; MOST_SENT],
    };
    let mut senders = [none; MOST_STATIONS];
    // by the place, since a proof knows nothing of what a zipped `iter_mut` has written
    for (i, station) in row.iter().enumerate() {
        senders[i] = sender_of(station);
    }
    senders
}
