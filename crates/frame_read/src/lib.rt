// Reading: from a position in a recording to the frame that opens there, or to what is wrong with it. What reading
// answers is defined, in document 01's words, in `frame`. Here the frame machine is driven over the recording,
// and the bytes that it tells of are kept until the frame is whole.
#![tactic(auto)]

ghost use Rattle.std.specs.Prelude.{◌≡◌, ◌≤◌, ◌<◌, length};
ghost use Rattle.frame.specs.Faults.{most_bytes};
ghost use Rattle.frame.specs.Line.{single, opening as opening_of};
ghost use Rattle.frame.specs.Reading.{decided, read_by};
ghost use Rattle.frame.specs.ReadPromise.{ReadPromise};
ghost use Rattle.frame_parts.specs.Parts.{parts_of};
ghost use Rattle.frame_read.specs.Answering.{found_by, frame_of, Meets};

use frame::{MOST_BYTES, ReadRefusal, Reading};
use frame_machine::{Event, Machine};
use frame_parts::Parts;
use units::{Micros, Place};

// The level of the even places.
const PASSIVE: bool = false;

// The first end at or after a place. Ends are passive, so the even places are all that is looked at.
fn opening(intervals: &[u32], from: usize) -> Option<usize>
    requires { from ≤ length intervals.now }
    ensures { result ≡ found_by (opening_of (single intervals.now) from) }
{
    let first = from + from % 2;
    for pair in 0..intervals.len().saturating_sub(first).div_ceil(2) {
        let i = first + 2 * pair;
        if symbol::is_end(PASSIVE, Micros(intervals[i])) {
            return Some(i);
        }
    }
    None
}

// The answer for a frame that is closed: its parts, where it opens, and its closing end, from which reading goes on.
fn framed(machine: Machine, opening: usize, closing: usize) -> Reading
    ensures { result ≡ frame_of (parts_of machine) opening closing }
{
    let Parts { lengths, response } = frame_parts::parts_of(machine);
    Reading::Frame {
        lengths,
        response,
        opening: Place(opening),
        next: Place(closing),
    }
}

// The frame that opens at a place with an interval after it: the first interval that is at fault or closes it decides.
fn read_open(intervals: &[u32], opening: usize, lent: &mut [u8]) -> Reading
    requires opening_in_bounds { opening < length intervals.now }
    requires most_bytes_in_bounds { most_bytes ≤ length lent.old }
    ensures { Meets (decided most_bytes (single intervals.now) opening) lent.old lent.new result }
{
    let mut kept = [0u8; MOST_BYTES];
    let mut held = frame_machine::start();
    for i in opening + 1..intervals.len() {
        let symbol = symbol::class(i % 2 == 1, Micros(intervals[i]));
        let at = held.count;
        let stepped = frame_machine::step(MOST_BYTES, held, frame_tests::sign_of(symbol));
        held = stepped.machine;
        match stepped.event {
            Event::Going => {}
            Event::Byte(byte) => kept[at] = byte,
            Event::Closed => {
                frame_parts::lay(kept, held.count, lent);
                return framed(held, opening, i);
            }
            Event::Faulty(fault) => {
                return Reading::Faulty {
                    fault,
                    next: Place(i),
                };
            }
        }
    }
    Reading::Unfinished {
        opening: Place(opening),
    }
}

// Reading from a position within the recording: quiet, if there is no opening, or no interval after it.
#[tactic(auto, using(crate::proofs::Searching::opened_in, crate::proofs::Answers::quiet_meets, crate::proofs::Answers::alone_meets, crate::proofs::Answers::followed_meets))]
fn read_from(intervals: &[u32], from: usize, lent: &mut [u8]) -> Reading
    requires from_in_bounds { from ≤ length intervals.now }
    requires most_bytes_in_bounds { most_bytes ≤ length lent.old }
    ensures { Meets (read_by (opening_of (single intervals.now) from) most_bytes (single intervals.now) from) lent.old lent.new result }
{
    match opening(intervals, from) {
        Some(opening) if opening + 1 < intervals.len() => read_open(intervals, opening, lent),
        _ => Reading::Quiet { next: Place(from) },
    }
}

// Reading from a position: document 01, "What reading answers".
#[tactic(auto, using(frame::proofs::Outcomes::reads_31, frame::proofs::Outcomes::reads_32, frame::proofs::Outcomes::reads_by))]
pub fn read(intervals: &[u32], from: Place, lent: &mut [u8]) -> Result<Reading, ReadRefusal>
    ensures { ReadPromise intervals.now from.0 lent.old lent.new result }
{
    let p = from.0;
    if intervals.len() < p {
        return Err(ReadRefusal::PastRecording);
    }
    if lent.len() < MOST_BYTES {
        return Err(ReadRefusal::FewLentBytes);
    }
    Ok(read_from(intervals, p, lent))
}
