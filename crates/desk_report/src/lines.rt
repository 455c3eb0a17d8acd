// The line of each answer.
ghost use Rattle.std.specs.Prelude.{◌≡◌, ◌≤◌, length};
ghost use Rattle.desk_text.specs.Report.{answer_text};
ghost use Rattle.desk_report.specs.Laying.{Laid, Space, end_of, Holds, place_of, line_in};
ghost use Rattle.desk_report.specs.Reporting.{answer_at, text_from, Stepped};

use crate::fields::{put, put_fault, put_field, put_frame, put_place};
use frame::{MOST_BYTES, ReadRefusal, Reading};
use units::Place;

// The kind and the parts of an answer; a frame's bytes stand first in s.
fn put_end(answer: Result<Reading, ReadRefusal>, s: &[u8], lent: &mut [u8]) -> usize
    requires holds { Holds answer s.now }
    requires space { Space (end_of answer s.now) lent.old }
    ensures { Laid (end_of answer s.now) lent.old lent.new result }
{
    match answer {
        Ok(
            Reading::Frame {
                lengths,
                response,
                ..
            },
        ) => put_frame(lengths, response, s, lent),
        Ok(Reading::Quiet { .. }) => put(b"quiet\t-\t-\n", lent),
        Ok(Reading::Unfinished { .. }) => put(b"unfinished\t-\t-\n", lent),
        Ok(Reading::Faulty { fault, .. }) => put_fault(fault, lent),
        Err(_) => put(b"-\t-\t-\n", lent),
    }
}

// Where an answer stands: its opening, or its next position.
fn place(answer: Result<Reading, ReadRefusal>) -> usize
    ensures { result ≡ place_of answer }
{
    match answer {
        Ok(Reading::Frame { opening, .. } | Reading::Unfinished { opening }) => opening.0,
        Ok(Reading::Quiet { next }) => next.0,
        Ok(Reading::Faulty { next, .. }) => next.0,
        Err(_) => 0,
    }
}

// What a report is of: the labels and the widths of a recording.
#[derive(Clone, Copy)]
pub(crate) struct Recording<'a> {
    pub customer: &'a [u8],
    pub vehicle: &'a [u8],
    pub widths: &'a [u32],
}

// The line of an answer; a frame's bytes stand first in s.
fn put_line(
    recording: &Recording,
    answer: Result<Reading, ReadRefusal>,
    s: &[u8],
    lent: &mut [u8],
) -> usize
    requires holds { Holds answer s.now }
    requires space { Space (line_in recording.now.customer.now recording.now.vehicle.now answer s.now) lent.old }
    ensures { Laid (line_in recording.now.customer.now recording.now.vehicle.now answer s.now) lent.old lent.new result }
{
    let k1 = put_field(recording.customer, lent);
    let k2 = k1 + put_field(recording.vehicle, &mut lent[k1..]);
    let k3 = k2 + put_place(place(answer), &mut lent[k2..]);
    k3 + put_end(answer, s, &mut lent[k3..])
}

// How long the line of an answer is, and where reading goes on.
#[derive(Clone, Copy)]
pub(crate) struct Step {
    pub length: usize,
    pub next: Option<usize>,
}

// The line of the answer at a position.
fn put_answer(recording: &Recording, from: usize, lent: &mut [u8]) -> Step
    requires from_in_bounds { from ≤ length recording.now.widths.now }
    requires space { Space (answer_text recording.now.customer.now recording.now.vehicle.now (answer_at recording.now.widths.now from)) lent.old }
    ensures { Stepped recording.now.customer.now recording.now.vehicle.now recording.now.widths.now from lent.old lent.new result }
{
    let mut s = [0u8; MOST_BYTES];
    let answer = frame_read::read(recording.widths, Place(from), &mut s);
    let length = put_line(recording, answer, &s, lent);
    let next = desk_answer::after(answer);
    Step { length, next }
}

// A line for each answer from the recording's start on, until quiet or unfinished.
#[tactic(auto, using(crate::proofs::Driving::left_start))]
pub(crate) fn put_lines(recording: &Recording, lent: &mut [u8]) -> usize
    requires { Space (text_from recording.now.customer.now recording.now.vehicle.now recording.now.widths.now 0) lent.old }
    ensures { Laid (text_from recording.now.customer.now recording.now.vehicle.now recording.now.widths.now 0) lent.old lent.new result }
{
    let mut k = 0;
    let mut next = Some(0);
    while let Some(from) = next {
        let step = put_answer(recording, from, &mut lent[k..]);
        k += step.length;
        next = step.next;
    }
    k
}
