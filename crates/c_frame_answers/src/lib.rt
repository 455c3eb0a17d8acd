// What the calls on volts, frames and the desk's text, and the small questions, answer to other languages: structs of plain
// numbers. The number of what came of a call stands first: document 01's, or one of the desk's own, 61 and 62.
#![tactic(auto)]

ghost use Rattle.std.specs.Prelude.{◌≡◌, Err};
ghost use Rattle.volts.specs.Promise.{numbered, turned_away};
ghost use Rattle.frame.specs.ReadPromise.{told, bare as bare_told};
ghost use Rattle.frame.specs.WritePromise.{refusal_number, counted, counts};
ghost use Rattle.desk_text.specs.Promise.{answered_told};
ghost use Rattle.c_frame_answers.specs.Answers.{traced_as, no_such_kind, counted_as, read_as, desk_as};

use desk_text::{Answered, FewLent};
use frame::{ReadRefusal, Reading, WriteRefusal};
use frame_numbers::{
    BAD_CLOCK, BAD_MESSAGE, DONE, FEW_LENT, PAST_RECORDING, QUIET, UNFINISHED, WITHOUT,
};
use symbol::Clock;
use volts::TraceRefusal;

// The check byte of some bytes.
#[repr(C)]
#[derive(Clone, Copy)]
pub struct Check {
    pub number: u32,
    pub check: u8,
}

// The symbol of an interval, by its number.
#[repr(C)]
#[derive(Clone, Copy)]
pub struct Class {
    pub number: u32,
    pub symbol: u32,
}

// Whether a clock lies in the sending windows.
#[repr(C)]
#[derive(Clone, Copy)]
pub struct Timed {
    pub number: u32,
    pub good: bool,
}

// How many words were written: 0 beside a refusal, since C has it so.
#[repr(C)]
#[derive(Clone, Copy)]
pub struct Counted {
    pub number: u32,
    pub count: usize,
}

// What reading answers. A value that the answer does not have is 0, since C has it so: include/j1850.h.
#[repr(C)]
#[derive(Clone, Copy)]
pub struct Read {
    pub number: u32,
    pub kind: u32,
    pub next: usize,
    pub opening: usize,
    pub main: usize,
    pub response: usize,
}

// What the desk answers: how many bytes of text were laid, and where the input is bad its first bad line; 0, as C has it, where
// there is none.
#[repr(C)]
#[derive(Clone, Copy)]
pub struct Desk {
    pub number: u32,
    pub line: usize,
    pub length: usize,
}

// Document 01's numbers for the refusals of a trace, which C is told.
const MANY_SAMPLES: u32 = 33;

const BAD_GATE: u32 = 34;

const UNUSABLE: u32 = 35;

// The desk's own two numbers: too little lent, and a bad input.
const LITTLE_LENT: u32 = 61;

const BAD_INPUT: u32 = 62;

// Document 01's number of why a trace is turned away.
fn trace_refused(refusal: TraceRefusal) -> u32
    ensures { numbered (Err refusal) ≡ turned_away result }
{
    match refusal {
        TraceRefusal::TooManySamples => MANY_SAMPLES,
        TraceRefusal::BadGate => BAD_GATE,
        TraceRefusal::TooFewWords => FEW_LENT,
        TraceRefusal::UnusableSample => UNUSABLE,
    }
}

// What came of a trace.
impl From<Result<usize, TraceRefusal>> for Counted {
    ghost from_gives = { λ answer counted. counted ≡ traced_as (numbered answer) };

    fn from(answer: Result<usize, TraceRefusal>) -> Counted {
        match answer {
            Ok(count) => Counted {
                number: DONE,
                count,
            },
            Err(refusal) => Counted {
                number: trace_refused(refusal),
                count: 0,
            },
        }
    }
}

// A message of a kind that there is not: a bad clock is told before it.
pub fn no_such_kind(clock: Clock) -> Counted
    ensures { result ≡ counted_as (counts (no_such_kind clock)) }
{
    let refusal = if symbol::good_clock(clock) {
        WriteRefusal::BadMessage
    } else {
        WriteRefusal::BadClock
    };
    Counted::from(Err(refusal))
}

// Document 01's number of a refusal to write.
fn refusal_number(refusal: WriteRefusal) -> u32
    ensures { result ≡ refusal_number refusal }
{
    match refusal {
        WriteRefusal::BadClock => BAD_CLOCK,
        WriteRefusal::BadMessage => BAD_MESSAGE,
        WriteRefusal::FewLentWords => FEW_LENT,
    }
}

// What came of a message.
impl From<Result<usize, WriteRefusal>> for Counted {
    ghost from_gives = { λ answer told. told ≡ counted_as (counted answer) };

    fn from(answer: Result<usize, WriteRefusal>) -> Counted {
        match answer {
            Ok(count) => Counted {
                number: DONE,
                count,
            },
            Err(refusal) => Counted {
                number: refusal_number(refusal),
                count: 0,
            },
        }
    }
}

// What reading answers.
impl From<Result<Reading, ReadRefusal>> for Read {
    ghost from_gives = { λ answer read. read ≡ read_as (told answer) };

    fn from(answer: Result<Reading, ReadRefusal>) -> Self {
        match answer {
            Ok(
                Reading::Frame {
                    lengths,
                    response,
                    opening,
                    next,
                },
            ) => Read {
                number: DONE,
                kind: frame_numbers::kind_number(response),
                next: next.0,
                opening: opening.0,
                main: lengths.main,
                response: lengths.response,
            },
            Ok(Reading::Quiet { next }) => bare(QUIET, next.0, 0),
            Ok(Reading::Unfinished { opening }) => bare(UNFINISHED, opening.0, opening.0),
            Ok(Reading::Faulty { fault, next }) => bare(
                frame_numbers::fault_number(fault),
                next.0,
                0,
            ),
            Err(ReadRefusal::PastRecording) => bare(PAST_RECORDING, 0, 0),
            Err(ReadRefusal::FewLentBytes) => bare(FEW_LENT, 0, 0),
        }
    }
}

// An answer that tells of no frame.
fn bare(number: u32, next: usize, opening: usize) -> Read
    ensures { result ≡ read_as (bare_told number next opening) }
{
    Read {
        number,
        kind: WITHOUT,
        next,
        opening,
        main: 0,
        response: 0,
    }
}

// What the desk answers.
impl From<Result<Answered, FewLent>> for Desk {
    ghost from_gives = { λ answer desk. desk ≡ desk_as (answered_told answer) };

    fn from(answer: Result<Answered, FewLent>) -> Self {
        match answer {
            Ok(Answered::Report { length }) => Desk {
                number: DONE,
                line: 0,
                length,
            },
            Ok(Answered::Refused { line, length }) => Desk {
                number: BAD_INPUT,
                line,
                length,
            },
            Err(FewLent) => Desk {
                number: LITTLE_LENT,
                line: 0,
                length: 0,
            },
        }
    }
}
