// The open calls for C, Rust and Python, but those on a live reader; include/j1850.h says what each takes and answers. Each
// call hands its arguments to the room that does the work and gives that room's answer as numbers, the number of what came
// of it first. Those numbers are document 01's; 61 and 62 are our own.
#![tactic(auto)]

mod row;

ghost use Rattle.std.specs.Prelude.{◌≡◌, length};
ghost use Rattle.checkbyte.specs.Register.{check_of};
ghost use Rattle.symbol.specs.Classes.{class_of};
ghost use Rattle.symbol.specs.Clocks.{good_of};
ghost use Rattle.volts.specs.Promise.{outcome, words_after as traced_words};
ghost use Rattle.volts.specs.Intervals.{intervals_of};
ghost use Rattle.frame.specs.Reading.{reading};
ghost use Rattle.frame.specs.ReadPromise.{tells, lent_after};
ghost use Rattle.frame.specs.WritePromise.{counts, words_after};
ghost use Rattle.desk_text.specs.Promise.{answering, laid_words, laid_text, laid_on};
ghost use Rattle.c_frame_answers.specs.Answers.{check_as, class_as, timed_as, traced_as, sheet_of, counted_as, read_as, desk_as};

use c_frame_answers::{Check, Class, Counted, Desk, Read, Timed};
use frame_numbers::{CHECKED, DONE};
use symbol::Clock;
use units::{Micros, Place};
use volts::Gate;

// The check byte that is sent after some bytes.
#[unsafe(no_mangle)]
pub extern "C" fn j1850_check_byte(bytes: &[u8]) -> Check
    ensures { result ≡ check_as (check_of bytes.now) }
{
    let check = checkbyte::check_byte(bytes);
    Check {
        number: DONE,
        check,
    }
}

// The symbol of an interval: every width, at either level, has one.
#[unsafe(no_mangle)]
pub extern "C" fn j1850_class(active: bool, width: u32) -> Class
    ensures { result ≡ class_as (class_of active width) }
{
    let symbol = frame_numbers::symbol_number(symbol::class(active, Micros(width)));
    Class {
        number: DONE,
        symbol,
    }
}

// Whether all three widths of a clock lie in the sending windows.
#[unsafe(no_mangle)]
pub extern "C" fn j1850_good_clock(clock: Clock) -> Timed
    ensures { result ≡ timed_as (good_of clock) }
{
    let good = symbol::good_clock(clock);
    Timed { number: DONE, good }
}

// The intervals of a trace of samples, into lent words, one more than the samples.
#[unsafe(no_mangle)]
pub extern "C" fn j1850_intervals(gate: Gate, samples: &[f32], words: &mut [u32]) -> Counted
    ensures value { result ≡ traced_as (outcome gate samples.now words.old) }
    ensures words_after { words.new ≡ traced_words (outcome gate samples.now words.old) (intervals_of gate samples.now) words.old }
{
    volts_trace::intervals(gate, samples, words).into()
}

// Writes the frame of a message, at a clock, into lent words. A kind that is none of the three is turned away as a bad
// message is, after a bad clock.
#[tactic(auto, using(crate::proofs::ByKind::no_kind_told, crate::proofs::ByKind::no_kind_words))]
#[unsafe(no_mangle)]
pub extern "C" fn j1850_write(
    clock: Clock,
    main: &[u8],
    kind: u32,
    response: &[u8],
    words: &mut [u32],
) -> Counted
    ensures value { result ≡ counted_as (counts (sheet_of clock main.now kind response.now (length words.old))) }
    ensures words_after { words.new ≡ words_after (sheet_of clock main.now kind response.now (length words.old)) words.old }
{
    if kind > CHECKED {
        return c_frame_answers::no_such_kind(clock);
    }
    let kind = frame_numbers::kind_of(kind);
    Counted::from(frame_write::write(clock, main, kind, response, words))
}

// Reads the first frame from a position of a recording on; its bytes go into lent bytes, at least 12.
#[unsafe(no_mangle)]
pub extern "C" fn j1850_read(intervals: &[u32], from: usize, bytes: &mut [u8]) -> Read
    ensures value { result ≡ read_as (tells (reading intervals.now from (length bytes.old))) }
    ensures bytes_after { bytes.new ≡ lent_after (reading intervals.now from (length bytes.old)) bytes.old }
{
    Read::from(frame_read::read(intervals, Place(from), bytes))
}

// The desk's whole text for an input, into lent bytes; the input's widths go into lent words.
#[unsafe(no_mangle)]
pub extern "C" fn j1850_desk(input: &[u8], words: &mut [u32], text: &mut [u8]) -> Desk
    ensures value { result ≡ desk_as (answering input.now (length words.old) (length text.old)) }
    ensures words_after { words.new ≡ laid_on (laid_words (answering input.now (length words.old) (length text.old)).number input.now) words.old }
    ensures text_after { text.new ≡ laid_on (laid_text (answering input.now (length words.old) (length text.old)).number input.now) text.old }
{
    Desk::from(desk_report::desk(input, words, text))
}
