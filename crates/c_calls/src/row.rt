// The calls on a lent row of stations. The row is handed on as it is lent: the room below gathers it and puts it back.
ghost use Rattle.std.specs.Prelude.{◌≡◌};
ghost use Rattle.bench.specs.Calls as Calls;
ghost use Rattle.bench.specs.Calls.{number_of, after, lent_after};
ghost use Rattle.bench.specs.Promise.{round_says};
ghost use Rattle.c_bench_answers.specs.Answers.{called_as, round_as};

use bench::Station;
use c_bench_answers::{CallAnswer, RoundAnswer};
use symbol::Clock;

// Loads a message into the station at a place, from 0 on.
#[unsafe(no_mangle)]
pub extern "C" fn j1850_load(row: &mut [Station], place: usize, message: &[u8]) -> CallAnswer
    ensures { (result ≡ called_as (number_of (Calls.load place message.now) row.old))
        × (row.new ≡ after (Calls.load place message.now) row.old) }
{
    CallAnswer::from(bench_lent::load(row, place, message))
}

// Withdraws the message of the station at a place.
#[unsafe(no_mangle)]
pub extern "C" fn j1850_withdraw(row: &mut [Station], place: usize) -> CallAnswer
    ensures { (result ≡ called_as (number_of (Calls.withdraw place) row.old))
        × (row.new ≡ after (Calls.withdraw place) row.old) }
{
    CallAnswer::from(bench_lent::withdraw(row, place))
}

// Sets the clock of the station at a place.
#[unsafe(no_mangle)]
pub extern "C" fn j1850_set_clock(row: &mut [Station], place: usize, clock: Clock) -> CallAnswer
    ensures { (result ≡ called_as (number_of (Calls.set_clock place clock) row.old))
        × (row.new ≡ after (Calls.set_clock place clock) row.old) }
{
    CallAnswer::from(bench_lent::set_clock(row, place, clock))
}

// Plays a round and writes its words into those lent, at least 101.
#[unsafe(no_mangle)]
pub extern "C" fn j1850_round(row: &mut [Station], words: &mut [u32]) -> RoundAnswer
    ensures { (result ≡ round_as (round_says row.old words.old))
        × (row.new ≡ after (Calls.round words.old) row.old)
        × (words.new ≡ lent_after row.old words.old) }
{
    RoundAnswer::from(bench_lent::round(row, words))
}
