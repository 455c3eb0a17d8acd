// The calls on a lent row of stations, as document 01 names them. Each gathers the row into a held row, works on the held row by
// value, and puts it back. A call that is turned away returns before that, so nothing is stored.
ghost use Rattle.std.specs.Prelude.{◌≡◌};
ghost use Rattle.bench.specs.Promise.{LoadPromise, WithdrawPromise, ClockPromise, RoundPromise};
ghost use Rattle.bench_row.specs.HeldRows.{held_of};
ghost use Rattle.bench_lent.specs.Restoring.{put_back};

use bench::{CallRefusal, RoundAnswer, RoundRefusal, Station};
use bench_row::HeldRow;
use symbol::Clock;

// The held row of a lent one: its first 32 stations, and how many it has. Inlined, so that each call has its held row where it is
// made, and no second one on the stack.
#[inline(always)]
#[tactic(auto, using(crate::specs::Restoring::gathers))]
pub fn gathered(row: &[Station]) -> HeldRow
    ensures { result ≡ held_of row.now }
{
    let n = bench_row::kept(row.len());
    let mut at = bench_row::blanks();
    at[..n].copy_from_slice(&row[..n]);
    bench_row::held_of(at, row.len())
}

// The row with the stations of a held row in its places, as many as that keeps.
#[tactic(auto, using(crate::specs::Restoring::put_whole))]
pub fn put_back(row: &mut [Station], held: HeldRow)
    ensures { row.new ≡ put_back held row.old }
{
    let n = bench_row::kept(row.len());
    row[..n].copy_from_slice(&held.at[..n]);
}

// Loads a message into the station at a place, from 0 on. A refusal changes nothing. Each of these is three lines, which one call
// over a closure would not make plainer.
pub fn load(row: &mut [Station], place: usize, message: &[u8]) -> Result<(), CallRefusal>
    ensures { LoadPromise place message.now row.old row.new result }
{
    let next = bench_calls::load_on(gathered(row), place, message)?;
    put_back(row, next);
    Ok(())
}

// Withdraws the message of the station at a place. A refusal changes nothing.
pub fn withdraw(row: &mut [Station], place: usize) -> Result<(), CallRefusal>
    ensures { WithdrawPromise place row.old row.new result }
{
    let next = bench_calls::withdraw_on(gathered(row), place)?;
    put_back(row, next);
    Ok(())
}

// Sets the clock of the station at a place. A refusal changes nothing.
pub fn set_clock(row: &mut [Station], place: usize, clock: Clock) -> Result<(), CallRefusal>
    ensures { ClockPromise place clock row.old row.new result }
{
    let next = bench_calls::set_clock_on(gathered(row), place, clock)?;
    put_back(row, next);
    Ok(())
}

// Plays a round and writes its words into those lent. A refusal changes nothing, and writes none.
pub fn round(row: &mut [Station], words: &mut [u32]) -> Result<RoundAnswer, RoundRefusal>
    ensures { RoundPromise row.old row.new words.old words.new result }
{
    let played = bench_round::round_on(gathered(row), words)?;
    put_back(row, played.held);
    Ok(played.answer)
}
