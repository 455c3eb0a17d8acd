// A round on a row by value: whether it is played, its words and its line time, and the stations afterwards. Its bits, and
// how the stations fare, are the room below's.
#![tactic(auto)]

ghost use Rattle.std.specs.Prelude.{◌^◌, ◌<◌, ◌≤◌, ◌≡◌, true, map, sum, length, Ok};
ghost use Rattle.frame.specs.Writing.{most_words};
ghost use Rattle.bench.specs.Course.{longest};
ghost use Rattle.bench.specs.Round.{entry_of, sofs_asked, round_of, after_fare};
ghost use Rattle.bench.specs.Calls.{all_sound, written};
ghost use Rattle.bench.specs.Promise.{told_number, said, played};
ghost use Rattle.bench_round.specs.Rounds.{round_number, refused_number, after_verdicts, PlayedBy};

use bench::{Fared, MOST_STATIONS, RoundAnswer, RoundRefusal, Station, Verdict};
use bench_line::BEFORE_BITS;
use bench_row::{HeldRow, Survey};
use frame::MOST_WORDS;
use symbol::END_SENT;
use units::Micros;

// What a round that is played answers, and the held row after it.
#[derive(Clone, Copy)]
pub struct Played {
    pub held: HeldRow,
    pub answer: RoundAnswer,
}

// Plays a round. Where it is turned away the lent words stay as they were.
pub fn round_on(held: HeldRow, words: &mut [u32]) -> Result<Played, RoundRefusal>
    ensures { PlayedBy held words.old words.new result }
{
    let survey = bench_row::survey_all(&held.at);
    may_play(held.count, survey, words.len())?;
    let answer = play(held.at, survey.sof, words);
    let next = after_round(held, answer.verdicts);
    Ok(Played { held: next, answer })
}

// Whether a round is played, or why it is turned away, in document 01's order.
#[tactic(auto, unfolding(crate::specs::Rounds::round_number))]
fn may_play(count: usize, survey: Survey, lent: usize) -> Result<(), RoundRefusal>
    ensures { refused_number result ≡ round_number count survey lent }
{
    if bench_row::bad_size(count) {
        return Err(RoundRefusal::RowSize);
    }
    if !survey.sound {
        return Err(RoundRefusal::UnsoundStation);
    }
    if lent < MOST_WORDS {
        return Err(RoundRefusal::FewLentWords);
    }
    if survey.empty {
        return Err(RoundRefusal::NobodyWaiting);
    }
    Ok(())
}

// A round that passed its tests: the opening, the SOF, the bits, the closing end.
fn play(at: [Station; MOST_STATIONS], sof: u32, words: &mut [u32]) -> RoundAnswer
    requires { (all_sound at ≡ true) × (sof ≡ longest (sofs_asked (map entry_of at))) × (most_words ≤ length words.old) }
    ensures { (said (Ok result) ≡ played (round_of at)) × (words.new ≡ written (round_of at).words words.old) }
{
    words[0] = END_SENT;
    words[1] = sof;
    let contended = bench_line::contend(at, words);
    let closing = BEFORE_BITS + contended.bits;
    words[closing] = END_SENT;
    let count = closing + 1;
    let time = sum(&words[..closing]);
    let verdicts = contended.verdicts;
    RoundAnswer {
        verdicts,
        words: count,
        line_time: Micros(time),
    }
}

// Some words together.
fn sum(words: &[u32]) -> u32
    requires { sum words.now < 2 ^ 32 }
    ensures { result ≡ sum words.now }
{
    words.iter().sum()
}

// The stations after a round: those that got through are empty.
fn after_round(held: HeldRow, verdicts: [Verdict; MOST_STATIONS]) -> HeldRow
    ensures { result ≡ record { at = after_verdicts held.at verdicts; count = held.count } }
{
    let mut at = held.at;
    for (i, station) in at.iter_mut().enumerate() {
        *station = after_verdict(*station, verdicts[i]);
    }
    HeldRow { at, ..held }
}

// A station after a round: empty where it got through.
fn after_verdict(station: Station, verdict: Verdict) -> Station
    ensures { result ≡ after_fare verdict.fared station }
{
    match verdict.fared {
        Fared::Through => bench_row::empty(station),
        Fared::Idle | Fared::Lost(_) => station,
    }
}
