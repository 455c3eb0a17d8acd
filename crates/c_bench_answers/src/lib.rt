// What the calls on a row of stations answer to other languages: the answers of the held row as structs of plain numbers.
#![tactic(auto)]

ghost use Rattle.std.specs.Prelude.{◌≡◌, map};
ghost use Rattle.bench.specs.Promise.{called_number, said, turned_away};
ghost use Rattle.c_bench_answers.specs.Answers.{called_as, verdict_as, round_as};

use bench::{CallRefusal, Fared, MOST_STATIONS, RoundRefusal};
use frame_numbers::{BAD_CLOCK, BAD_MESSAGE, DONE, FEW_LENT};

// What loading, withdrawing and setting a clock answer: document 01's number.
#[repr(C)]
#[derive(Clone, Copy)]
pub struct CallAnswer {
    pub number: u32,
}

// How a place fared, by its number, and the bit at which it lost; 0, as C has it, unless it lost.
#[repr(C)]
#[derive(Clone, Copy)]
pub struct Verdict {
    pub fared: u32,
    pub bit: usize,
}

// What a round answers. Where it was turned away all places are idle, and both counts are 0, since C has it so.
#[repr(C)]
#[derive(Clone, Copy)]
pub struct RoundAnswer {
    pub number: u32,
    pub line_time: u32,
    pub words: usize,
    pub verdicts: [Verdict; MOST_STATIONS],
}

// Document 01's numbers for the refusals of a call on a row, which C is told.
const ROW_SIZE: u32 = 38;

const UNSOUND: u32 = 39;

const NO_STATION: u32 = 40;

const HOLDING: u32 = 41;

const NOTHING_WAITING: u32 = 42;

// The numbers of how a place fared.
const IDLE: u32 = 0;

const THROUGH: u32 = 1;

const LOST: u32 = 2;

// What a call at a place answers.
impl From<Result<(), CallRefusal>> for CallAnswer {
    ghost from_gives = { λ called answer. answer ≡ called_as (called_number called) };

    fn from(called: Result<(), CallRefusal>) -> CallAnswer {
        let number = match called {
            Ok(()) => DONE,
            Err(CallRefusal::RowSize) => ROW_SIZE,
            Err(CallRefusal::UnsoundStation) => UNSOUND,
            Err(CallRefusal::NoStation) => NO_STATION,
            Err(CallRefusal::BadMessage) => BAD_MESSAGE,
            Err(CallRefusal::BadClock) => BAD_CLOCK,
            Err(CallRefusal::Holding) => HOLDING,
            Err(CallRefusal::NothingWaiting) => NOTHING_WAITING,
        };
        CallAnswer { number }
    }
}

// How a place fared.
impl From<bench::Verdict> for Verdict {
    ghost from_gives = { λ verdict plain. plain ≡ verdict_as verdict };

    fn from(verdict: bench::Verdict) -> Verdict {
        match verdict.fared {
            Fared::Idle => Verdict {
                fared: IDLE,
                bit: 0,
            },
            Fared::Through => Verdict {
                fared: THROUGH,
                bit: 0,
            },
            Fared::Lost(bit) => Verdict { fared: LOST, bit },
        }
    }
}

// What a round answers.
impl From<Result<bench::RoundAnswer, RoundRefusal>> for RoundAnswer {
    ghost from_gives = { λ told answer. answer ≡ round_as (said told) };

    fn from(told: Result<bench::RoundAnswer, RoundRefusal>) -> RoundAnswer {
        match told {
            Ok(answer) => RoundAnswer {
                number: DONE,
                line_time: answer.line_time.0,
                words: answer.words,
                verdicts: verdicts_as(answer.verdicts),
            },
            Err(RoundRefusal::RowSize) => turned_away(ROW_SIZE),
            Err(RoundRefusal::UnsoundStation) => turned_away(UNSOUND),
            Err(RoundRefusal::FewLentWords) => turned_away(FEW_LENT),
            Err(RoundRefusal::NobodyWaiting) => turned_away(NOTHING_WAITING),
        }
    }
}

// How each of the 32 places fared.
fn verdicts_as(verdicts: [bench::Verdict; MOST_STATIONS]) -> [Verdict; MOST_STATIONS]
    ensures { result ≡ map verdict_as verdicts }
{
    verdicts.map(|verdict| Verdict::from(verdict))
}

// A round that is turned away under a number: all places idle, and both counts 0.
fn turned_away(number: u32) -> RoundAnswer
    ensures { result ≡ round_as (turned_away number) }
{
    let idle = Verdict {
        fared: IDLE,
        bit: 0,
    };
    RoundAnswer {
        number,
        line_time: 0,
        words: 0,
        verdicts: [idle; MOST_STATIONS],
    }
}
