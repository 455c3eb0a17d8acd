// What the calls on a lent live reader answer to other languages: the live reader's answers as structs of plain numbers.
#![tactic(auto)]

ghost use Rattle.std.specs.Prelude.{◌≡◌};
ghost use Rattle.c_live_answers.specs.Answers.{heard_bare};

use frame_numbers::{DONE, FEW_LENT, QUIET, UNFINISHED, WITHOUT};
use live::Asked;
use live_answer::{HearRefusal, Heard};

// What an interval answers. A value that the answer does not have is 0, since C has it so: include/j1850.h.
#[repr(C)]
#[derive(Clone, Copy, Debug, PartialEq, Eq)]
pub struct HeardAnswer {
    pub number: u32,
    pub kind: u32,
    pub next: u64,
    pub opening: u64,
    pub main: usize,
    pub response: usize,
}

// What asking answers. A quiet reader has no opening: 0.
#[repr(C)]
#[derive(Clone, Copy, Debug, PartialEq, Eq)]
pub struct AskedAnswer {
    pub number: u32,
    pub next: u64,
    pub opening: u64,
}

// Document 02's number for an interval past the last place.
const PAST_PLACES: u32 = 51;

// The library's own number: an interval that decides nothing yet.
const NOTHING_YET: u32 = 63;

// What an interval answers.
impl From<Result<Heard, HearRefusal>> for HeardAnswer {
    ghost use Rattle.c_live_answers.specs.Answers.{heard_as};

    ghost from_gives = { λ heard answer. answer ≡ heard_as heard };

    fn from(heard: Result<Heard, HearRefusal>) -> HeardAnswer {
        match heard {
            Ok(Heard::Nothing) => bare(NOTHING_YET, 0),
            Ok(
                Heard::Frame {
                    lengths,
                    response,
                    opening,
                    next,
                },
            ) => HeardAnswer {
                number: DONE,
                kind: frame_numbers::kind_number(response),
                next: next.0,
                opening: opening.0,
                main: lengths.main,
                response: lengths.response,
            },
            Ok(Heard::Faulty { fault, next }) => bare(frame_numbers::fault_number(fault), next.0),
            Err(HearRefusal::PastPlaces) => bare(PAST_PLACES, 0),
            Err(HearRefusal::FewLentBytes) => bare(FEW_LENT, 0),
        }
    }
}

// An interval that closes no frame.
fn bare(number: u32, next: u64) -> HeardAnswer
    ensures { result ≡ heard_bare number next }
{
    HeardAnswer {
        number,
        kind: WITHOUT,
        next,
        opening: 0,
        main: 0,
        response: 0,
    }
}

// What asking answers.
impl From<Asked> for AskedAnswer {
    ghost use Rattle.c_live_answers.specs.Answers.{asked_as};

    ghost from_gives = { λ asked answer. answer ≡ asked_as asked };

    fn from(asked: Asked) -> AskedAnswer {
        match asked {
            Asked::Quiet { next } => AskedAnswer {
                number: QUIET,
                next: next.0,
                opening: 0,
            },
            Asked::Unfinished { opening } => AskedAnswer {
                number: UNFINISHED,
                next: opening.0,
                opening: opening.0,
            },
        }
    }
}
