// The bits of a round on a row by value: what the stations bring to it, what the line does at each bit, who stops, and how
// each place fares.
#![tactic(auto)]

ghost use Rattle.std.specs.Prelude.{◌≤◌, ◌≡◌, map, length};
ghost use Rattle.frame.specs.Writing.{most_words};
ghost use Rattle.bench_line.specs.Stated.{clipped};
ghost use Rattle.bench_line.specs.Contending.{course_on, nobody_sent, ContendedIn, ContendedBy};

use bench::{Fared, MOST_STATIONS, Station, Verdict};
use frame::MOST_WORDS;

mod entries;
mod fares;
mod lanes;
mod sender;
mod sending;

pub use sending::BEFORE_BITS;

// How many bits were sent, and how each of 32 places fared.
#[derive(Clone, Copy)]
pub struct Contended {
    pub bits: usize,
    pub verdicts: [Verdict; MOST_STATIONS],
}

// The stations of a row contend: the widths of their bits are written after the first two of the lent words. A stored
// length past 11 counts as 11. Where fewer than 101 words are lent nothing is sent, and all places are idle.
pub fn contend(at: [Station; MOST_STATIONS], words: &mut [u32]) -> Contended
    ensures { ContendedBy at words.old words.new result }
{
    if words.len() < MOST_WORDS {
        return nobody();
    }
    contend_on(at, words)
}

// Nobody sends a bit. An answer and no refusal: this open call answers for any words, and a round refuses few of them before.
#[tactic(auto, unfolding(crate::specs::Contending::nobody_sent))]
fn nobody() -> Contended
    ensures { result ≡ nobody_sent }
{
    Contended {
        bits: 0,
        verdicts: [Verdict { fared: Fared::Idle }; MOST_STATIONS],
    }
}

// The stations contend over words enough.
fn contend_on(at: [Station; MOST_STATIONS], words: &mut [u32]) -> Contended
    requires { most_words ≤ length words.old }
    ensures { ContendedIn (course_on (map clipped at)) words.old words.new result }
{
    let places = entries::places(&at);
    let mut senders = entries::senders(&at[..places]);
    let senders = &mut senders[..places];
    let bits = sending::send_bits(senders, words);
    Contended {
        bits,
        verdicts: fares::verdicts(senders),
    }
}
