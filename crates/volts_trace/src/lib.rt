// From volts to intervals, over a whole trace. A trace of samples, one a microsecond, becomes the widths of the stretches at
// which the line stays passive or active, and every trace that cannot be trusted is turned away with a reason of its own.
#![tactic(auto)]

ghost use Rattle.std.specs.Prelude.{◌≡◌, ◌≤◌, ◌<◌, true, false, not, ◌++◌, length, drop};
ghost use Rattle.std.specs.Bool.{beq};
ghost use Rattle.volts.specs.Judging.{judged};
ghost use Rattle.volts.specs.Levels.{level_after, is_unusable};
ghost use Rattle.volts.specs.Intervals.{intervals_of};
ghost use Rattle.volts.specs.Promise.{most_samples, sample_unusable, TracePromise};

use units::{Micros, Place};
use volts::{Gate, Judged, MOST_SAMPLES, TraceRefusal};

// Whether a sample cannot be used.
fn unusable(gate: Gate, sample: f32) -> bool
    ensures { result ≡ is_unusable (judged gate sample) }
{
    matches!(volts::judge(gate, sample), Judged::Unusable)
}

// Whether a line is active after a judged sample, by whether it was active before.
fn level_after<const ACTIVE: bool>(judged: Judged) -> bool
    ensures { result ≡ level_after ACTIVE judged }
{
    match judged {
        Judged::Active(_) => true,
        Judged::Passive(_) => false,
        Judged::Between(_) | Judged::Unusable => ACTIVE,
    }
}

// Whether a judged sample changes the level of the line. Each former level has a test of its own, which compiles to
// comparisons of the volts and not to a choice between four judgements.
#[tactic(auto, using(crate::proofs::Changing::changed_active, crate::proofs::Changing::changed_passive))]
fn changes(active: bool, judged: Judged) -> bool
    ensures { result ≡ not (beq (level_after active judged) active) }
{
    if active {
        !level_after::<true>(judged)
    } else {
        level_after::<false>(judged)
    }
}

// Whether any sample of a trace cannot be used. This pass comes before the first word is written, so that a trace that is
// turned away leaves the lent words as they were.
fn some_unusable(gate: Gate, samples: &[f32]) -> bool
    ensures { result ≡ sample_unusable gate samples.now }
{
    samples.iter().any(|sample| unusable(gate, *sample))
}

// Writes the intervals of a trace to the front of the lent words and answers how many there are. The line starts passive,
// so a trace that begins active has a first interval of 0. Every sample is known to be usable, and none is tested again.
fn write_intervals(gate: Gate, samples: &[f32], words: &mut [u32]) -> usize
    requires samples_value { sample_unusable gate samples.now ≡ false }
    requires samples_nonzero { (0 < length samples.now) × (length samples.now ≤ most_samples) × (length samples.now < length words.old) }
    ensures { (result ≡ length (intervals_of gate samples.now)) × (words.new ≡ intervals_of gate samples.now ++ drop result words.old) }
{
    let mut next = Place(0); // counted by hand, since only some samples write a word
    let mut width = Micros(0);
    let mut active = false;
    for sample in samples {
        let judged = volts::against_levels(gate, *sample - gate.offset);
        let turns = changes(active, judged);
        if turns {
            words[next.0] = width.0;
            next = Place(next.0 + 1);
            width = Micros(1);
            active = !active;
        } else {
            width = Micros(width.0 + 1);
        }
    }
    words[next.0] = width.0;
    next.0 + 1
}

// The intervals of a trace: how long the line stays passive, then active, then passive again, in microseconds, from the
// first sample to the last. They are written to the front of the lent words, which must be one more than the samples, and
// the answer is how many were written. A trace that is too long, a gate that cannot judge, too few lent words or a sample
// that cannot be used is turned away, in this order, and then no word is changed.
#[tactic(auto, using(crate::proofs::Exits::too_many, crate::proofs::Exits::bad_gate, crate::proofs::Exits::few_words, crate::proofs::Exits::some_unusable, crate::proofs::Exits::nothing, crate::proofs::Exits::counted))]
pub fn intervals(gate: Gate, samples: &[f32], words: &mut [u32]) -> Result<usize, TraceRefusal>
    ensures { TracePromise gate samples.now words.old result words.new }
{
    if samples.len() > MOST_SAMPLES {
        return Err(TraceRefusal::TooManySamples);
    }
    if !volts::good_gate(gate) {
        return Err(TraceRefusal::BadGate);
    }
    if words.len() <= samples.len() {
        return Err(TraceRefusal::TooFewWords);
    }
    if some_unusable(gate, samples) {
        return Err(TraceRefusal::UnusableSample);
    }
    if samples.is_empty() {
        return Ok(0);
    }
    Ok(write_intervals(gate, samples, words))
}
