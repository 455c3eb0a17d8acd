// From volts to intervals: the types that callers see, and what one sample says. What becomes of a trace is defined in
// specs/; the code that goes over its samples stands in the room above.

#![tactic(auto)]

ghost use Rattle.std.specs.Prelude.{◌≡◌};
ghost use Rattle.volts.specs.Judging.{good_gate, against, judged};

// The longest trace that is taken, in samples.
pub const MOST_SAMPLES: usize = 16384;

// What a channel is measured against, in volts: what its ground lies above ours, the level from which the line is active,
// and the level down to which it is passive. Between the two levels the line stays as it was. Laid out as C has it, since
// other languages hand it over.
#[repr(C)]
#[derive(Clone, Copy)]
pub struct Gate {
    pub offset: f32,
    pub active: f32,
    pub passive: f32,
}

// What one sample says, with its volts once the offset is taken away. An unusable sample has none: it, or what is left
// after the subtraction, is no finite number.
#[derive(Clone, Copy)]
pub enum Judged {
    Active(f32),
    Passive(f32),
    Between(f32),
    Unusable,
}

// Why a trace is turned away.
#[derive(Clone, Copy, Debug, PartialEq, Eq)]
pub enum TraceRefusal {
    TooManySamples,
    BadGate,
    TooFewWords,
    UnusableSample,
}

// Whether a gate can judge samples: three finite numbers, and space between the passive level and the active one.
#[tactic(auto, using(crate::proofs::Finiteness::same_finite), unfolding(crate::specs::Judging::good_gate))]
pub fn good_gate(gate: Gate) -> bool
    ensures { result ≡ good_gate gate }
{
    gate.offset.is_finite()
        && gate.active.is_finite()
        && gate.passive.is_finite()
        && gate.passive < gate.active
}

// What a gate says of one sample. It answers for any gate; whether the gate is a good one is `good_gate`'s to say.
// A level belongs to its own side: volts exactly at it are active, or passive, already.
#[tactic(auto, using(crate::proofs::Finiteness::usable, crate::proofs::Finiteness::unusable))]
pub fn judge(gate: Gate, sample: f32) -> Judged
    ensures { result ≡ judged gate sample }
{
    // A sample that is no finite number leaves a difference that is none either, so one test serves for both.
    let volts = sample - gate.offset;
    if volts.is_finite() {
        against_levels(gate, volts)
    } else {
        Judged::Unusable
    }
}

// What a gate says of volts from which the offset is taken away already. Whether they are a finite number is not asked.
#[tactic(auto, unfolding(crate::specs::Judging::against))]
pub fn against_levels(gate: Gate, volts: f32) -> Judged
    ensures { result ≡ against gate volts }
{
    if volts >= gate.active {
        Judged::Active(volts)
    } else if volts <= gate.passive {
        Judged::Passive(volts)
    } else {
        Judged::Between(volts)
    }
}
