// Whether bytes are a label. What a label is is defined in specs/, in document 01's words.
#![tactic(auto)]

ghost use Rattle.std.specs.Prelude.{◌≡◌};
ghost use Rattle.label.specs.Labels.{label_byte, is_label};

// The most bytes of a label.
const MOST_LABEL: usize = 16;

// A letter, a digit, `-` or `_`.
#[tactic(auto, unfolding(crate::specs::Labels::label_byte))]
fn label_byte(x: u8) -> bool
    ensures { result ≡ label_byte x }
{
    matches!(x, b'a'..=b'z' | b'A'..=b'Z' | b'0'..=b'9' | b'-' | b'_')
}

// 1 to 16 letters, digits, `-` or `_`.
#[tactic(auto, using(crate::proofs::Leaves::length_bad))]
pub fn is_label(s: &[u8]) -> bool
    ensures { result ≡ is_label s.now }
{
    (1..=MOST_LABEL).contains(&s.len()) && s.iter().all(|byte| label_byte(*byte))
}
