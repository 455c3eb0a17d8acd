// Judging one field of the desk's input: whether it is a certain word, and which width it spells. What a width is is defined in
// the room below.
#![tactic(auto)]

ghost use Rattle.std.specs.Prelude.{◌≡◌};
ghost use Rattle.desk_text.specs.Grammar.{same as same_of};
ghost use Rattle.desk_field.specs.Widths.{number_of, width_of};

// Whether two texts are the same. It stays beside `==` as a public call, whose promise is in document 01's words.
#[tactic(auto, using(crate::proofs::Leaves::same_is_pointwise))]
pub fn same(a: &[u8], b: &[u8]) -> bool
    ensures { result ≡ same_of a.now b.now }
{
    a == b
}

// The number that the bytes spell, where all are digits and a u32 holds it.
#[tactic(auto, using(crate::proofs::Leaves::number_laws))]
fn number(s: &[u8]) -> Option<u32>
    ensures { result ≡ number_of s.now }
{
    let mut n: u32 = 0;
    for &x in s {
        if !x.is_ascii_digit() {
            return None;
        }
        n = n.checked_mul(10)?.checked_add(u32::from(x - b'0'))?;
    }
    Some(n)
}

// A width: at least one digit, and no leading zero.
#[tactic(auto, using(crate::proofs::Leaves::width_laws))]
pub fn width_in(s: &[u8]) -> Option<u32>
    ensures { result ≡ width_of s.now }
{
    match s {
        [] | [b'0', _, ..] => None,
        _ => number(s),
    }
}
