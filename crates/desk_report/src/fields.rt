// What the fields of a line are printed by. Each function lays its text at the front of what it is lent, leaves the rest as
// it was, and answers how many bytes the text is.
ghost use Rattle.std.specs.Prelude.{◌+◌, ◌≤◌, length};
ghost use Rattle.desk_text.specs.Numerals.{decimal, hex};
ghost use Rattle.desk_report.specs.Laying.{Laid, Space, tabbed, response_end, frame_end, fault_end};

use frame::{Fault, Lengths, Response};

// Bytes as they are.
#[tactic(auto, using(crate::proofs::Laying::laid_copied))]
pub(crate) fn put(s: &[u8], lent: &mut [u8]) -> usize
    requires { Space s.now lent.old }
    ensures { Laid s.now lent.old lent.new result }
{
    lent[..s.len()].copy_from_slice(s);
    s.len()
}

// A field and the tab after it.
#[tactic(auto, using(crate::proofs::Laying::laying_laws))]
pub(crate) fn put_field(s: &[u8], lent: &mut [u8]) -> usize
    requires { Space (tabbed s.now) lent.old }
    ensures { Laid (tabbed s.now) lent.old lent.new result }
{
    let k = put(s, lent);
    k + put(b"\t", &mut lent[k..])
}

// A number in decimal.
pub(crate) fn put_number(n: usize, lent: &mut [u8]) -> usize
    requires { Space (decimal n) lent.old }
    ensures { Laid (decimal n) lent.old lent.new result }
{
    let mut digits = [0u8; 20];
    let k = io::decimal(n as u64, &mut digits);
    put(&digits[..k], lent)
}

// A number and the tab after it.
#[tactic(auto, using(crate::proofs::Laying::laying_laws))]
pub(crate) fn put_place(n: usize, lent: &mut [u8]) -> usize
    requires { Space (tabbed (decimal n)) lent.old }
    ensures { Laid (tabbed (decimal n)) lent.old lent.new result }
{
    let k = put_number(n, lent);
    k + put(b"\t", &mut lent[k..])
}

// Bytes in upper case hex.
fn put_hex(s: &[u8], lent: &mut [u8]) -> usize
    requires { Space (hex s.now) lent.old }
    ensures { Laid (hex s.now) lent.old lent.new result }
{
    let mut k = 0;
    for &b in s {
        k += put(&[desk_answer::high(b), desk_answer::low(b)], &mut lent[k..]);
    }
    k
}

// A response with its mark, or `-`; and the newline after it.
fn put_response(kind: Response, s: &[u8], lent: &mut [u8]) -> usize
    requires { Space (response_end kind s.now) lent.old }
    ensures { Laid (response_end kind s.now) lent.old lent.new result }
{
    let marked = put(&desk_answer::mark(kind), lent);
    if desk_answer::without(kind) {
        return marked;
    }
    let k = marked + put_hex(s, &mut lent[marked..]);
    k + put(b"\n", &mut lent[k..])
}

// The kind, the main part and the response of a frame, whose bytes stand first in s.
pub(crate) fn put_frame(lengths: Lengths, kind: Response, s: &[u8], lent: &mut [u8]) -> usize
    requires response_in_bounds { lengths.main + lengths.response ≤ length s.now }
    requires space { Space (frame_end lengths kind s.now) lent.old }
    ensures { Laid (frame_end lengths kind s.now) lent.old lent.new result }
{
    let m = lengths.main;
    let n = m + lengths.response;
    let k1 = put(b"frame\t", lent);
    let k2 = k1 + put_hex(&s[..m], &mut lent[k1..]);
    let k3 = k2 + put(b"\t", &mut lent[k2..]);
    k3 + put_response(kind, &s[m..n], &mut lent[k3..])
}

// The kind of a fault, and no parts.
pub(crate) fn put_fault(fault: Fault, lent: &mut [u8]) -> usize
    requires { Space (fault_end fault) lent.old }
    ensures { Laid (fault_end fault) lent.old lent.new result }
{
    let k1 = put(b"fault-", lent);
    let k2 = k1 + put_number(frame_numbers::fault_number(fault) as usize, &mut lent[k1..]);
    k2 + put(b"\t-\t-\n", &mut lent[k2..])
}
