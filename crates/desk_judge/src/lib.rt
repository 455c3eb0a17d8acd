// Judging the desk's input: its labels and widths, or the number of its first bad line. What a good line is, and which line
// is the first bad one, is defined in `desk_text`.
#![tactic(auto)]

ghost use Rattle.std.specs.Prelude.{◌≡◌, ◌≤◌, length};
ghost use Rattle.desk_text.specs.Input.{lines, most_widths, bad_from};
ghost use Rattle.desk_text.specs.Promise.{JudgePromise};
ghost use Rattle.desk_judge.specs.Found.{iv_of, labels_of, own_of, line_if, WidthsLaid, AfterOwn};

use desk_field::width_in;
use desk_text::{GoodInput, InputRefusal, Labels, MOST_WIDTHS, find};
use label::is_label;

// The byte that closes a line, and the byte that parts fields.
const NEWLINE: u8 = 10;

const TAB: u8 = 9;

// The number of the first line with a width, each of which has a line of its own.
const FIRST_WIDTH_LINE: usize = 2;

// What is said of a first line that is bad.
const BAD_FIRST: InputRefusal = InputRefusal::Bad { line: 1 };

// The width of a line `iv`, tab, width, given without its newline.
#[tactic(auto, using(crate::proofs::Fields::iv_laws))]
fn iv_line(s: &[u8]) -> Option<u32>
    ensures { result ≡ iv_of s.now }
{
    width_in(s.strip_prefix(b"iv\t")?)
}

// Two labels with a tab between them.
#[tactic(auto, using(crate::proofs::Fields::labels_laws))]
fn two_labels(s: &[u8]) -> Option<Labels>
    ensures { result ≡ labels_of s.now }
{
    let m = find(s, TAB)?;
    if is_label(&s[..m]) && is_label(&s[m + 1..]) {
        Some(Labels {
            customer: m,
            vehicle: s.len() - (m + 1),
        })
    } else {
        None
    }
}

// The labels of a line `own`, tab, customer, tab, vehicle, given without its newline.
#[tactic(auto, using(crate::proofs::Fields::own_laws))]
fn own_line(s: &[u8]) -> Option<Labels>
    ensures { result ≡ own_of s.now }
{
    two_labels(s.strip_prefix(b"own\t")?)
}

// The number of the first bad line among those after the first one, or None.
#[tactic(auto, using(crate::proofs::Driving::passed_laws))]
fn bad_line(s: &[u8]) -> Option<usize>
    ensures { result ≡ line_if (bad_from 2 (lines s.now)) }
{
    let mut t = s;
    let mut k = 0;
    while !t.is_empty() {
        let Some(e) = find(t, NEWLINE) else {
            return Some(FIRST_WIDTH_LINE + k);
        };
        // 16,384 lines with a width stand before it
        let full = k == MOST_WIDTHS;
        if full || iv_line(&t[..e]).is_none() {
            return Some(FIRST_WIDTH_LINE + k);
        }
        k += 1;
        t = &t[e + 1..];
    }
    None
}

// The lines after the first one, all of them good: each width goes to its word. Answers how many there are.
#[tactic(auto, using(crate::proofs::Driving::left_laws))]
fn lay_widths(s: &[u8], lent: &mut [u32]) -> usize
    requires s_value { bad_from 2 (lines s.now) ≡ 0 }
    requires most_widths_in_bounds { most_widths ≤ length lent.old }
    ensures { WidthsLaid s.now lent.old lent.new result }
{
    let mut t = s;
    let mut k = 0;
    while let Some(e) = find(t, NEWLINE) {
        // every line is good, so that it has a width
        lent[k] = iv_line(&t[..e]).unwrap();
        k += 1;
        t = &t[e + 1..];
    }
    k
}

// Judges an input, and lays its widths in the lent words where it is good. 16,384 words are asked for.
#[tactic(auto, using(crate::proofs::Exits::first_laws))]
pub fn judge(input: &[u8], lent: &mut [u32]) -> Result<GoodInput, InputRefusal>
    ensures { JudgePromise input.now lent.old lent.new result }
{
    if lent.len() < MOST_WIDTHS {
        return Err(InputRefusal::FewLentWords);
    }
    let Some(e) = find(input, NEWLINE) else {
        return Err(BAD_FIRST);
    };
    let Some(labels) = own_line(&input[..e]) else {
        return Err(BAD_FIRST);
    };
    after_own(&input[e + 1..], labels, lent)
}

// What follows a good first line: all lines are judged before a width is laid.
#[tactic(auto, using(crate::proofs::Exits::after_laws))]
fn after_own(s: &[u8], labels: Labels, lent: &mut [u32]) -> Result<GoodInput, InputRefusal>
    requires { most_widths ≤ length lent.old }
    ensures { AfterOwn labels s.now lent.old lent.new result }
{
    if let Some(line) = bad_line(s) {
        return Err(InputRefusal::Bad { line });
    }
    let widths = lay_widths(s, lent);
    Ok(GoodInput { labels, widths })
}
