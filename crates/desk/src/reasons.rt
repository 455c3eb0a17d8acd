// Why an input is refused, in words on standard error.

// Tells why a line of an input is bad: lines are counted from 1. Where that cannot be written, nothing is left to be told.
pub(crate) fn tell(rt: &impl Eprint, input: &[u8], line: usize) {
    let _ = eprint!(rt; "desk: line {line}: ");
    let why = desk_reason::why_bad(input, line);
    let _ = eprintln!(rt; "{why}");
}
