// Prints, as the proved code answers them, the check bytes, width classes, clocks and sent widths of document 01's worked
// cases, and published check vectors. An independent second program prints the same from the paper alone, and the two are
// compared line by line. The worked volts and rounds are proved in specs/ and not printed.
#![tactic(auto)]

mod checks;
mod symbols;

use std::io;

// The order of the lines is the second program's too.
fn main(rt: HostRuntime) -> io::Result<()> {
    checks::vectors(&rt)?;
    checks::single_bytes(&rt)?;
    symbols::windows::<false>(&rt)?;
    symbols::windows::<true>(&rt)?;
    symbols::clocks(&rt)?;
    symbols::widths_sent(&rt, false)?;
    symbols::widths_sent(&rt, true)
}
