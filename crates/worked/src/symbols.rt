// The table of widths, the sending windows and the nominal clock, found by trying every width.
ghost use Rattle.std.specs.Prelude.{◌≡◌};
ghost use Rattle.symbol.specs.Sending.{only_where, sent_of};

use std::io;
use symbol::{Clock, END_SENT, Symbol};
use units::Micros;

// The last width that the sweep through the table tries: past the first one at which an active line is stuck.
const LAST_TRIED: u32 = 1000001;

// The last width that the sweeps through the sending windows try.
const LAST_CLOCK_TRIED: u32 = 300;

// The symbols, in the order in which the widths sent are printed.
const SYMBOLS: [Symbol; 9] = [
    Symbol::Noise,
    Symbol::Bit0,
    Symbol::Bit1,
    Symbol::Eod,
    Symbol::Sof,
    Symbol::Eof,
    Symbol::Ifs,
    Symbol::Break,
    Symbol::Stuck,
];

// A symbol's name, as document 01 has it.
fn name(symbol: Symbol) -> &'static str {
    match symbol {
        Symbol::Noise => "noise",
        Symbol::Bit0 => "bit 0",
        Symbol::Bit1 => "bit 1",
        Symbol::Eod => "EOD",
        Symbol::Sof => "SOF",
        Symbol::Eof => "EOF",
        Symbol::Ifs => "IFS",
        Symbol::Break => "break",
        Symbol::Stuck => "stuck",
    }
}

// The name of a level of the line.
fn level(active: bool) -> &'static str {
    if active { "active" } else { "passive" }
}

// One line: from this width on an interval is this symbol.
fn begins(rt: &impl Print, active: bool, width: u32, here: Symbol) -> io::Result<()> {
    println!(rt; "{} from {width}: {}", level(active), name(here))
}

// Every width up to the last tried, with a line for each at which the symbol changes; then the widest that there is.
pub(crate) fn windows<const ACTIVE: bool>(rt: &impl Print) -> io::Result<()> {
    let mut before = symbol::class(ACTIVE, Micros(0));
    begins(rt, ACTIVE, 0, before)?;
    for width in 1..=LAST_TRIED {
        let here = symbol::class(ACTIVE, Micros(width));
        if here != before {
            begins(rt, ACTIVE, width, here)?;
            before = here;
        }
    }
    let level = level(ACTIVE);
    let widest = u32::MAX;
    let name = name(symbol::class(ACTIVE, Micros(widest)));
    println!(rt; "{level} {widest}: {name}")
}

// Every width up to the last tried in a clock, with a line for each at which the clock becomes good or bad.
fn sending_window<C: Fn(u32) -> Clock>(rt: &impl Print, which: &str, clock: C) -> io::Result<()>
    requires { C.IsAlwaysCallable clock }
{
    let mut before = None;
    for width in 0..=LAST_CLOCK_TRIED {
        let good = symbol::good_clock(clock(width));
        if before != Some(good) {
            let said = if good { "good" } else { "bad" };
            println!(rt; "clock {which} from {width}: {said}")?;
        }
        before = Some(good);
    }
    Ok(())
}

// The sending windows, each found by one width of a clock that is otherwise nominal.
pub(crate) fn clocks(rt: &impl Print) -> io::Result<()> {
    let usual = symbol::nominal();
    sending_window(
        rt,
        "short",
        |width| Clock {
            short: Micros(width),
            ..usual
        },
    )?;
    sending_window(
        rt,
        "long",
        |width| Clock {
            long: Micros(width),
            ..usual
        },
    )?;
    sending_window(
        rt,
        "SOF",
        |width| Clock {
            sof: Micros(width),
            ..usual
        },
    )
}

// What is sent for a symbol that one level alone has.
fn only_where(has: bool, width: Micros) -> Option<Micros>
    ensures { result ≡ only_where has width }
{
    has.then_some(width)
}

// The width that a symbol is sent with at a level: a bit at either, the SOF at the active one, the EOD and the opening
// and closing end at the passive one.
fn sent(clock: Clock, active: bool, symbol: Symbol) -> Option<Micros>
    ensures { result ≡ sent_of clock active symbol }
{
    match symbol {
        Symbol::Bit0 => Some(symbol::bit_width(clock, active, false)),
        Symbol::Bit1 => Some(symbol::bit_width(clock, active, true)),
        Symbol::Sof => only_where(active, clock.sof),
        Symbol::Eod => only_where(!active, clock.sof),
        Symbol::Ifs => only_where(!active, Micros(END_SENT)),
        Symbol::Noise | Symbol::Eof | Symbol::Break | Symbol::Stuck => None,
    }
}

// What the nominal clock sends for each symbol at a level: its width, or that it is never sent.
pub(crate) fn widths_sent(rt: &impl Print, active: bool) -> io::Result<()> {
    let level = level(active);
    for symbol in SYMBOLS {
        let name = name(symbol);
        match sent(symbol::nominal(), active, symbol) {
            Some(width) => println!(rt; "{level} {name} is sent for {}", width.0)?,
            None => println!(rt; "{level} {name} is never sent")?,
        }
    }
    Ok(())
}
