// The bits of a round, one after the other: what the line does at each, and who stops.
ghost use Rattle.std.specs.Prelude.{◌≤◌, ◌≡◌, length};
ghost use Rattle.frame.specs.Writing.{most_words};
ghost use Rattle.bench_line.specs.Sending.{SendsBits};

use crate::lanes;
use crate::sender::Sender;
use bench::MOST_SENT;
use bench_lane::BITS_OF_BYTE;

// The most bits of a message, with those of its check byte.
const MOST_BITS: usize = BITS_OF_BYTE * MOST_SENT;

// The words before the first bit: the opening and the SOF.
pub const BEFORE_BITS: usize = 2;

// Sends the bits, a word for each, until nobody asks. Answers how many there were; each place's loss stands in its lane.
pub(crate) fn send_bits(senders: &mut [Sender], words: &mut [u32]) -> usize
    requires { most_words ≤ length words.old }
    ensures { SendsBits senders.old senders.new words.old words.new result }
{
    let mut active = false;
    let mut asked = lanes::all_ask(senders, active, 0);
    for j in 0..MOST_BITS {
        let Some(width) = asked else {
            return j;
        };
        words[BEFORE_BITS + j] = width;
        asked = lanes::hear(senders, active, j, lanes::on_line(active, width));
        active = !active;
    }
    MOST_BITS
}
