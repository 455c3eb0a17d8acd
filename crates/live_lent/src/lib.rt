// The calls on a live reader that is lent, as document 02 has them: "lent to the call and changed in place". Each takes the
// reader out, hands it to the live reader by value, and puts back what comes of it.
#![tactic(auto)]

ghost use Rattle.std.specs.Prelude.{◌≡◌, length};
ghost use Rattle.live.specs.Feeding.{fed_of, lent_of, asked_of};

use live::Asked;
use live_answer::{HearRefusal, Heard};
use live_held::Live;
use units::Micros;

// One interval more. The bytes of a frame that it closes go into those lent, at least 12. A refusal changes nothing, and
// nothing is stored: a reader that cannot be written may be lent to a call that is refused.
pub fn hear(live: &mut Live, width: Micros, lent: &mut [u8]) -> Result<Heard, HearRefusal>
    ensures { (result ≡ (fed_of live.old width.0 (length lent.old)).heard)
        × (live.new ≡ (fed_of live.old width.0 (length lent.old)).live)
        × (lent.new ≡ lent_of live.old width.0 lent.old) }
{
    live::refusal(*live, lent.len())?;
    let fed = live::taken(*live, width, lent);
    *live = fed.live;
    fed.heard
}

// Whether a frame has begun and is unfinished, at the moment of asking. The reader is only looked at.
pub fn ask(live: &Live) -> Asked
    ensures { result ≡ asked_of live.now }
{
    live::ask(*live)
}
