// How the places fared in a round that is over.
ghost use Rattle.std.specs.Prelude.{◌-◌, ◌≤◌, ◌≡◌, ◌++◌, length, map, replicate};
ghost use Rattle.bench.specs.declared.Fared.TheVariants.{Idle};
ghost use Rattle.bench.specs.Stations.{most_stations};
ghost use Rattle.bench.specs.Round.{verdict_of};
ghost use Rattle.bench_line.specs.Lanes.{verdict_at};

use crate::sender::Sender;
use bench::{Fared, MOST_STATIONS, Verdict};

// How a place fared.
fn verdict(sender: &Sender) -> Verdict
    ensures { result ≡ verdict_at sender.now }
{
    let fared = if sender.lane.count == 0 {
        Fared::Idle
    } else {
        sender.lane.lost.map_or(Fared::Through, Fared::Lost)
    };
    Verdict { fared }
}

// The verdicts of a round that is over. The places past the senders are idle. By the place, since a proof knows nothing of what a
// zipped `iter_mut` has written.
#[tactic(auto, using(crate::specs::LoopLaws::fill_one, crate::specs::LoopLaws::fill_all))]
pub(crate) fn verdicts(senders: &[Sender]) -> [Verdict; MOST_STATIONS]
    requires { length senders.now ≤ most_stations }
    ensures { result ≡ map verdict_at senders.now ++ replicate (most_stations - length senders.now) (verdict_of Idle) }
{
    let mut all = [Verdict { fared: Fared::Idle }; MOST_STATIONS];
    for (i, sender) in senders.iter().enumerate() {
        all[i] = verdict(sender);
    }
    all
}
