// The process, in sweeps: everybody who may offer offers the best untried entry, each once; then each institute that got an offer chooses
// once, from the entries tried last that name it; until nobody may offer. Document 01 lets the lowest-numbered candidate go first, and each
// institute choose from all offers ever made to it. Whoever may offer still may after others have offered, so a sweep is a run of single
// offers in number order (`Rounds/Sweeps`), and offers in any order end alike (`Rounds/AnyOrder`); the entries tried last give the same
// steps as all offers (`Rounds/Last`).
ghost use Rattle.std.specs.Prelude.{◌≡◌, length, replicate};
ghost use Rattle.reader.specs.AtHand.{round_at};
ghost use Rattle.offers.specs.Process.{offers_made, seats};
ghost use Rattle.offers.specs.Held.{HeldIn};
ghost use Rattle.sweeps.specs.Sweeps.{settled};

use crate::gather::Offers;
use crate::offering::offer_all;
use reader::opened::Opened;

// Sweeps from the state in which nothing is tried and nobody held, until nobody offers, which no number of turns tells beforehand; returns how many offers
// were made. Tables side by side, as `Offers` takes them.
fn sweep_all(
    o: &Opened<'_, '_>,
    tried: &mut [u8],
    asked: &mut [u16],
    wanted: &mut [u8],
    steps: &mut [u8],
) -> usize
    requires tried_value { (tried.old ≡ replicate o.now.head.candidates 0)
        × (asked.old ≡ replicate o.now.head.candidates 0)
        × (steps.old ≡ replicate o.now.head.candidates 0)
        × (length wanted.old ≡ o.now.head.candidates) }
    ensures { (result ≡ offers_made (round_at o.now))
        × (length asked.new ≡ o.now.head.candidates)
        × (length steps.new ≡ o.now.head.candidates)
        × HeldIn (seats (round_at o.now)) (settled asked.new steps.new) steps.new }
{
    let mut count = 0;
    let mut fresh = [0; 1000];
    loop {
        fresh[..o.head.institutes].fill(0);
        let made = offer_all(o, steps, tried, asked, wanted, &mut fresh);
        if made == 0 {
            return count;
        }
        let offers = Offers {
            o: *o,
            asked,
            wanted,
        };
        offers.choose_all(&fresh, steps);
        count += made;
    }
}

// Whoever has no step has no holder. By index, since a proof has no values behind `iter_mut().zip`.
fn drop_holders(steps: &[u8], holders: &mut [u16])
    requires { length holders.old ≡ length steps.now }
    ensures { holders.new ≡ settled holders.old steps.now }
{
    for (i, &step) in steps.iter().enumerate() {
        if step == 0 {
            holders[i] = 0;
        }
    }
}

// The offers of the process of an accepted file, from tables of zeros: returns their number, at most that of the entries, and leaves the holder
// and the step of each candidate, 0 and 0 for none as `HeldIn` has it.
pub fn run_offers(o: &Opened<'_, '_>, holders: &mut [u16], steps: &mut [u8]) -> usize
    requires holders_value { (holders.old ≡ replicate o.now.head.candidates 0) × (steps.old ≡ replicate o.now.head.candidates 0) }
    ensures { (result ≡ offers_made (round_at o.now))
        × HeldIn (seats (round_at o.now)) holders.new steps.new }
{
    let n = o.head.candidates;
    let mut tried = [0; 512];
    let mut wanted = [0; 512];
    let count = sweep_all(o, &mut tried[..n], holders, &mut wanted[..n], steps);
    drop_holders(steps, holders);
    count
}
