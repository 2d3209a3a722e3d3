// The steps that the institutes give when they choose from the listed seats, and the first seat that is wrong.
ghost use Rattle.std.specs.Prelude.{◌≡◌, ◌<◌, length, replicate};
ghost use Rattle.reader.specs.AtHand.{round_at};
ghost use Rattle.review.specs.Search.{FirstOf};
ghost use Rattle.review.specs.Tables.{StepsGiven, wrong_by};

use offers::listed::Listed;
use reader::opened::Opened;
use sweeps::gather::Offers;

// Every institute chooses from the offers to it, which two tables have, side by side as `Offers` takes them.
pub fn give_steps(o: &Opened<'_, '_>, asked: &[u16], wanted: &[u8], steps: &mut [u8])
    requires asked_len { (length asked.now ≡ o.now.head.candidates) × (length wanted.now ≡ o.now.head.candidates) × (steps.old ≡ replicate o.now.head.candidates 0) }
    ensures { StepsGiven (round_at o.now) asked.now wanted.now steps.new }
{
    let offers = Offers {
        o: *o,
        asked,
        wanted,
    };
    offers.choose_all(&[1; 1000], steps);
}

// Whether candidate i's seat is wrong, by the offers and the steps given.
fn is_wrong(listed: &Listed<'_>, asked: &[u16], steps: &[u8], i: usize) -> bool
    requires { (i < listed.now.o.head.candidates) × (length asked.now ≡ listed.now.o.head.candidates) × (length steps.now ≡ listed.now.o.head.candidates) }
    ensures { result ≡ wrong_by listed.now.o.head.form listed.now.list.now asked.now steps.now i }
{
    let institute = listed.institute(i);
    let step = listed.step(i);
    if institute == 0 && step == 0 {
        return false;
    }
    asked[i] == 0 || usize::from(steps[i]) != step
}

// The first candidate whose seat is wrong, from 0.
pub fn first_wrong(listed: &Listed<'_>, asked: &[u16], steps: &[u8]) -> Option<usize>
    requires { (length asked.now ≡ listed.now.o.head.candidates) × (length steps.now ≡ listed.now.o.head.candidates) }
    ensures { FirstOf result (length asked.now) (wrong_by listed.now.o.head.form listed.now.list.now asked.now steps.now) }
{
    (0..asked.len()).find(|i| is_wrong(listed, asked, steps, *i))
}
