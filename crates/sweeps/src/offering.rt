// The first half of a sweep: everybody who may offer offers the best untried entry, each once.
ghost use Rattle.std.specs.Prelude.{◌≡◌, ◌^◌, ◌<◌, length, get_or};
ghost use Rattle.reader.specs.AtHand.{round_at};
ghost use Rattle.offers.specs.Rows.{row_at};
ghost use Rattle.sweeps.specs.Sweeps.{may_try, OfferMade, OffersMade};

use reader::opened::Opened;
use round::entry::Entry;

// Whether candidate i, from 0, has no step and an untried entry.
#[tactic(auto, unfolding(crate::specs::Sweeps::may_try))]
fn may_try(o: &Opened<'_, '_>, tried: &[u8], steps: &[u8], i: usize) -> bool
    requires i_lt_candidates { i < o.now.head.candidates }
    requires i_in_bounds { (i < length tried.now) × (i < length steps.now) }
    ensures { result ≡ may_try (round_at o.now) tried.now steps.now i }
{
    steps[i] == 0 && usize::from(tried[i]) < o.row_length(i)
}

// Candidate i, from 0, offers the best untried entry.
fn offer_next(
    o: &Opened<'_, '_>,
    i: usize,
    tried: &mut [u8],
    asked: &mut [u16],
    wanted: &mut [u8],
    fresh: &mut [u8],
)
    requires i_lt_candidates { i < o.now.head.candidates }
    requires i_in_bounds { get_or tried.old i 0 < length (row_at (round_at o.now) i) }
    requires i_in_bounds_2 { (i < length tried.old) × (i < length asked.old) × (i < length wanted.old)
        × (length fresh.old ≡ 1000) }
    ensures { OfferMade (round_at o.now) i
        tried.old asked.old wanted.old fresh.old
        tried.new asked.new wanted.new fresh.new }
{
    let Entry {
        institute,
        category,
    } = o.row_entry(i, usize::from(tried[i]));
    tried[i] += 1;
    asked[i] = institute as u16;
    wanted[i] = category.set();
    fresh[institute - 1] = 1;
}

// Everybody who may offers the best untried entry, each once, in number order; returns how many did. A loop over the candidates, since each offer writes all
// tables.
// The tables are parameters by themselves: a struct of them would be made for the one call of each of these functions.
pub fn offer_all(
    o: &Opened<'_, '_>,
    steps: &[u8],
    tried: &mut [u8],
    asked: &mut [u16],
    wanted: &mut [u8],
    fresh: &mut [u8],
) -> usize
    requires steps_len { (length steps.now ≡ o.now.head.candidates)
        × (length tried.old ≡ o.now.head.candidates)
        × (length asked.old ≡ o.now.head.candidates)
        × (length wanted.old ≡ o.now.head.candidates)
        × (length fresh.old ≡ 1000) }
    ensures { OffersMade (round_at o.now) steps.now
        tried.old asked.old wanted.old
        tried.new asked.new wanted.new fresh.new result }
{
    let mut made = 0;
    for i in 0..o.head.candidates {
        if may_try(o, tried, steps, i) {
            offer_next(o, i, tried, asked, wanted, fresh);
            made += 1;
        }
    }
    made
}
