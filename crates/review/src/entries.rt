// The entries above the seats: the first that its institute would choose if that one entry were added to its listed seats.
// The tables are lent one by one: behind `&mut self` each contract would have to say too that the tables are as before.
ghost use Rattle.std.specs.Prelude.{◌≡◌, not, ◌&&◌, suc, ◌≤◌, ◌<◌, eqb, length, set};
ghost use Rattle.round.specs.Places.{candidate_at, entry_at, step_numbers};
ghost use Rattle.reader.specs.AtHand.{round_at};
ghost use Rattle.offers.specs.Offers.{step_for};
ghost use Rattle.offers.specs.Rows.{row_at, same_category, category_at};
ghost use Rattle.sweeps.specs.Sweeps.{offer_to, offers_by};
ghost use Rattle.review.specs.Finding.{would_take, entry_finding};
ghost use Rattle.review.specs.Outcome.{finding_of};
ghost use Rattle.offers.specs.AtHand.{seats_at};
ghost use Rattle.offers.specs.Listed.{AllRead};
ghost use Rattle.review.specs.Search.{BestEntry};
ghost use Rattle.review.specs.Tables.{asked_with, wanted_with, offers_with};

use crate::Judgement;
use offers::listed::Listed;
use reader::opened::Opened;
use round::entry::{Category, Entry};
use sweeps::gather::{Offers, offer_to};

// Adds candidate i's entry of a category at the institute with a number.
#[tactic(auto, unfolding(crate::specs::Tables::asked_with, crate::specs::Tables::wanted_with))]
fn add_entry(asked: &mut [u16], wanted: &mut [u8], i: usize, number: usize, category: Category)
    requires { (i < length asked.old) × (length wanted.old ≡ length asked.old) × (number < 65536) }
    ensures { (asked.new ≡ asked_with number i asked.old)
        × (wanted.new ≡ wanted_with number i category asked.old wanted.old) }
{
    wanted[i] = offer_to(asked, wanted, number, i) | category.set();
    asked[i] = number as u16;
}

// Puts back what stood in the tables for candidate i.
fn put_back(asked: &mut [u16], wanted: &mut [u8], i: usize, number: u16, categories: u8)
    requires { (i < length asked.old) × (length wanted.old ≡ length asked.old) }
    ensures { (asked.new ≡ set asked.old i number) × (wanted.new ≡ set wanted.old i categories) }
{
    asked[i] = number;
    wanted[i] = categories;
}

// The step that institute j, from 0, gives candidate i when it chooses from the offers to it.
fn step_anew(offers: &Offers<'_>, steps: &mut [u8], i: usize, j: usize) -> u8
    requires i_lt_candidates { (i < offers.now.o.head.candidates) × (j < offers.now.o.head.institutes) }
    requires steps_len { length steps.old ≡ offers.now.o.head.candidates }
    ensures { result ≡ step_for (round_at offers.now.o) j (offers_by (offer_to (suc j) offers.now.asked.now offers.now.wanted.now)) i }
{
    steps[i] = 0;
    offers.choose_anew(j, steps);
    steps[i]
}

// The step that institute j, from 0, gives candidate i where i's entry of a category there is added; the tables of offers are as before.
fn step_with(
    o: &Opened<'_, '_>,
    asked: &mut [u16],
    wanted: &mut [u8],
    steps: &mut [u8],
    i: usize,
    j: usize,
    category: Category,
) -> u8
    requires i_lt_candidates { (i < o.now.head.candidates) × (j < o.now.head.institutes) }
    requires asked_len { (length asked.old ≡ o.now.head.candidates) × (length wanted.old ≡ o.now.head.candidates) × (length steps.old ≡ o.now.head.candidates) }
    ensures { (result ≡ step_for (round_at o.now) j (offers_with j i category asked.old wanted.old) i)
        × (asked.new ≡ asked.old) × (wanted.new ≡ wanted.old) }
{
    let number = asked[i];
    let categories = wanted[i];
    add_entry(asked, wanted, i, j + 1, category);
    let offers = Offers {
        o: *o,
        asked,
        wanted,
    };
    let step = step_anew(&offers, steps, i, j);
    put_back(asked, wanted, i, number, categories);
    step
}

// Whether a step of institute j, from 0, takes entries of a category; 0 is no step.
fn takes(o: &Opened<'_, '_>, j: usize, step: usize, category: Category) -> bool
    requires j_lt_institutes { (j < o.now.head.institutes) × (step ≤ step_numbers (round_at o.now) j) }
    ensures { result ≡ (not (eqb step 0) && same_category (category_at (round_at o.now) j step) category) }
{
    step != 0 && o.step_category(j, step) == category
}

// Whether the entry at place k of candidate i's row would be chosen if that one entry were added; the tables of offers are as before.
fn would_take(
    listed: &Listed<'_>,
    asked: &mut [u16],
    wanted: &mut [u8],
    steps: &mut [u8],
    i: usize,
    k: usize,
) -> bool
    requires all_read { AllRead (round_at listed.now.o) listed.now.o.head.form listed.now.list.now asked.old wanted.old }
    requires i_lt_candidates { (i < listed.now.o.head.candidates) × (k < length (row_at (round_at listed.now.o) i)) × (length steps.old ≡ listed.now.o.head.candidates) }
    ensures { (result ≡ would_take (round_at listed.now.o) (seats_at listed.now) i (entry_at (candidate_at (round_at listed.now.o) i) k))
        × (asked.new ≡ asked.old) × (wanted.new ≡ wanted.old) }
{
    let entry = listed.o.row_entry(i, k);
    let j = entry.institute - 1;
    let step = step_with(&listed.o, asked, wanted, steps, i, j, entry.category);
    takes(&listed.o, j, usize::from(step), entry.category)
}

// The best of the entries above candidate i's seat that would be chosen; the tables of offers are as before.
fn best_entry(
    listed: &Listed<'_>,
    asked: &mut [u16],
    wanted: &mut [u8],
    steps: &mut [u8],
    i: usize,
) -> Option<Entry>
    requires all_read { AllRead (round_at listed.now.o) listed.now.o.head.form listed.now.list.now asked.old wanted.old }
    requires i_lt_candidates { (i < listed.now.o.head.candidates) × (length steps.old ≡ listed.now.o.head.candidates) }
    ensures { BestEntry (round_at listed.now.o) (seats_at listed.now) i result
        × (asked.new ≡ asked.old) × (wanted.new ≡ wanted.old) }
{
    // A loop, since each test writes the tables, which `find` would hide.
    for k in 0..listed.entries_above(i) {
        if would_take(listed, asked, wanted, steps, i, k) {
            return Some(listed.o.row_entry(i, k));
        }
    }
    None
}

// The first candidate with an entry above the seat that would be chosen, and the best such entry; else the list passes.
pub fn find_entry(
    listed: &Listed<'_>,
    asked: &mut [u16],
    wanted: &mut [u8],
    steps: &mut [u8],
) -> Judgement
    requires all_read { AllRead (round_at listed.now.o) listed.now.o.head.form listed.now.list.now asked.old wanted.old }
    requires steps_len { length steps.old ≡ listed.now.o.head.candidates }
    ensures { finding_of result ≡ entry_finding (round_at listed.now.o) (seats_at listed.now) }
{
    // A loop, since each search writes the tables, which `find_map` would hide.
    for i in 0..listed.o.head.candidates {
        if let Some(entry) = best_entry(listed, asked, wanted, steps, i) {
            return Judgement::BetterEntry {
                candidate: i + 1,
                entry,
            };
        }
    }
    Judgement::Passes
}
