// Offers as two tables have them, and those that an institute chooses from, in the order of its merit list.
ghost use Rattle.std.specs.Prelude.{◌≡◌, true, suc, ◌≤◌, ◌<◌, length};
ghost use Rattle.round.specs.Places.{institute_at};
ghost use Rattle.reader.specs.AtHand.{round_at};
ghost use Rattle.sweeps.specs.Sweeps.{offer_to, Gathered};

use reader::opened::Opened;

// Offers in a round: for each candidate the number of the institute that is asked, and a set of categories.
// Tables side by side, since the one of institutes is also that of the holders, which the caller of the process lends.
#[derive(Clone, Copy)]
pub struct Offers<'a> {
    pub o: Opened<'a, 'a>,
    pub asked: &'a [u16],
    pub wanted: &'a [u8],
    pub ghost each: { (length asked.now ≡ o.head.candidates) × (length wanted.now ≡ o.head.candidates) },
}

// The categories of candidate c's offer, by two tables, where it is made to the institute with a number, else none, which is the empty set.
#[tactic(auto, unfolding(crate::specs::Sweeps::offer_to))]
pub fn offer_to(asked: &[u16], wanted: &[u8], number: usize, c: usize) -> u8
    requires { (c < length asked.now) × (c < length wanted.now) }
    ensures { result ≡ offer_to number asked.now wanted.now c }
{
    if usize::from(asked[c]) == number {
        wanted[c]
    } else {
        0
    }
}

impl Offers<'_> {
    // Lists the offers to institute j, from 0, in the order of its merit list and, where places are asked for, with their places there; returns their
    // number. Slices, as `choose` takes them, so that a table of places is lent only where one is asked for.
    pub fn gather(
        &self,
        j: usize,
        placed: bool,
        who: &mut [u16],
        marks: &mut [u8],
        sets: &mut [u8],
        places: &mut [u16],
    ) -> usize
        requires j_lt_institutes { j < self.now.o.head.institutes }
        requires in_bounds { (512 ≤ length who.old) × (512 ≤ length marks.old) × (512 ≤ length sets.old) × (placed ≡ true → 512 ≤ length places.old) }
        ensures few { result ≤ 512 }
        ensures gathered { Gathered (round_at self.now.o) j
            (offer_to (suc j) self.now.asked.now self.now.wanted.now)
            placed (length (institute_at (round_at self.now.o) j).merit)
            who.new marks.new sets.new places.new result }
    {
        // By place, since `merit_place` takes the number, and more than one table is filled. Copied, since the compiler reads what is behind a reference anew after each write.
        let Offers { o, asked, wanted } = *self;
        let mut count = 0;
        for p in 0..o.merit_length(j) {
            let c = o.merit_place(j, p) - 1;
            let set = offer_to(asked, wanted, j + 1, c);
            if set != 0 {
                who[count] = c as u16;
                marks[count] = o.candidate_marks(c);
                sets[count] = set;
                if placed {
                    places[count] = p as u16;
                }
                count += 1;
            }
        }
        count
    }
}
