// One institute chooses from the offers to it. In the second half of a sweep each institute that got an offer does, from the entries tried last that
// name it.
ghost use Rattle.std.specs.Prelude.{◌≡◌, true, suc, ◌≤◌, ◌<◌, length, replicate};
ghost use Rattle.choice.specs.Noted.{nothing_noted};
ghost use Rattle.reader.specs.AtHand.{round_at};
ghost use Rattle.sweeps.specs.Sweeps.{offer_to, ChosenListed, ChosenAnew, ChosenAll};

use crate::gather::Offers;
use crate::scatter::scatter;
use choice::choose_into;
use choice::step::Numbers;
use reader::rules::rules_of;
use round::rule::Rule;

impl Offers<'_> {
    // Institute j, from 0, chooses: lists who takes part, with the step of each and, with `first`, a flag as in `choose_into`, the type used, the place and
    // the numbers of its account; returns how many take part. The tables are lent, since tables that are returned are copied; inlined, since the compiler
    // then knows that the tables are apart.
    #[inline(always)]
    pub fn choose_listed(
        &self,
        j: usize,
        first: bool,
        who: &mut [u16],
        chosen: &mut [u8],
        used: &mut [u8],
        places: &mut [u16],
        noted: &mut [Numbers],
    ) -> usize
        requires j_lt_institutes { j < self.now.o.head.institutes }
        requires in_bounds { (512 ≤ length who.old) × (512 ≤ length chosen.old) × (512 ≤ length used.old) × (first ≡ true → 512 ≤ length places.old) }
        requires noted_value { first ≡ true → noted.old ≡ replicate 12 nothing_noted }
        ensures { ChosenListed (round_at self.now.o) j (offer_to (suc j) self.now.asked.now self.now.wanted.now)
            first who.new chosen.new used.new places.new noted.new result }
    {
        let mut marks = [0; 512];
        let mut sets = [0; 512];
        let mut table = [Rule::NONE; 12];
        let count = self.gather(j, first, who, &mut marks, &mut sets, places);
        let step_count = rules_of(&self.o.steps(j), &mut table);
        choose_into(
            &table[..step_count],
            self.o.head.types,
            &marks[..count],
            &sets[..count],
            first,
            first,
            &mut chosen[..count],
            &mut used[..count],
            noted,
        );
        count
    }

    // Institute j, from 0, chooses, and the steps of those who take part are put into the table. No place and no number is asked for, and their tables
    // have none.
    pub fn choose_anew(&self, j: usize, steps: &mut [u8])
        requires j_lt_institutes { j < self.now.o.head.institutes }
        requires steps_len { length steps.old ≡ self.now.o.head.candidates }
        ensures { ChosenAnew (round_at self.now.o) j self.now.asked.now self.now.wanted.now
            steps.old steps.new }
    {
        let mut who = [0; 512];
        let mut chosen = [0; 512];
        let mut used = [0; 512];
        let count = self.choose_listed(
            j,
            false,
            &mut who,
            &mut chosen,
            &mut used,
            &mut [],
            &mut [],
        );
        scatter(&who[..count], &chosen, steps);
    }

    // Each institute that got an offer, and so has a mark other than 0, chooses.
    // Marks are numbers, since `ChosenAll` speaks of every number.
    pub fn choose_all(&self, fresh: &[u8], steps: &mut [u8])
        requires steps_len { (length steps.old ≡ self.now.o.head.candidates) × (length fresh.now ≡ 1000) }
        ensures { ChosenAll (round_at self.now.o) self.now.asked.now self.now.wanted.now fresh.now self.now.o.head.institutes
            steps.old steps.new }
    {
        for (j, &mark) in fresh[..self.o.head.institutes].iter().enumerate() {
            if mark != 0 {
                self.choose_anew(j, steps);
            }
        }
    }
}
