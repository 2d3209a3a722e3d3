// The accounts of the institutes, when the process has ended: each chooses once more, from its seats. Its account is that of its choice from all
// offers ever made to it (`Rounds/AccountRound`).
ghost use Rattle.std.specs.Prelude.{◌≡◌, ◌<◌, length};
ghost use Rattle.reader.specs.AtHand.{round_at};
ghost use Rattle.sweeps.specs.Accounts.{AccountedAnew};

use crate::gather::Offers;
use crate::scatter::scatter;
use choice::account::place_closings;
use choice::step::Numbers;

impl Offers<'_> {
    // Institute j, from 0, chooses from its seats: the types that it uses are noted; returns the numbers of its account.
    pub fn account_anew(&self, j: usize, types: &mut [u8]) -> [Numbers; 12]
        requires j_lt_institutes { j < self.now.o.head.institutes }
        requires types_len { length types.old ≡ self.now.o.head.candidates }
        ensures { AccountedAnew (round_at self.now.o) j self.now.asked.now self.now.wanted.now
            types.old types.new result }
    {
        let mut who = [0; 512];
        let mut chosen = [0; 512];
        let mut used = [0; 512];
        let mut places = [0; 512];
        let mut noted = [Numbers::NONE; 12];
        let count = self.choose_listed(
            j,
            true,
            &mut who,
            &mut chosen,
            &mut used,
            &mut places,
            &mut noted,
        );
        place_closings(&places, &mut noted);
        scatter(&who[..count], &used, types);
        noted
    }
}
