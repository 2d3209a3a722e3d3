// The review of a list of seats that was made by hand.
#![tactic(auto)]

mod call;
mod entries;
mod steps;

pub use call::review;
use round::entry::Entry;

// What a review finds: the list passes; a candidate has a seat that is not in the row or a step that the institute does not give; or an
// entry above a candidate's seat would be chosen.
#[derive(Clone, Copy, Debug, PartialEq, Eq)]
pub enum Judgement {
    Passes,
    WrongSeat { candidate: usize },
    BetterEntry { candidate: usize, entry: Entry },
}
