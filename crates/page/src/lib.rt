// What the program prints: the page of a round's allotment, or the one line of a refusal.
#![tactic(auto)]

mod call;
mod lines;
mod reads;

pub use call::{page_room, put_page};
