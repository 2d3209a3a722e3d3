// Offers and seats: what the process comes to, its laws, and seats as bytes and as offers.
#![tactic(auto)]

pub mod list;
pub mod listed;
pub mod seats;
pub mod write;
