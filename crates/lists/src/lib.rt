// The number that two bytes make, and the laws of lists and counts that every layer above shares.
#![tactic(auto)]

pub mod word;
