// What a round is: institutes with their steps and merit lists, candidates with their rows. It speaks of no byte of a file.
#![tactic(auto)]

pub mod entry;
pub mod rule;
