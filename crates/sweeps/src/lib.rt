// The offers made in sweeps, and the accounts of the institutes when the process has ended.
#![tactic(auto)]

pub mod accounts;
pub mod choosing;
pub mod gather;
pub mod offering;
pub mod process;
pub mod scatter;
