// The reader of a round file, and the opened round.
#![tactic(auto)]

pub mod access;
pub mod change;
pub mod opened;
pub mod reader;
pub mod records;
pub mod refusal;
pub mod rules;
