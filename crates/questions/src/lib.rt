// The questions that are put to one record of a round file, and what its body says.
#![tactic(auto)]

pub mod candidate;
pub mod form;
pub mod head;
pub mod institute;
pub mod merit;
pub mod question;
pub mod row;
