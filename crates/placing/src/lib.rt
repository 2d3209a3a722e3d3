// Who is taken for reserved positions: the search for a place by augmenting paths, down the merit list.
#![tactic(auto)]

pub mod left;
pub mod placing;
pub mod take;
