// The types of those taken for use: of all placings the first, in lexicographic order down the merit list.
#![tactic(auto)]

pub mod first;
