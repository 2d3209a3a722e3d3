// The unit's calls for C and Rust, in one archive: each export hands its call on to the function of `tazbilk` of its name.
#![tactic(auto)]

mod allotting;
mod reviewing;
