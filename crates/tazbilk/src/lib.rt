// The unit's calls as C and Rust make them, with numbers for answers; `tazbilk_c` has them in one archive.
#![tactic(auto)]

pub mod allotting;
pub mod reviewing;
