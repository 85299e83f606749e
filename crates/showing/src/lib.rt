// What the programs share: standard input read, numbers and refusals on standard output, how much of a buffer is used,
// and texts cut out below their titles.
#![tactic(auto)]

pub mod printing;
pub mod reading;
pub mod titles;
pub mod using;
