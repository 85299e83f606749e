// The line of 32 bytes written.
#![tactic(auto)]

pub mod writing;
