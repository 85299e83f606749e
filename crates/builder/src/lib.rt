// Reading a tree book and building its network.
#![tactic(auto)]

pub mod building;
