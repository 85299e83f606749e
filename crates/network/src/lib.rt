// The network: the start, the turns up to a limit, and the build from lent tables into lent space.
#![tactic(auto)]

pub mod building;
mod connecting;

use definitions::Counts;

// The turns that a build has done, and the counts of its network.
#[derive(Clone, Copy, PartialEq, Eq)]
pub struct Totals {
    pub turns: u32,
    pub counts: Counts,
}

// What a build that is not refused answers: finished, or stopped with a metastate still unexpanded.
#[derive(Clone, Copy, PartialEq, Eq)]
pub enum Build {
    Finished(Totals),
    Stopped(Totals),
}
