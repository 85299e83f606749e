// The models that the trees give to a phone sequence, and how many questions were put for them.
#![tactic(auto)]

mod sequences;
pub mod transcription;

// What a transcription gives beside its models: how many there are, and how many questions were put in all.
#[derive(Clone, Copy, PartialEq, Eq)]
pub struct Tally {
    pub models: usize,
    pub questions: u64,
}

// What the walk for a state found: the model at its leaf, and how many questions were met.
#[derive(Clone, Copy, PartialEq, Eq)]
struct Found {
    model: u32,
    questions: u32,
}
