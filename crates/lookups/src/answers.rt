// What an entry answered, in words.
use definitions::Refusal;
use showing::printing::print_numbers;
use std::io;
use transcripts::Tally;
use trees::Walked;

// Whether a refusal left the tables cleared.
pub fn print_cleared(
    rt: &impl Print,
    nodes: &[u32],
    classes: &[u64],
    roots: &[u32],
    plains: &[u32],
) -> io::Result<()> {
    if nodes.iter().all(|word| *word == 0) {
        print!(rt; ", nodes")?;
    }
    if classes.iter().all(|set| *set == 0) {
        print!(rt; ", classes")?;
    }
    if roots.iter().all(|word| *word == 0) {
        print!(rt; ", roots")?;
    }
    if plains.iter().all(|word| *word == 0) {
        print!(rt; ", plain phones")?;
    }
    println!(rt; " cleared")
}

// How many models there are and after how many questions, or the refusal.
pub fn print_transcript(rt: &impl Print, answer: Result<Tally, Refusal>) -> io::Result<()> {
    match answer {
        Ok(Tally { models, questions }) => {
            print!(rt; " {models} models after {questions} questions")
        }
        Err(refusal) => print!(rt; " {refusal}"),
    }
}

// A leaf's node and after how many questions, or the refusal.
pub fn print_lookup(rt: &impl Print, answer: Result<Walked, Refusal>) -> io::Result<()> {
    match answer {
        Ok(Walked { leaf, questions }) => print!(rt; " node {leaf} after {questions} questions"),
        Err(refusal) => print!(rt; " {refusal}"),
    }
}

// A line's beginning: a word, and phones.
pub fn print_phones(rt: &impl Print, word: &str, phones: &[u32]) -> io::Result<()> {
    print!(rt; "  {word}")?;
    print_numbers(rt, phones)?;
    print!(rt; ":")
}
