// Lists of up to eight matrices, held in words: the length, then the matrices. The first 2n+1 words of a matrix are its
// columns; what stands after them, and after the last matrix, is not looked at. So working space is never cleared, and
// a matrix may take more words than it has columns.
// The half-width and the words are two parameters: what docs/MAP.md names here is promised of lent words as they are.
#![tactic(auto)]

pub mod comparing;
pub mod ending;
pub mod inserting;
pub mod joining;
pub mod meeting;
pub mod ordering;
pub mod places;
pub mod records;
pub mod shifting;
