// What records say: of combinations phone, matrix and the models of their leaves; of metastates number and matrix.
ghost use Rattle.std.specs.Prelude.{◌≡◌, ◌≤◌};
ghost use Rattle.definitions.specs.Metastates.{metastate_size};
ghost use Rattle.index.specs.RecordWords.{RecordWithin, IsRecord, count_in, IsListed, HasPhone, HasLeaf};
ghost use Rattle.index.specs.RecordWords.{phone_word, own_columns, model_word, IsMetastate};

use crate::Follower;
use definitions::sizes::{combination_size, metastate_size};
use matrix::Matrix;
use matrix::words::matrix_at;
use tables::records::node_at;

// The record at a place, of so many words.
pub fn record_at(words: &[u64], size: usize, place: usize) -> &[u64]
    requires { RecordWithin size words.now place }
    ensures { IsRecord size words.now place result.now }
{
    let from = size * place;
    &words[from..from + size]
}

// How many combinations stand in words.
pub fn count_of(half: u32, combinations: &[u64]) -> usize
    ensures { result ≡ count_in half combinations.now }
{
    combinations.len() / combination_size(half)
}

// The phone of a combination.
// Half-width and words stay apart here and below: the pages name what these three promise of lent words.
pub fn phone_of(half: u32, combinations: &[u64], number: usize) -> u32
    requires { HasPhone half combinations.now number }
    ensures { result ≡ phone_word half combinations.now number }
{
    record_at(combinations, combination_size(half), number)[0] as u32
}

// The matrix of a combination.
pub fn matrix_of(half: u32, combinations: &[u64], number: usize) -> Matrix
    requires { IsListed half combinations.now number }
    ensures { result.columns ≡ own_columns half combinations.now number }
{
    matrix_at(record_at(combinations, combination_size(half), number), 4)
}

// The model of a combination's state; states count from 0 here.
pub fn model_of(half: u32, nodes: &[u32], combinations: &[u64], number: usize, state: usize) -> u32
    requires { HasLeaf half combinations.now number state }
    ensures { result ≡ model_word half combinations.now number nodes.now state }
{
    let record = record_at(combinations, combination_size(half), number);
    node_at(nodes, record[1 + state] as u32).value
}

// The metastate at a place.
pub fn metastate_at(half: u32, metastates: &[u64], place: usize) -> Follower
    requires { (half ≤ 3) × RecordWithin (metastate_size half) metastates.now place }
    ensures { IsMetastate half metastates.now place result }
{
    let record = record_at(metastates, metastate_size(half), place);
    Follower {
        number: record[0] as usize,
        met: matrix_at(record, 1),
    }
}
