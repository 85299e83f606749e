// Prints meetings of matrices: how many columns were met, and whether in a valid matrix, or in which words.
#![tactic(auto)]

use definitions::wide;
use matrix::Matrix;
use showing::printing::print_numbers;
use std::io;

// The matrix of three columns, each of phone 1, phone 2 or both, by a number from 0 to 26.
fn small_matrix(i: u64) -> Matrix {
    Matrix {
        columns: [1 + i / 9 % 3, 1 + i / 3 % 3, 1 + i % 3, 0, 0, 0, 0],
    }
}

// A matrix of three columns, with all of them: how many columns they meet, and * where validly.
fn show_row(rt: &impl Print, a: Matrix) -> io::Result<()> {
    print_numbers(rt, &a.columns[..3])?;
    print!(rt; " |")?;
    for j in 0..27 {
        let b = small_matrix(j);
        let sign = if a.meets(b, 3) { '*' } else { '.' };
        print!(rt; " {}{sign}", a.meet(b, 3).count)?;
    }
    println!(rt; "")
}

// Columns 5 meet columns 7, but one column is 2, which has nothing in common with 5. All seven words are given, also
// those beyond the width.
fn show_column(rt: &impl Print, half: u32, column: usize) -> io::Result<()> {
    let mut others = [7u64; 7];
    if column < 7 {
        others[column] = 2;
    }
    let fives = Matrix { columns: [5u64; 7] };
    let met = fives.meet(Matrix { columns: others }, 2 * wide(half) + 1);
    print!(rt; "n {half}, column {column}: met {}:", met.count)?;
    print_numbers(rt, &met.matrix.columns)?;
    println!(rt; "")
}

fn main(rt: HostRuntime) -> io::Result<()> {
    println!(&rt;
        "At half-width 1, all pairs with columns of phones 1 and 2: columns met, * where valid"
    )?;
    for i in 0..27 {
        show_row(&rt, small_matrix(i))?;
    }
    println!(&rt; "Column by column: columns 5 meet columns 7, but one column is 2")?;
    // Each column in turn is 2, at each half-width.
    for half in 0..4 {
        for column in 0..7 {
            show_column(&rt, half, column)?;
        }
    }
    Ok(())
}
