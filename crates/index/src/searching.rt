// The search for the combinations whose matrices meet a shifted matrix validly.
ghost use Rattle.std.specs.Prelude.{◌≡◌};
ghost use Rattle.matrix.specs.Shapes.{matrix_in};
ghost use Rattle.index.specs.Combinations.{combinations_in};
ghost use Rattle.index.specs.Following.{follows_at, Beyond, FollowerFound};
ghost use Rattle.index.specs.Seeking.{SeekingFrom, Tried, Failed};

use crate::Combinations;
use crate::indexing::next_member;
use crate::records::{count_of, matrix_of, phone_of};
use crate::rows::{Rows, next_marked};
use definitions::wide;
use matrix::Matrix;
use matrix::sets::has_phone;

impl Combinations<'_> {
    // Whether a combination's matrix meets a matrix validly; not tried where the centre lacks its phone.
    fn is_follower(self, number: usize, shifted: Matrix) -> bool
        requires { Tried self.header self.words.now number shifted.columns }
        ensures { result ≡ follows_at (matrix_in self.entry.header.half shifted.columns)
            (combinations_in self.entry.header self.entry.words.now) number }
    {
        let half = self.header.half;
        let n = wide(half);
        has_phone(shifted.columns[n], phone_of(half, self.words, number))
            && shifted.meets(matrix_of(half, self.words, number), 2 * n + 1)
    }

    // Where to look after a combination: at the next, or, where the centre lacks its phone, at the first of the
    // next phone that the centre has.
    fn after(self, number: usize, shifted: Matrix) -> usize
        requires { Failed self.header self.words.now self.index.now number shifted.columns }
        ensures { Beyond (matrix_in self.entry.header.half shifted.columns)
            (combinations_in self.entry.header self.entry.words.now) number result }
    {
        let header = self.header;
        let centre = shifted.columns[wide(header.half)];
        let phone = phone_of(header.half, self.words, number);
        if has_phone(centre, phone) {
            return number + 1;
        }
        match next_member(centre, phone + 1) {
            Some(next) if next <= header.phones => self.index[wide(next) - 1] as usize,
            _ => count_of(header.half, self.words),
        }
    }

    // The first combination from one on that meets a matrix validly. Only those in the rows for the matrix are tried.
    pub fn next_follower(self, rows: Rows, from: usize, shifted: Matrix) -> Option<usize>
        requires { SeekingFrom self.header self.words.now self.index.now rows from shifted.columns }
        ensures { FollowerFound (matrix_in self.entry.header.half shifted.columns)
            (combinations_in self.entry.header self.entry.words.now) from result }
    {
        let count = count_of(self.header.half, self.words);
        let mut next = next_marked(self.index, rows, from, count);
        // No `for`: combinations that are not marked, and phones not in the centre, are leapt over.
        while let Some(number) = next {
            if self.is_follower(number, shifted) {
                return Some(number);
            }
            next = next_marked(self.index, rows, self.after(number, shifted), count);
        }
        None
    }
}
