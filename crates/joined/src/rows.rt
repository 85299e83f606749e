// The three words of a joined state.
ghost use Rattle.std.specs.Prelude.{◌≡◌, ◌+◌, ◌*◌, ◌≤◌, length};
ghost use Rattle.definitions.specs.Joining.{joined_size, joined_words};
ghost use Rattle.definitions.specs.Lists.{same};
ghost use Rattle.lines.specs.Putting.{put_at};
ghost use Rattle.joined.specs.States.{joined_of, joined_in, row_at};

use crate::Joined;
use definitions::JOINED_SIZE;

// The joined state at a place.
pub fn joined_at(states: &[u32], place: usize) -> Joined
    requires { joined_size * place + joined_size ≤ length states.now }
    ensures { joined_of result ≡ joined_in (row_at states.now place) }
{
    let at = JOINED_SIZE * place;
    Joined {
        state: states[at],
        word: states[at + 1],
        mark: states[at + 2],
    }
}

// Whether the words at a place are those of a joined state.
pub fn stands_at(states: &[u32], place: usize, x: Joined) -> bool
    requires { joined_size * place + joined_size ≤ length states.now }
    ensures { result ≡ same (row_at states.now place) (joined_words (joined_of x)) }
{
    joined_at(states, place) == x
}

// Writes the words of a joined state at a place.
pub fn put_joined(states: &mut [u32], place: usize, x: Joined)
    requires { joined_size * place + joined_size ≤ length states.old }
    ensures { states.new ≡ put_at (joined_size * place) (joined_words (joined_of x)) states.old }
{
    let at = JOINED_SIZE * place;
    states[at] = x.state;
    states[at + 1] = x.word;
    states[at + 2] = x.mark;
}
