// Arcs into joined states: 31 for a new state is judged before 32 for the arc into it.
ghost use Rattle.std.specs.Prelude.{◌≡◌, ◌/◌, ◌≤◌, ◌<◌, min};
ghost use Rattle.definitions.specs.Joining.{joined_size, most_joined};
ghost use Rattle.definitions.specs.Arcs.{arc};
ghost use Rattle.growing.specs.Steps.{arc_room};
ghost use Rattle.joined.specs.States.{joined_of, move_to, HasPlace, JoinedAdded};
ghost use Rattle.joined.specs.Joins.{Grows, Left, Holding, enters, JoinArcAdded};

use crate::finding::{find, key_of};
use crate::rows::put_joined;
use crate::{Join, Joined};
use arcs::Arc;
use definitions::{Fault, JOINED_SIZE, MOST_JOINED};
use growing::adding::add_arc;
use growing::linking::link;

// How many joined states the lent words have room for.
pub fn state_room(words: usize) -> usize
    ensures { result ≡ min (words / joined_size) most_joined }
{
    (words / JOINED_SIZE).min(MOST_JOINED)
}

// Puts a new state at the end of the table and at the front of its chain.
pub fn add_joined(states: &mut [u32], chains: &mut [u32], place: usize, x: Joined)
    requires { HasPlace states.old chains.old place }
    ensures { JoinedAdded (joined_of x) place states.old chains.old states.new
        chains.new }
{
    put_joined(states, place, x);
    link(chains, place, key_of(x));
}

impl Join<'_, '_, '_> {
    // Appends the arc from a joined state into one, which is added first if it is new. Inlined, so that the sizes stay in
    // registers from arc to arc.
    #[inline(always)]
    pub fn enter(&mut self, from: u32, target: Joined, model: u32, label: u32) -> Result<(), Fault>
        requires { Grows self.old }
        ensures left { Left self.old (enters self.old from (move_to (joined_of target) model label)) result self.new }
        ensures same { Holding self.old self.new }
    {
        let place = self.sizes.table;
        let states = &mut *self.states;
        let chains = &mut *self.chains;
        match find(&states[..JOINED_SIZE * place], chains, target) {
            Some(known) => self.add_arc(from, known, model, label),
            None => {
                if state_room(states.len()) <= place {
                    return Err(Fault::Crowd);
                }
                add_joined(states, chains, place, target);
                self.sizes.table = place + 1;
                self.add_arc(from, place, model, label)
            }
        }
    }

    // Appends an arc into the joined state at a place.
    #[inline(always)]
    fn add_arc(&mut self, from: u32, place: usize, model: u32, label: u32) -> Result<(), Fault>
        requires { (self.old.sizes.arcs ≤ arc_room self.old.arcs.now) × (place < most_joined) }
        ensures added { JoinArcAdded (arc from place model label) self.old result self.new }
        ensures same { Holding self.old self.new }
    {
        let arc = Arc {
            from,
            to: place as u32,
            model,
            phone: label,
        };
        self.sizes = add_arc(self.arcs, self.sizes, arc)?;
        Ok(())
    }
}
