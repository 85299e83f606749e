// One turn: a metastate's own arcs and the arc to FINAL, then the arcs to its followers.
ghost use Rattle.std.specs.Prelude.{List, [], ◌∷◌, ◌++◌};
ghost use Rattle.definitions.specs.Arcs.{Arc, arc};
ghost use Rattle.metastates.specs.Outcomes.{metastate_of, expanded_at};
ghost use Rattle.metastates.specs.Underway.{Placed};
ghost use Rattle.followers.specs.Turns.{TurnLeft, Expandable};
ghost use Rattle.turns.specs.Arcs.{AreArcs, Addable, own_of, plain_of};

use crate::appending::add_arcs;
use crate::{Arcs, Turn};
use arcs::putting::put_arc;
use definitions::{Fault, wide};
use followers::repeating::follow_on;
use followers::{Expanded, Search};
use growing::Sizes;
use index::Follower;
use index::records::{metastate_at, model_of, phone_of};
use matrix::sets::all_phones;
use metastates::Rules;
use metastates::adding::last_state;

impl Arcs {
    // These arcs and one more.
    fn with_arc(self, from: usize, to: usize, model: u32) -> Arcs
        requires { Addable self from to }
        ensures { (arcs : List Arc) → AreArcs self arcs → AreArcs result (arcs ++ (arc from to model 0 ∷ [])) }
    {
        let mut words = self.words;
        let arc = arcs::Arc {
            from: from as u32,
            to: to as u32,
            model,
            phone: 0,
        };
        put_arc(&mut words, self.count, arc);
        Arcs {
            count: self.count + 1,
            words,
        }
    }
}

// The arcs between a metastate's own states, with the target's model.
fn own_arcs(rules: Rules, place: usize, number: usize) -> Arcs
    requires { Placed rules.header rules.nodes.now rules.combinations.now number place }
    ensures { AreArcs result (own_of rules.entry.header rules.entry.nodes.now rules.entry.combinations.now place
        (record { number = number; carried = [] })) }
{
    let header = rules.header;
    let states = wide(header.states);
    let first = 2 + place * states;
    let mut new = Arcs {
        count: 0,
        words: [0; 12],
    };
    for state in 1..states {
        let model = model_of(header.half, rules.nodes, rules.combinations, number, state);
        new = new.with_arc(first + state - 1, first + state, model);
    }
    new
}

// A metastate's own arcs, and the arc to FINAL where it may end.
fn plain_arcs(rules: Rules, place: usize, q: Follower) -> Arcs
    requires { Placed rules.header rules.nodes.now rules.combinations.now q.number place }
    ensures { AreArcs result (plain_of rules.entry.header rules.entry.nodes.now rules.entry.combinations.now place
        (metastate_of rules.entry.header.half q)) }
{
    let header = rules.header;
    let own = own_arcs(rules, place, q.number);
    if phone_of(header.half, rules.combinations, q.number) == 1 && q.met.ends_here(header.half) {
        own.with_arc(wide(last_state(header, place)), 1, 0)
    } else {
        own
    }
}

// One turn: appends the plain arcs of the metastate at a place, then the arcs to its followers.
pub fn expand(
    search: Search,
    metastates: &mut [u64],
    arcs: &mut [u32],
    chains: &mut [u32],
    spans: &mut [u32],
    turn: Turn,
) -> Result<Sizes, Fault>
    requires { Expandable search.rules.header search.rules.nodes.now search.rules.combinations.now search.index.now
        metastates.old arcs.old chains.old spans.old turn.sizes turn.place }
    ensures { TurnLeft search.entry.rules.header search.entry.rules.nodes.now search.entry.rules.combinations.now
        metastates.old arcs.old chains.old spans.old
        (expanded_at search.entry.rules.header search.entry.rules.nodes.now search.entry.rules.combinations.now
        metastates.old arcs.old turn.sizes turn.place)
        result metastates.new arcs.new chains.new spans.new }
{
    let place = turn.place;
    let header = search.rules.header;
    let q = metastate_at(header.half, metastates, place);
    let sizes = add_arcs(arcs, turn.sizes, plain_arcs(search.rules, place, q))?;
    let shifted = q
        .met
        .shift(2 * wide(header.half), all_phones(header.phones));
    let expanded = Expanded {
        place,
        shifted,
        sizes,
    };
    follow_on(search, metastates, arcs, chains, spans, expanded)
}
