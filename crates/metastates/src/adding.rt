// Adding arcs and metastates to a network within its room: 31 for a new metastate is judged before 32 for
// the arc into it.
ghost use Rattle.std.specs.Prelude.{◌≡◌, ◌<◌, T};
ghost use Rattle.definitions.specs.Building.{most_metastates};
ghost use Rattle.definitions.specs.Arcs.{last_state};
ghost use Rattle.definitions.specs.ForeignTables.{header_known};
ghost use Rattle.arcs.specs.Arc.{the_arc};
ghost use Rattle.metastates.specs.Networks.{metastate_room, HasPlace};
ghost use Rattle.metastates.specs.Outcomes.{entered};
ghost use Rattle.metastates.specs.Steps.{StepLeft, MetastateAdded, into_arc};
ghost use Rattle.metastates.specs.Underway.{Placed, Entering};

use crate::Rules;
use crate::chains::{find, key_of};
use arcs::Arc;
use definitions::sizes::metastate_size;
use definitions::{Fault, Header, MOST_METASTATES, wide};
use growing::Sizes;
use growing::adding::add_arc;
use growing::linking::link;
use index::Follower;
use index::records::{model_of, phone_of};
use matrix::words::put_numbered;

// How many metastates the lent words have room for.
pub fn metastate_room(half: u32, metastates: &[u64]) -> usize
    ensures { result ≡ metastate_room half metastates.now }
{
    (metastates.len() / metastate_size(half)).min(MOST_METASTATES)
}

// The last state of the metastate at a place.
pub fn last_state(header: Header, place: usize) -> u32
    requires { T (header_known header) × (place < most_metastates) }
    ensures { result ≡ last_state header.states place }
{
    let last = 1 + (place + 1) * wide(header.states);
    last as u32
}

// The arc from a state into the metastate at a place: to its first state, with its first model and its phone.
fn arc_into(rules: Rules, from: u32, number: usize, place: usize) -> Arc
    requires { Placed rules.header rules.nodes.now rules.combinations.now number place }
    ensures { the_arc result
        ≡ into_arc rules.entry.header rules.entry.nodes.now rules.entry.combinations.now from number place }
{
    let header = rules.header;
    let to = 2 + place * wide(header.states);
    let model = model_of(header.half, rules.nodes, rules.combinations, number, 0);
    let phone = phone_of(header.half, rules.combinations, number);
    Arc {
        from,
        to: to as u32,
        model,
        phone,
    }
}

// Puts a new metastate at the end of the table and at the front of its chain.
fn add_metastate(
    half: u32,
    metastates: &mut [u64],
    chains: &mut [u32],
    place: usize,
    follower: Follower,
)
    requires { HasPlace half metastates.old chains.old place }
    ensures { MetastateAdded half follower place metastates.old chains.old
        metastates.new chains.new }
{
    let size = metastate_size(half);
    let at = size * place;
    let number = follower.number as u64;
    let m = follower.met;
    put_numbered(&mut metastates[at..at + size], 0, number, m);
    link(chains, place, key_of(number, m));
}

// Appends the arc from a state into a metastate, which is added first if it is new.
pub fn enter(
    rules: Rules,
    metastates: &mut [u64],
    arcs: &mut [u32],
    chains: &mut [u32],
    sizes: Sizes,
    from: u32,
    follower: Follower,
) -> Result<Sizes, Fault>
    requires { Entering rules.header rules.nodes.now rules.combinations.now metastates.old arcs.old chains.old
        sizes follower }
    ensures { StepLeft rules.entry.header rules.entry.combinations.now metastates.old arcs.old chains.old
        (entered rules.entry.header rules.entry.nodes.now rules.entry.combinations.now metastates.old arcs.old sizes
        from follower)
        result metastates.new arcs.new chains.new }
{
    let half = rules.header.half;
    let number = follower.number;
    let place = sizes.table;
    let used = &metastates[..metastate_size(half) * place];
    if let Some(known) = find(half, used, chains, number as u64, follower.met) {
        return add_arc(arcs, sizes, arc_into(rules, from, number, known));
    }
    if metastate_room(half, metastates) <= place {
        return Err(Fault::Crowd);
    }
    add_metastate(half, metastates, chains, place, follower);
    let next = Sizes {
        table: place + 1,
        arcs: sizes.arcs,
    };
    add_arc(arcs, next, arc_into(rules, from, number, place))
}
