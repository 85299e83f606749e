// Connecting by turns: the start metastates, then each turn expands the oldest unexpanded metastate.
ghost use Rattle.std.specs.Prelude.{◌≡◌, ◌<◌};
ghost use Rattle.metastates.specs.Outcomes.{started_in, turned_from, connected_in};
ghost use Rattle.metastates.specs.Steps.{StepLeft};
ghost use Rattle.followers.specs.Turns.{BetweenTurns};
ghost use Rattle.network.specs.Connected.{Connected};
ghost use Rattle.network.specs.Workspace.{Startable, Ready, Enough};

use crate::{Build, Totals};
use definitions::{Counts, Fault, Header, MOST_COMBINATIONS, MOST_METASTATES, Refusal, wide};
use followers::following::follow;
use followers::repeating::SPAN_SIZE;
use followers::{Search, Source};
use growing::Sizes;
use index::indexing::{BLOCK_SIZE, ENDS_SIZE, fill_index};
use matrix::Matrix;
use matrix::sets::all_phones;
use metastates::Rules;
use metastates::adding::metastate_room;
use turns::Turn;
use turns::expanding::expand;

// Space for fewer metastates than these gets short tables. There is a head and a link for each of so many metastates, a
// slot for a span of each, and an index of as many words.
const FEW: usize = 4096;

const SHORT_CHAINS: usize = 2 * FEW;

const SHORT_SPANS: usize = SPAN_SIZE * FEW;

const SHORT_INDEX: usize = FEW;

// Else there is one more head, link and slot than a network has metastates at most; and the index has the ends and, for
// each of 64 phones, a bit for each combination.
const MANY: usize = MOST_METASTATES + 1;

const LONG_CHAINS: usize = 2 * MANY;

const LONG_SPANS: usize = SPAN_SIZE * MANY;

const LONG_INDEX: usize = ENDS_SIZE + 64 * (MOST_COMBINATIONS / BLOCK_SIZE + 1);

// The start metastates and their arcs: the followers of a matrix with silence in its centre and left of it.
fn start(
    search: Search,
    metastates: &mut [u64],
    arcs: &mut [u32],
    chains: &mut [u32],
) -> Result<Sizes, Fault>
    requires { Startable search.rules.header search.rules.nodes.now search.rules.combinations.now search.index.now
        metastates.old arcs.old chains.old }
    ensures { StepLeft search.entry.rules.header search.entry.rules.combinations.now metastates.old arcs.old chains.old
        (started_in search.entry.rules.header search.entry.rules.nodes.now search.entry.rules.combinations.now
        metastates.old arcs.old)
        result metastates.new arcs.new chains.new }
{
    let header = search.rules.header;
    let before = Matrix::around(header.half, 1, 1, all_phones(header.phones));
    let source = Source {
        state: 0,
        sizes: Sizes { table: 0, arcs: 0 },
    };
    follow(search, metastates, arcs, chains, source, before)
}

// What the answer says of a network: the turns done, and the counts.
fn totals(header: Header, turns: u32, sizes: Sizes) -> Totals
    requires { (sizes.table < 4294967296) × (sizes.arcs < 4294967296) }
    ensures { result ≡ record {
      turns = turns;
      counts = record { states = header.states; metastates = sizes.table; arcs = sizes.arcs };
    } }
{
    Totals {
        turns,
        counts: Counts {
            states: header.states,
            metastates: sizes.table as u32,
            arcs: sizes.arcs as u32,
        },
    }
}

// Takes turns after the start, until none is left to expand, the limit is used up, or there is no room.
// The slices that grow stay apart: a struct of them would have to say in each contract which it keeps.
fn take_turns(
    search: Search,
    metastates: &mut [u64],
    arcs: &mut [u32],
    chains: &mut [u32],
    spans: &mut [u32],
    sizes: Sizes,
    limit: u32,
) -> Result<Build, Refusal>
    requires { BetweenTurns search.rules.header search.rules.nodes.now search.rules.combinations.now search.index.now
        metastates.old arcs.old chains.old spans.old sizes }
    ensures { Connected search.entry.rules.header metastates.old arcs.old
        (turned_from search.entry.rules.header search.entry.rules.nodes.now search.entry.rules.combinations.now
        metastates.old arcs.old sizes limit)
        result metastates.new arcs.new }
{
    let header = search.rules.header;
    let mut now = sizes;
    for turns in 0..limit {
        let place = wide(turns);
        if now.table <= place {
            return Ok(Build::Finished(totals(header, turns, now)));
        }
        let turn = Turn { place, sizes: now };
        now = expand(search, metastates, arcs, chains, spans, turn)?;
    }
    let all = totals(header, limit, now);
    if now.table <= wide(limit) {
        Ok(Build::Finished(all))
    } else {
        Ok(Build::Stopped(all))
    }
}

// Connects the combinations into cleared space, with so many words for chains, which makes more heads than the metastates
// have room for, for spans, and for an index of the combinations.
fn connect_with<const CHAINS: usize, const SPANS: usize, const INDEX: usize>(
    rules: Rules,
    ends: &[u32],
    metastates: &mut [u64],
    arcs: &mut [u32],
    limit: u32,
) -> Result<Build, Refusal>
    requires { Ready rules.header rules.nodes.now rules.combinations.now ends.now metastates.old arcs.old
        × Enough rules.header.half metastates.old CHAINS SPANS INDEX }
    ensures { Connected rules.entry.header metastates.old arcs.old
        (connected_in rules.entry.header rules.entry.nodes.now rules.entry.combinations.now metastates.old arcs.old
        limit)
        result metastates.new arcs.new }
{
    let mut chains = [0u32; CHAINS];
    let mut spans = [0u32; SPANS];
    let mut index = [0u64; INDEX];
    fill_index(rules.header, rules.combinations, ends, &mut index);
    let search = Search {
        rules,
        index: &index,
    };
    let sizes = start(search, metastates, arcs, &mut chains)?;
    take_turns(
        search,
        metastates,
        arcs,
        &mut chains,
        &mut spans,
        sizes,
        limit,
    )
}

// Connects the combinations into cleared space. Space for fewer than 4096 metastates gets short chains, few
// slots for spans and a short index, so that a small build clears few words.
pub fn connect(
    rules: Rules,
    ends: &[u32],
    metastates: &mut [u64],
    arcs: &mut [u32],
    limit: u32,
) -> Result<Build, Refusal>
    requires { Ready rules.header rules.nodes.now rules.combinations.now ends.now metastates.old arcs.old }
    ensures { Connected rules.entry.header metastates.old arcs.old
        (connected_in rules.entry.header rules.entry.nodes.now rules.entry.combinations.now metastates.old arcs.old
        limit)
        result metastates.new arcs.new }
{
    if metastate_room(rules.header.half, metastates) < FEW {
        connect_with::<SHORT_CHAINS, SHORT_SPANS, SHORT_INDEX>(rules, ends, metastates, arcs, limit)
    } else {
        connect_with::<LONG_CHAINS, LONG_SPANS, LONG_INDEX>(rules, ends, metastates, arcs, limit)
    }
}
