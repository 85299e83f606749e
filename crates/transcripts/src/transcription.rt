// The models of a phone sequence and how many questions were put for them, by lent tables: 18, then 41, then 33.
ghost use Rattle.std.specs.Prelude.{[], ◌≡◌, ◌*◌, ◌≤◌, ◌<◌, T, length, get_or};
ghost use Rattle.definitions.specs.BookLines.{is_phone};
ghost use Rattle.definitions.specs.Lists.{every};
ghost use Rattle.definitions.specs.Lookup.{is_context};
ghost use Rattle.definitions.specs.Said.{result_of};
ghost use Rattle.definitions.specs.Transcription.{reached_for, is_utterance, transcribe, models_left};
ghost use Rattle.definitions.specs.TreesGive.{contexts};
ghost use Rattle.tables.specs.Lending.{lent_tables};
ghost use Rattle.tables.specs.Trees.{trees_book};
ghost use Rattle.transcripts.specs.Answers.{found_of, tally_of, StatesGiven, PlacesGiven};

use crate::sequences::{fill_context, is_utterance};
use crate::{Found, Tally};
use definitions::{Fault, Header, Refusal, wide};
use tables::forcing::{MOST_ROOTS, roots_in_force};
use tables::foreign::tables_known;
use tables::records::node_at;
use tables::roots::root_of;
use tables::trees::Trees;
use trees::walking::walk;

// What a context reaches in the tree of its own phone, for a state: the model at the leaf, and the questions met.
fn reached_for(trees: Trees, context: &[u32], state: u32) -> Found
    requires { T (is_context trees.header context.now) × (1 ≤ state) × (state ≤ trees.header.states) }
    ensures { result ≡ found_of (reached_for (trees_book trees.entry) context.now state) }
{
    let header = trees.header;
    let nodes = trees.nodes;
    let half = wide(header.half);
    let phone = context[half];
    let root = root_of(header, trees.roots, phone, state);
    let count = wide(header.classes);
    let classes = &trees.classes[..count];
    let walked = walk(header, |node| node_at(nodes, node), classes, context, root);
    let record = node_at(nodes, walked.leaf);
    Found {
        model: record.value,
        questions: walked.questions,
    }
}

// The models of a context, the states ascending; answers how many questions were met for them.
fn models_of(trees: Trees, context: &[u32], models: &mut [u32]) -> u64
    requires { T (is_context trees.header context.now) × (length models.old ≡ trees.header.states) }
    ensures { StatesGiven (trees_book trees.entry) context.now models.new result }
{
    let mut questions = 0;
    for state in 0..trees.header.states {
        let found = reached_for(trees, context, state + 1);
        models[wide(state)] = found.model;
        questions += u64::from(found.questions);
    }
    questions
}

// The models of the phone at a place, and the questions.
fn models_at(trees: Trees, sequence: &[u32], place: usize, models: &mut [u32]) -> u64
    requires { T (every (is_phone trees.header.phones) sequence.now) × (place < length sequence.now)
        × (length models.old ≡ trees.header.states) }
    ensures { StatesGiven (trees_book trees.entry)
        (get_or (contexts trees.entry.header.half sequence.now) place []) models.new result }
{
    let half = wide(trees.header.half);
    let width = 2 * half + 1;
    let mut window = [1u32; 7];
    fill_context(sequence, half, place, &mut window[..width]);
    models_of(trees, &window[..width], models)
}

// The models of all places in order, from the front of the buffer; answers how many questions were put in all.
fn all_models(trees: Trees, sequence: &[u32], models: &mut [u32]) -> u64
    requires { T (is_utterance trees.header.phones sequence.now)
        × (length sequence.now * trees.header.states ≤ length models.old) }
    ensures { PlacesGiven (trees_book trees.entry) sequence.now models.old models.new result }
{
    let states = wide(trees.header.states);
    let mut questions = 0;
    for place in 0..sequence.len() {
        let from = place * states;
        let end = from + states;
        questions += models_at(trees, sequence, place, &mut models[from..end]);
    }
    questions
}

// The models that the trees give to a phone sequence, and 0 in the rest of the buffer; and how many questions were put.
// The tables stay apart, as C lends them.
pub fn transcribe(
    header: Header,
    nodes: &[u32],
    classes: &[u64],
    roots: &[u32],
    plains: &[u32],
    sequence: &[u32],
    models: &mut [u32],
) -> Result<Tally, Refusal>
    ensures answer { result ≡ result_of tally_of (transcribe header
        (lent_tables nodes.now classes.now roots.now plains.now)
        sequence.now (length models.old)) }
    ensures leaves { models.new ≡ models_left (length models.old) (transcribe header
        (lent_tables nodes.now classes.now roots.now plains.now)
        sequence.now (length models.old)) }
{
    models.fill(0);
    if !tables_known(header, nodes, classes, roots, plains) {
        return Err(Fault::Foreign.at(0));
    }
    if !is_utterance(header.phones, sequence) {
        return Err(Fault::Utterance.at(0));
    }
    let states = wide(header.states);
    let room = models.len() / states;
    if room < sequence.len() {
        return Err(Fault::Short.at(0));
    }
    let mut forced = [0u32; MOST_ROOTS];
    roots_in_force(header, roots, plains, &mut forced);
    let trees = Trees {
        header,
        nodes,
        classes,
        roots: &forced,
    };
    let questions = all_models(trees, sequence, models);
    Ok(Tally {
        models: sequence.len() * states,
        questions,
    })
}
