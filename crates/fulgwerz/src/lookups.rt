// The trees at work, for C: the leaf that a context reaches, and the models of a phone sequence.
ghost use Rattle.std.specs.Prelude.{◌≡◌, length};
ghost use Rattle.definitions.specs.Lookup.{leaf_lookup, leaf_lookup_in_table};
ghost use Rattle.definitions.specs.Said.{said_of};
ghost use Rattle.definitions.specs.Transcription.{transcribe, models_left};
ghost use Rattle.tables.specs.Lending.{lent_tables};
ghost use Rattle.trees.specs.Answers.{walked_of, no_walk};
ghost use Rattle.transcripts.specs.Answers.{tally_of, no_tally};
ghost use Rattle.fulgwerz.specs.Answers.{leaf_answer, transcript_answer};

use crate::{LeafAnswer, TranscriptAnswer};
use definitions::{Header, Node};
use transcripts::transcription::transcribe;
use trees::leaves::leaf_of;
use trees::structs::leaf_of as leaf_in_list;

// Looks up the leaf that a context reaches from a root, and counts the questions met on the way.
#[unsafe(no_mangle)]
pub extern "C" fn fulgwerz_leaf(
    header: Header,
    nodes: &[u32],
    classes: &[u64],
    root: u32,
    context: &[u32],
) -> LeafAnswer
    ensures { result ≡ leaf_answer (said_of walked_of no_walk
        (leaf_lookup_in_table header classes.now nodes.now root context.now)) }
{
    leaf_of(header, nodes, classes, root, context).into()
}

// The same over a list of node structs.
#[unsafe(no_mangle)]
pub extern "C" fn fulgwerz_leaf_in_list(
    header: Header,
    nodes: &[Node],
    classes: &[u64],
    root: u32,
    context: &[u32],
) -> LeafAnswer
    ensures { result ≡ leaf_answer (said_of walked_of no_walk
        (leaf_lookup header classes.now nodes.now root context.now)) }
{
    leaf_in_list(header, nodes, classes, root, context).into()
}

// Fills in the models of a phone sequence, and counts them and the questions that were put.
#[unsafe(no_mangle)]
pub extern "C" fn fulgwerz_transcribe(
    header: Header,
    nodes: &[u32],
    classes: &[u64],
    roots: &[u32],
    plains: &[u32],
    phones: &[u32],
    models: &mut [u32],
) -> TranscriptAnswer
    ensures answer { result ≡ transcript_answer (said_of tally_of no_tally (transcribe header
        (lent_tables nodes.now classes.now roots.now plains.now)
        phones.now
        (length models.old))) }
    ensures leaves { models.new ≡ models_left (length models.old) (transcribe header
        (lent_tables nodes.now classes.now roots.now plains.now)
        phones.now
        (length models.old)) }
{
    transcribe(header, nodes, classes, roots, plains, phones, models).into()
}
