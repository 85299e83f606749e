// A word of a table; and the record of a node: read from the table of nodes, made, and put there.
ghost use Rattle.std.specs.Prelude.{◌≡◌, ◌+◌, ◌*◌, ◌≤◌, length, drop};
ghost use Rattle.definitions.specs.Lists.{◌!◌};
ghost use Rattle.definitions.specs.BookLines.{question, leaf, asks};
ghost use Rattle.definitions.specs.BookReading.{node_size};
ghost use Rattle.definitions.specs.Tables.{node_words, record_words, node_of};
ghost use Rattle.lines.specs.Putting.{put_at};

use definitions::{NODE_SIZE, Node, wide};

// The word at a place, 0 beyond the table.
pub fn word_at(words: &[u32], place: usize) -> u32
    ensures { result ≡ words.now ! place }
{
    words.get(place).copied().unwrap_or(0)
}

// The record of a node, whose words are 0 beyond the table.
pub fn node_at(words: &[u32], node: u32) -> Node
    ensures { result ≡ node_of (drop (node_size * node) words.now) }
{
    let at = NODE_SIZE * (node as usize);
    Node {
        kind: word_at(words, at),
        value: word_at(words, at + 1),
        position: word_at(words, at + 2),
        yes: word_at(words, at + 3),
        no: word_at(words, at + 4),
    }
}

// The record of a question.
pub fn question_node(class: u32, position: u32, yes: u32, no: u32) -> Node
    ensures { record_words result ≡ node_words (question (asks class position) yes no) }
{
    Node {
        kind: 1,
        value: class,
        position,
        yes,
        no,
    }
}

// The record of a leaf.
pub fn leaf_node(model: u32) -> Node
    ensures { record_words result ≡ node_words (leaf model) }
{
    Node {
        kind: 2,
        value: model,
        position: 0,
        yes: 0,
        no: 0,
    }
}

// The five words of a node, at its place.
pub fn put_node(words: &mut [u32], number: u32, node: Node)
    requires { node_size * number + node_size ≤ length words.old }
    ensures { words.new ≡ put_at (node_size * number) (record_words node) words.old }
{
    let at = NODE_SIZE * wide(number);
    let record = [node.kind, node.value, node.position, node.yes, node.no];
    words[at..at + NODE_SIZE].copy_from_slice(&record);
}
