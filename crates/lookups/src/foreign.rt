// Tables that reading never leaves: a book's tables with one number of the header or one word changed, or cut short.
use crate::Lent;
use crate::answers::{print_lookup, print_transcript};
use definitions::Header;
use std::io;
use transcripts::transcription::transcribe;
use trees::leaves::leaf_of;

// What is shown of a table in which a word stands at a place.
#[derive(Clone, Copy)]
struct Change<'a, T> {
    what: &'a str,
    place: usize,
    word: T,
}

// What a transcription of silence by these tables answers.
fn show_answer(rt: &impl Print, what: &str, lent: Lent) -> io::Result<()> {
    let Lent {
        header,
        nodes,
        classes,
        roots,
        plains,
    } = lent;
    let mut models = [7u32; 3];
    print!(rt; "  {what}:")?;
    print_transcript(
        rt,
        transcribe(header, nodes, classes, roots, plains, &[1], &mut models),
    )?;
    println!(rt;)
}

// What a lookup over these records answers.
fn show_lookup(rt: &impl Print, what: &str, lent: Lent, root: u32) -> io::Result<()> {
    print!(rt; "  lookup, {what}:")?;
    print_lookup(
        rt,
        leaf_of(lent.header, lent.nodes, lent.classes, root, &[1, 1, 1]),
    )?;
    println!(rt;)
}

// Changes one word of a table after the other, and shows it; the old word stands again afterwards.
fn show_each<T: Copy, F: FnMut(&str, &[T]) -> io::Result<()>>(
    table: &mut [T],
    changes: &[Change<T>],
    mut show: F,
) -> io::Result<()>
    requires { F.IsAlwaysCallable show }
{
    for change in changes {
        let place = change.place;
        if table.len() <= place {
            continue;
        }
        let kept = table[place];
        table[place] = change.word;
        show(change.what, table)?;
        table[place] = kept;
    }
    Ok(())
}

fn show_headers(rt: &impl Print, lent: Lent) -> io::Result<()> {
    let header = lent.header;
    let headers = [
        ("half-width 4", Header { half: 4, ..header }),
        (
            "more nodes than records",
            Header {
                nodes: 11,
                ..header
            },
        ),
        (
            "more classes than words",
            Header {
                classes: 4,
                ..header
            },
        ),
        ("no nodes", Header { nodes: 0, ..header }),
    ];
    for (what, header) in headers {
        show_answer(rt, what, Lent { header, ..lent })?;
    }
    Ok(())
}

fn show_short(rt: &impl Print, lent: Lent) -> io::Result<()> {
    show_answer(rt, "no words for the nodes", Lent { nodes: &[], ..lent })?;
    show_answer(rt, "no words for the roots", Lent { roots: &[], ..lent })?;
    show_answer(
        rt,
        "no words for the plain phones",
        Lent {
            plains: &[],
            ..lent
        },
    )
}

// How often a node is named is not judged by a lookup: the last of these is foreign to a transcription alone, where
// node 1 is a question.
// One table is lent to be changed, so these four take the tables apart.
fn show_nodes(
    rt: &impl Print,
    header: Header,
    nodes: &mut [u32],
    classes: &[u64],
    roots: &[u32],
    plains: &[u32],
) -> io::Result<()> {
    let changes = [
        Change {
            what: "a node of kind 3",
            place: 0,
            word: 3,
        },
        Change {
            what: "a leaf without model",
            place: 1,
            word: 0,
        },
        Change {
            what: "a leaf with a position",
            place: 2,
            word: 1,
        },
        Change {
            what: "a word beyond the nodes",
            place: 51,
            word: 1,
        },
        Change {
            what: "yes node 3 of node 1",
            place: 8,
            word: 3,
        },
    ];
    show_each(nodes, &changes, |what, nodes| {
        let lent = Lent {
            header,
            nodes,
            classes,
            roots,
            plains,
        };
        show_answer(rt, what, lent)?;
        show_lookup(rt, what, lent, 1)
    })
}

fn show_classes(
    rt: &impl Print,
    header: Header,
    nodes: &[u32],
    classes: &mut [u64],
    roots: &[u32],
    plains: &[u32],
) -> io::Result<()> {
    let changes = [
        Change {
            what: "a phone beyond the last",
            place: 0,
            word: 8,
        },
        Change {
            what: "a set beyond the classes",
            place: 2,
            word: 1,
        },
    ];
    show_each(classes, &changes, |what, classes| {
        show_answer(
            rt,
            what,
            Lent {
                header,
                nodes,
                classes,
                roots,
                plains,
            },
        )
    })
}

fn show_roots(
    rt: &impl Print,
    header: Header,
    nodes: &[u32],
    classes: &[u64],
    roots: &mut [u32],
    plains: &[u32],
) -> io::Result<()> {
    let changes = [
        Change {
            what: "a root that is no node",
            place: 0,
            word: 10,
        },
        Change {
            what: "node 1 named twice",
            place: 0,
            word: 1,
        },
        Change {
            what: "no root for silence",
            place: 0,
            word: 4096,
        },
        Change {
            what: "a word beyond the roots",
            place: 6,
            word: 1,
        },
    ];
    show_each(roots, &changes, |what, roots| {
        show_answer(
            rt,
            what,
            Lent {
                header,
                nodes,
                classes,
                roots,
                plains,
            },
        )
    })
}

fn show_plains(
    rt: &impl Print,
    header: Header,
    nodes: &[u32],
    classes: &[u64],
    roots: &[u32],
    plains: &mut [u32],
) -> io::Result<()> {
    let changes = [
        Change {
            what: "silence a boundary phone",
            place: 0,
            word: 2,
        },
        Change {
            what: "phone 2 with itself as plain phone",
            place: 1,
            word: 2,
        },
        Change {
            what: "a plain phone beyond the last",
            place: 1,
            word: 65,
        },
        Change {
            what: "a word beyond the plain phones",
            place: 4,
            word: 1,
        },
    ];
    show_each(plains, &changes, |what, plains| {
        show_answer(
            rt,
            what,
            Lent {
                header,
                nodes,
                classes,
                roots,
                plains,
            },
        )
    })
}

pub fn show_foreign(
    rt: &impl Print,
    header: Header,
    nodes: &mut [u32],
    classes: &mut [u64],
    roots: &mut [u32],
    plains: &mut [u32],
) -> io::Result<()> {
    let lent = Lent {
        header,
        nodes,
        classes,
        roots,
        plains,
    };
    show_answer(rt, "the book's own tables", lent)?;
    show_lookup(rt, "the book's own records", lent, 0)?;
    show_headers(rt, lent)?;
    show_short(rt, lent)?;
    show_nodes(rt, header, nodes, classes, roots, plains)?;
    show_classes(rt, header, nodes, classes, roots, plains)?;
    show_roots(rt, header, nodes, classes, roots, plains)?;
    show_plains(rt, header, nodes, classes, roots, plains)
}
