// The constant table of each letter: used fields, lowest and highest fixed values.
ghost use Rattle.std.specs.Prelude.{◌&&◌, ◌≡◌, ◌<◌, leb, length, MatchOption};
ghost use Rattle.std.proofs.Math.Option.{none};
ghost use Rattle.definitions.specs.Lines.{form_of};
ghost use Rattle.lines.specs.Places.{form_at, ranges_at, range_at, form_count, Placed};
ghost use Rattle.lines.specs.Rows.{forms_of};

use crate::Letters;
use std::ops;

// The fixed range of a field: lowest and highest.
#[derive(Clone, Copy)]
struct Range(u32, u32);

// How many letters the table has.
const FORM_COUNT: usize = 9;

const UNUSED: Range = Range(0, 0);

// A letter, how many fields it uses, and their ranges, which come first.
#[derive(Clone, Copy)]
struct Form {
    letter: u8,
    // A constant array has rows of one length.
    used: usize,
    ranges: [Range; 5],
}

// The letters of a tree book, those of network text, then that of a word book.
const FORMS: [Form; FORM_COUNT] = [
    // half-width, states per phone, phones, classes, nodes
    Form {
        letter: b'H',
        used: 5,
        ranges: [
            Range(0, 3),
            Range(1, 3),
            Range(1, 64),
            Range(0, 255),
            Range(1, 4096),
        ],
    },
    // class, phone
    Form {
        letter: b'Q',
        used: 2,
        ranges: [Range(1, 255), Range(1, 64), UNUSED, UNUSED, UNUSED],
    },
    // node, class, position, yes node, no node
    Form {
        letter: b'N',
        used: 5,
        ranges: [
            Range(0, 4095),
            Range(1, 255),
            Range(0, 6),
            Range(0, 4095),
            Range(0, 4095),
        ],
    },
    // node, model
    Form {
        letter: b'L',
        used: 2,
        ranges: [Range(0, 4095), Range(1, 65535), UNUSED, UNUSED, UNUSED],
    },
    // boundary phone, plain phone
    Form {
        letter: b'B',
        used: 2,
        ranges: [Range(2, 64), Range(1, 64), UNUSED, UNUSED, UNUSED],
    },
    // phone, state, root node
    Form {
        letter: b'R',
        used: 3,
        ranges: [Range(1, 64), Range(1, 3), Range(0, 4095), UNUSED, UNUSED],
    },
    // states per phone, metastates, arcs
    Form {
        letter: b'W',
        used: 3,
        ranges: [
            Range(1, 3),
            Range(1, 65535),
            Range(1, 999999),
            UNUSED,
            UNUSED,
        ],
    },
    // from, to, model, phone
    Form {
        letter: b'A',
        used: 4,
        ranges: [
            Range(0, 196606),
            Range(0, 196606),
            Range(0, 65535),
            Range(0, 64),
            UNUSED,
        ],
    },
    // word, place, phone
    Form {
        letter: b'V',
        used: 3,
        ranges: [Range(1, 9999), Range(1, 64), Range(1, 64), UNUSED, UNUSED],
    },
];

// The places of the letters of a kind of text among all letters.
fn places_of(letters: Letters) -> ops::Range<usize>
    ensures { Placed letters result.start result.end }
{
    match letters {
        Letters::Book => 0..6,
        Letters::Network => 6..8,
        Letters::Words => 8..FORM_COUNT,
    }
}

// The place of a letter among all letters; none where this kind of text never has it.
pub fn place_of(letters: Letters, letter: u8) -> Option<usize>
    ensures { MatchOption result (form_of (forms_of letters) letter ≡ none) (λ place.
        (place < form_count) × (form_at place ≡ form_of (forms_of letters) letter)) }
{
    let places = places_of(letters);
    for place in places.start..places.end {
        if FORMS[place].letter == letter {
            return Some(place);
        }
    }
    None
}

// How many fields the letter at a place uses.
pub fn used_at(place: usize) -> usize
    requires { place < form_count }
    ensures { result ≡ length (ranges_at place) }
{
    FORMS[place].used
}

// Whether a number lies in the fixed range of a used field of the letter at a place.
pub fn in_range(place: usize, field: usize, n: u32) -> bool
    requires { (place < form_count) × (field < length (ranges_at place)) }
    ensures { result ≡ (leb (range_at place field).lowest n && leb n (range_at place field).highest) }
{
    let range = FORMS[place].ranges[field];
    range.0 <= n && n <= range.1
}
