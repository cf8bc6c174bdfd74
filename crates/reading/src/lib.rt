// The line that begins at a position of a text. `read` says what stands there: a line that is well formed and allowed at its place, as the
// number of its word, its side, its numbers and the position behind it; a line that is not; or the end of the text.
// A line is read in one pass over its bytes, plus the comparison of its word. No text is copied.
#![tactic(auto)]

ghost use Rattle.std.specs.Prelude.{◌≡◌, ◌≤◌, ◌<◌, length, drop};
ghost use Rattle.lines.specs.Text.{side_of};
ghost use Rattle.lines.specs.Walk.{field_of, read_at};
ghost use Rattle.reading.specs.Worded.{worded_at, WordAt};

use digits::{holds, parts};
use lines::{LEFT, Line, NO_SIDE, Next, RIGHT, WORDS, count, same};
use numbers::numbers;
use words::word;

// The field that begins at a position.
fn field(text: &[u8], at: usize) -> &[u8]
    requires { at ≤ length text.now }
    ensures { result.now ≡ field_of (drop at text.now) }
{
    for i in at..text.len() {
        if parts(text[i]) {
            return &text[at..i];
        }
    }
    &text[at..]
}

// The side that a first field says.
fn side(f: &[u8]) -> u8
    ensures { result ≡ side_of f.now }
{
    if same(f, b"left") {
        return LEFT;
    }
    if same(f, b"right") {
        return RIGHT;
    }
    NO_SIDE
}

// The word of the line at a position, of side s, and where it ends: the line's first field, or the one behind it. There is none where a line of
// a side goes no further.
fn word_field<'a>(text: &'a [u8], at: usize, first: &'a [u8], s: u8) -> Option<(&'a [u8], usize)>
    requires { (at < length text.now) × (first.now ≡ field_of (drop at text.now)) × (s ≡ side_of first.now) }
    ensures { WordAt text.now at s result }
{
    let e = at + first.len();
    if s == NO_SIDE {
        return Some((first, e));
    }
    if !holds(text, e, b'\t') {
        return None;
    }
    let second = field(text, e + 1);
    Some((second, e + 1 + second.len()))
}

// The line of side s whose word is the field f, which ends at e.
fn worded(text: &[u8], f: &[u8], e: usize, s: u8, place: u8) -> Next
    ensures { result ≡ worded_at text.now f.now e s place }
{
    let w = word(f, s, place);
    if w >= WORDS {
        return Next::Bad;
    }
    let Some(m) = numbers(text, e, count(w)) else {
        return Next::Bad;
    };
    Next::Found(
        Line {
            word: w,
            side: s,
            n0: m.n0,
            n1: m.n1,
            n2: m.n2,
            n3: m.n3,
        },
        m.next,
    )
}

// The line that begins at a position of a text, for a place.
pub fn read(text: &[u8], at: usize, place: u8) -> Next
    ensures { result ≡ read_at text.now at place }
{
    if at >= text.len() {
        return Next::End;
    }
    let first = field(text, at);
    let s = side(first);
    let Some((f, e)) = word_field(text, at, first, s) else {
        return Next::Bad;
    };
    worded(text, f, e, s, place)
}
