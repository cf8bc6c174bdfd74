// The parts of a dossier: whether the numbers of a line are in their ranges, whichever part it stands in, and what reading the table and the claims
// comes to. `tables`, `claims`, `steps` and `facts` read the parts.
#![tactic(auto)]

ghost use Rattle.std.specs.Prelude.{◌≡◌, ◌<◌, ◌&&◌, leb};
ghost use Rattle.lines.specs.Text.{word_count};
ghost use Rattle.alc.specs.Lists.{every};
ghost use Rattle.alc.specs.Ranges.{in_range};
ghost use Rattle.alc.specs.Dossier.{saying};
ghost use Rattle.parts.specs.Fields.{said_fields, field_by, fields_by};

use alc::{Goal, Refusal, Refused, Table};
use lines::Line;

// What a number of a line is a number of.
#[derive(Clone, Copy, PartialEq, Eq)]
enum Field {
    // none: the number is not said
    Unsaid,
    Role,
    Atom,
    Name,
    Element,
    Size,
    Concept,
}

// Whether a size is from 1 to 32.
fn in_size(n: u16) -> bool
    ensures { result ≡ (leb 1 n && leb n 32) }
{
    1 <= n && n <= 32
}

// Whether a number is in the range of what it is a number of, with so many entries in the table and so many elements.
#[tactic(auto, unfolding(crate::specs::Fields::field_by))]
fn in_range(field: Field, n: u16, entries: usize, elements: u8) -> bool
    ensures { result ≡ every (in_range entries elements) (field_by field n) }
{
    match field {
        Field::Unsaid => true,
        Field::Role => n < 16,
        Field::Atom | Field::Name => n < 64,
        Field::Element => n < elements as u16,
        Field::Size => in_size(n),
        Field::Concept => (n as usize) < entries,
    }
}

// The same of the three numbers of a line.
#[tactic(auto, using(crate::proofs::FieldLaws::ranges_of))]
fn in_ranges(
    l: Line,
    first: Field,
    second: Field,
    third: Field,
    entries: usize,
    elements: u8,
) -> bool
    ensures { result ≡ every (in_range entries elements) (fields_by first second third l.n0 l.n1 l.n2) }
{
    in_range(first, l.n0, entries, elements)
        && in_range(second, l.n1, entries, elements)
        && in_range(third, l.n2, entries, elements)
}

// Whether every field of a line is in its range, with n entries in the table and m elements: what the numbers of each word are numbers of. Words that
// follow one another stand in arms of their own, since of a run of them the compiler makes further tests.
pub fn ranged(l: Line, n: usize, m: u8) -> bool
    requires { l.word < word_count }
    ensures { result ≡ every (in_range n m) (said_fields (saying l)) }
{
    let w = l.word;
    match w {
        lines::TOP | lines::PROOF => in_ranges(
            l,
            Field::Unsaid,
            Field::Unsaid,
            Field::Unsaid,
            n,
            m,
        ),
        lines::BOT | lines::MODEL => in_ranges(
            l,
            Field::Unsaid,
            Field::Unsaid,
            Field::Unsaid,
            n,
            m,
        ),
        lines::ATOM => in_ranges(l, Field::Atom, Field::Unsaid, Field::Unsaid, n, m),
        lines::NOT => in_ranges(l, Field::Concept, Field::Unsaid, Field::Unsaid, n, m),
        lines::AND | lines::SUB | lines::ID_SUB => in_ranges(
            l,
            Field::Concept,
            Field::Concept,
            Field::Unsaid,
            n,
            m,
        ),
        lines::OR => in_ranges(l, Field::Concept, Field::Concept, Field::Unsaid, n, m),
        lines::SOME => in_ranges(l, Field::Role, Field::Concept, Field::Unsaid, n, m),
        lines::ALL => in_ranges(l, Field::Role, Field::Concept, Field::Unsaid, n, m),
        lines::LINK | lines::ID_LINK => in_ranges(l, Field::Role, Field::Name, Field::Name, n, m),
        lines::SUB_L => in_ranges(l, Field::Name, Field::Concept, Field::Concept, n, m),
        lines::SUB_R => in_ranges(l, Field::Concept, Field::Concept, Field::Name, n, m),
        lines::SOME_L | lines::ALL_L => in_ranges(
            l,
            Field::Name,
            Field::Concept,
            Field::Name,
            n,
            m,
        ),
        lines::SOME_R | lines::ALL_R => in_ranges(
            l,
            Field::Name,
            Field::Concept,
            Field::Name,
            n,
            m,
        ),
        lines::SIZE => in_ranges(l, Field::Size, Field::Unsaid, Field::Unsaid, n, m),
        lines::NAME => in_ranges(l, Field::Name, Field::Element, Field::Unsaid, n, m),
        lines::HAS => in_ranges(l, Field::Atom, Field::Element, Field::Unsaid, n, m),
        lines::EDGE => in_ranges(l, Field::Role, Field::Element, Field::Element, n, m),
        _ => in_ranges(l, Field::Name, Field::Concept, Field::Unsaid, n, m),
    }
}

// What reading the table came to: the table, and the position of the line behind it.
#[derive(Clone, Copy)]
pub struct Listed {
    pub table: Table,
    pub at: usize,
}

// A line is refused, with what was read before it.
#[derive(Clone, Copy)]
pub struct Stopped<T> {
    pub refused: Refused,
    pub read: T,
}

impl<T> Stopped<T> {
    // The line of a number is refused, behind what was read.
    pub fn new(refusal: Refusal, line: usize, read: T) -> Self
        ensures { result ≡ record { refused = record { refusal = refusal; line = line }; read = read } }
    {
        Stopped {
            refused: Refused { refusal, line },
            read,
        }
    }
}

// What ends the claims.
#[derive(Clone, Copy, PartialEq, Eq)]
pub enum Section {
    Proof,
    Model,
}

// How far a text is read: the position of the next line, and how many lines there are before it.
#[derive(Clone, Copy)]
pub struct Reached {
    pub at: usize,
    pub lines: usize,
}

// The claims of a dossier, and how far the text is read with them.
#[derive(Clone, Copy)]
pub struct Claims {
    pub claims: Goal,
    pub reached: Reached,
}

// What reading the claims came to: the claims, what ended them, and how far the text is read behind it.
#[derive(Clone, Copy)]
pub struct Heading {
    pub claims: Goal,
    pub section: Section,
    pub reached: Reached,
}
