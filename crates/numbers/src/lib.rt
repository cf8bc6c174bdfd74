// The numbers of a line: the rest of a line as so many numbers. No text is copied.
#![tactic(auto)]

ghost use Rattle.std.specs.Prelude.{◌≡◌, ◌-◌, drop};
ghost use Rattle.numbers.specs.Numbers.{numbers_in, next_at, behind};

use digits::{holds, number};

// The values of the fields behind a word, with 0 for those that are not there, and the position behind the line.
#[derive(Clone, Copy)]
pub struct Values {
    pub n0: u16,
    pub n1: u16,
    pub n2: u16,
    pub n3: u16,
    pub next: usize,
}

// The field behind the byte 9 at a position as a number, where one is wanted. Else 0, which ends where it begins.
#[tactic(auto, unfolding(crate::specs::Numbers::next_at, crate::specs::Numbers::number_at))]
fn next_number(text: &[u8], at: usize, wanted: bool) -> Option<(u16, usize)>
    ensures { result ≡ next_at wanted text.now at }
{
    if !wanted {
        return Some((0, at));
    }
    if !holds(text, at, b'\t') {
        return None;
    }
    number(text, at + 1)
}

// The position behind the line, from a position where a field ends and `done` of its numbers are read.
fn line_end(text: &[u8], at: usize, done: u8, count: u8) -> Option<usize>
    ensures { result ≡ behind (numbers_in at (count - done) (drop at text.now)) }
{
    let mut e = at;
    for _ in done..count {
        let (_, end) = next_number(text, e, true)?;
        e = end;
    }
    if !holds(text, e, b'\n') {
        return None;
    }
    Some(e + 1)
}

// The rest of a line, from a position where a field ends, as so many numbers. The first four are kept; no word of today takes more than three.
pub fn numbers(text: &[u8], at: usize, count: u8) -> Option<Values>
    ensures { result ≡ numbers_in at count (drop at text.now) }
{
    let (n0, e0) = next_number(text, at, count > 0)?;
    let (n1, e1) = next_number(text, e0, count > 1)?;
    let (n2, e2) = next_number(text, e1, count > 2)?;
    let (n3, e3) = next_number(text, e2, count > 3)?;
    let next = line_end(text, e3, 4, count)?;
    Some(Values {
        n0,
        n1,
        n2,
        n3,
        next,
    })
}
