// The bytes of a line: where a field ends, which byte stands at a position, and a field as a number, digit by digit. No text is copied.
#![tactic(auto)]

ghost use Rattle.std.specs.Prelude.{◌≡◌, drop};
ghost use Rattle.lines.specs.Text.{digit};
ghost use Rattle.lines.specs.Walk.{parting, opens};
ghost use Rattle.digits.specs.Number.{number_in};

// Whether a field ends before the byte x.
#[tactic(auto, unfolding(lines::specs::Walk::parting))]
pub fn parts(x: u8) -> bool
    ensures { result ≡ parting x }
{
    x == b'\t' || x == b'\n'
}

// Whether the byte x is a digit.
#[tactic(auto, unfolding(lines::specs::Text::digit))]
fn is_digit(x: u8) -> bool
    ensures { result ≡ digit x }
{
    matches!(x, b'0'..=b'9')
}

// Whether the byte b stands at a position. Past the text there is none.
#[tactic(auto, using(lines::proofs::Laws::here, lines::proofs::Laws::past))]
pub fn holds(text: &[u8], at: usize, b: u8) -> bool
    ensures { result ≡ opens b (drop at text.now) }
{
    at < text.len() && text[at] == b
}

// The field that begins at a position as a number, with the position where it ends.
#[tactic(auto, using(crate::proofs::Digits::bytewise))]
pub fn number(text: &[u8], at: usize) -> Option<(u16, usize)>
    ensures { result ≡ number_in at (drop at text.now) }
{
    let first = *text.get(at)?;
    if !is_digit(first) {
        return None;
    }
    let mut v = (first - b'0') as u32;
    for i in at + 1..text.len() {
        let d = text[i];
        if parts(d) {
            return Some((v as u16, i));
        }
        if !is_digit(d) {
            return None;
        }
        // No digit follows a leading 0.
        if v == 0 {
            return None;
        }
        v = v * 10 + (d - b'0') as u32;
        if v > 65535 {
            return None;
        }
    }
    Some((v as u16, text.len()))
}
