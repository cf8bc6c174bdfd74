// The judge for programs in other languages: a verdict as one number. `outside_c` hands it out as a static library.
#![tactic(auto)]

ghost use Rattle.std.specs.Prelude.{◌≡◌, length, replicate};
ghost use Rattle.alc.specs.Shown.{answered, blank};
ghost use Rattle.alc.specs.Verdict.{verdict};
ghost use Rattle.outside.specs.Told.{packed, packed_by};

use alc::{Answer, Claim};

// The words of a verdict, as a caller meets them: numbers and no enum, since the verdict goes to C as one number.
const PROVED: u8 = 0;

const REFUTED: u8 = 1;

const REFUSED: u8 = 2;

// Judges a text in a room that the caller lends, which is blank afterwards. The verdict comes back as one number: 8 bits of the word, 8 of the number
// and 32 of the line, from the lowest up.
pub fn outside_judge(room: &mut [Claim], text: &[u8]) -> u64
    ensures answer { result ≡ packed (verdict (length room.old) text.now) }
    ensures room { room.new ≡ replicate (length room.old) blank }
{
    let answer = verdict::judge(room, text);
    pack_answer(answer)
}

// An answer as one number.
fn pack_answer(answer: Answer) -> u64
    ensures { result ≡ packed (answered answer) }
{
    match answer {
        Answer::Proved(lines) => pack(PROVED, 0, lines),
        Answer::Refuted(lines) => pack(REFUTED, 0, lines),
        Answer::Refused(number, line) => pack(REFUSED, number, line),
    }
}

// A word, a number and a line as one number.
fn pack(word: u8, number: u8, line: usize) -> u64
    ensures { result ≡ packed_by word number line }
{
    (line % 4294967296) as u64 * 65536 + number as u64 * 256 + word as u64
}
