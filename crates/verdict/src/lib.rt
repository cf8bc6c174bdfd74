// The judging function: a text and a lent room in, the verdict out, and the room is blank afterwards.
#![tactic(auto)]

ghost use Rattle.std.specs.Prelude.{◌≡◌, length, replicate};
ghost use Rattle.alc.specs.Shown.{answered, blank};
ghost use Rattle.alc.specs.Verdict.{verdict};

use alc::{Answer, Claim};
use opening::Opening;

// Judges a text in a room of any length and content: the answer is the definition's verdict, and every record of the room is blank afterwards.
pub fn judge(room: &mut [Claim], text: &[u8]) -> Answer
    ensures answer { answered result ≡ verdict (length room.old) text.now }
    ensures room { room.new ≡ replicate (length room.old) blank }
{
    match opening::opened(text, room.len()) {
        Opening::Follows(table, state) => derivation::judge_steps(room, text, &table, state),
        Opening::Decided(answer) => {
            room::blank_all(room);
            answer
        }
    }
}

// Judges a text in a room of its own, so that the caller lends nothing.
pub fn judge_here(text: &[u8]) -> Answer
    ensures { answered result ≡ verdict 1088 text.now }
{
    judge(&mut [Claim::default(); 1088], text)
}
