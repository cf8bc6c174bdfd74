// The steps of a derivation, read line by line: each works on the current goal and leaves its premises. The rules come from `turns`, the
// lines from `reading`, and no byte is seen here.
#![tactic(auto)]

ghost use Rattle.std.specs.Prelude.{◌≡◌, ◌-◌, ◌<◌, ◌≤◌, ◌%◌};
ghost use Rattle.lines.specs.Text.{at_steps};
ghost use Rattle.lines.specs.Walk.{steps_from, size_from, read_at};
ghost use Rattle.states.specs.Standing.{Ready};
ghost use Rattle.steps.specs.Turning.{TurnAt};
ghost use Rattle.steps.specs.Acting.{refused_at, StepAt};

use alc::{Answer, Refusal, Table};
use goals::{Step, Turn};
use lines::{IN_STEPS, Line, Next};
use states::State;

// A step that passes: its turn at the current goal, and the position of the line behind it.
#[derive(Clone, Copy)]
pub struct Passed {
    pub turn: Turn,
    pub at: usize,
}

// The step that a line of the text is. No `From`: neither type is of this crate.
fn made_step(l: Line) -> Step
    ensures { result ≡ record { word = l.word; x = l.n0 % 256; y = l.n1 % 256; z = l.n2 % 256 } }
{
    Step {
        word: l.word,
        x: (l.n0 % 256) as u8,
        y: (l.n1 % 256) as u8,
        z: (l.n2 % 256) as u8,
    }
}

// What a line does at the current goal of the state s: its ranges are looked at before its rule.
fn turn_at(table: &Table, l: Line, s: &State) -> Result<Turn, Refusal>
    requires step { (steps_from ≤ l.word) × (l.word < size_from) }
    requires goal { s.now.goal.count ≤ 64 }
    requires some { (0 < s.now.open) × (s.now.open ≤ 17) }
    ensures { TurnAt table.now l s.now.goal (s.now.open - 1) result }
{
    if !parts::ranged(l, table.len(), 0) {
        return Err(Refusal::OutOfRange);
    }
    let step = made_step(l);
    // The second field of `id-link` is a name, which no rule looks up.
    turns::turn_of(&s.goal, step, table.entry(step.y as usize), s.open - 1)
}

// A refusal at a line.
fn refused(refusal: Refusal, line: usize) -> Answer
    ensures { result ≡ refused_at refusal line }
{
    Answer::Refused(refusal.number(), line)
}

// The next line at the state s: a step that passes, or the answer, where the derivation ends.
pub fn next_step(text: &[u8], table: &Table, s: &State) -> Result<Passed, Answer>
    requires { Ready text.now s.now }
    ensures { StepAt table.now s.now (read_at text.now s.now.reached.at at_steps) result }
{
    let line = s.reached.lines + 1;
    match reading::read(text, s.reached.at, IN_STEPS) {
        Next::Found(l, at) => {
            if s.steps >= 1024 {
                return Err(refused(Refusal::TooMany, line));
            }
            if s.open == 0 {
                return Err(refused(Refusal::NoGoal, line));
            }
            let turn = turn_at(table, l, s).map_err(|refusal| refused(refusal, line))?;
            Ok(Passed { turn, at })
        }
        Next::Bad => Err(refused(Refusal::Malformed, line)),
        Next::End => {
            if s.open > 0 {
                return Err(refused(Refusal::Unfinished, line));
            }
            Err(Answer::Proved(s.reached.lines))
        }
    }
}
