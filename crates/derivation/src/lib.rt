// The loop over a derivation's lines. The goals that wait live in the room that the caller lends; what a line is, and whether it passes, `steps` says,
// by value, and the functions here do it to the state and the room.
#![tactic(auto)]

ghost use Rattle.std.specs.Prelude.{◌≡◌, ℕ, List, ◌≤◌, ◌<◌, length, get_or, replicate};
ghost use Rattle.alc.specs.Claims.{Sided};
ghost use Rattle.alc.specs.Shown.{answered, records, blank};
ghost use Rattle.alc.specs.Verdict.{Verdict};
ghost use Rattle.alc.specs.declared.Claim.{Claim as Record};
ghost use Rattle.goals.specs.Records.{added, premise_at};
ghost use Rattle.states.specs.Standing.{Ready};
ghost use Rattle.derivation.specs.Waiting.{Stands, Stepped, closed_of, PutAside};

use alc::{Answer, Claim, Table};
use goals::{Outcome, Turn};
use states::State;

// How many records of the room each goal that waits has. The room stays a lent slice, as is asked for, so each function says how long it is.
const PLACE: usize = 64;

// The current goal has closed: the one put aside last becomes current, where one waits.
fn close(room: &[Claim], s: &mut State)
    requires open { (0 < s.old.open) × (s.old.open ≤ 17) }
    requires room { 1088 ≤ length room.now }
    requires counts { (i : ℕ) → get_or s.old.counts i 0 ≤ 64 }
    ensures { s.new ≡ closed_of room.now s.old }
{
    s.open -= 1;
    if s.open > 0 {
        let last = s.open - 1;
        s.goal = shelf::fetch(room, last * PLACE, s.counts[last] as usize);
    }
}

// The current goal is the first of two premises: the second waits.
fn put_aside(room: &mut [Claim], s: &mut State, turn: Turn)
    requires open { (0 < s.old.open) × (s.old.open ≤ 16) }
    requires goal { (0 < s.old.goal.count) × (s.old.goal.count ≤ 64) }
    requires room { 1088 ≤ length room.old }
    ensures { PutAside room.old s.old turn room.new s.new }
{
    let waiting = s.open - 1;
    shelf::store(room, waiting * PLACE, turns::other(s.goal, turn));
    s.counts[waiting] = s.goal.count as u8;
    s.open += 1;
}

// One line: the state and the room behind it, or the answer, where the derivation ends.
fn step(room: &mut [Claim], text: &[u8], table: &Table, s: &mut State) -> Result<(), Answer>
    requires room { 1088 ≤ length room.old }
    requires ready { Ready text.now s.old }
    ensures { Stepped text.now table.now room.old s.old room.new s.new result }
{
    let passed = steps::next_step(text, table, s)?;
    s.steps += 1;
    s.reached.lines += 1;
    s.reached.at = passed.at;
    match passed.turn.leaves {
        Outcome::Closes => {
            close(room, s);
            Ok(())
        }
        Outcome::Parts(_, _) => {
            turns::turn(&mut s.goal, passed.turn);
            put_aside(room, s, passed.turn);
            Ok(())
        }
        _ => {
            turns::turn(&mut s.goal, passed.turn);
            Ok(())
        }
    }
}

// The lines from the state s on as steps: the answer is the verdict from there on. Not part of its caller, so that nothing else is judged with its stack;
// the blanking is, so that it goes where the caller's own room ends with the call.
#[inline(never)]
fn concluded(room: &mut [Claim], text: &[u8], table: &Table, s: State) -> Answer
    requires room { 1088 ≤ length room.old }
    requires ready { Ready text.now s }
    ensures { (cs : List Sided) (v : Verdict) → Stands table.now cs text.now v room.old s → answered result ≡ v }
{
    let mut s = s;
    loop {
        if let Err(answer) = step(room, text, table, &mut s) {
            break answer;
        }
    }
}

// Judges the lines from the state s on as steps. The answer is the verdict from there on, and every record of the room is blank afterwards.
pub fn judge_steps(room: &mut [Claim], text: &[u8], table: &Table, s: State) -> Answer
    requires room { 1088 ≤ length room.old }
    requires ready { Ready text.now s }
    ensures answer { (cs : List Sided) (v : Verdict) → Stands table.now cs text.now v room.old s → answered result ≡ v }
    ensures room { room.new ≡ replicate (length room.old) blank }
{
    let answer = concluded(room, text, table, s);
    room::blank_all(room);
    answer
}
