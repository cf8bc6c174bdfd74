// What stands before a derivation: a dossier's table and claims, read up to the first step; or its verdict, where none follows.
#![tactic(auto)]

ghost use Rattle.std.specs.Prelude.{◌≡◌, ◌≤◌, length};
ghost use Rattle.alc.specs.Shown.{number_of};
ghost use Rattle.parts.specs.Parts.{Listing};
ghost use Rattle.opening.specs.Opened.{Leads, Opens};

use alc::{Answer, Refusal, Table};
use parts::{Listed, Section};
use states::State;

// What stands before a derivation: the table and the state at its first step; or the answer, where none follows.
#[derive(Clone, Copy)]
pub enum Opening {
    Decided(Answer),
    Follows(Table, State),
}

// A refusal before the first line.
fn refused(refusal: Refusal) -> Opening
    ensures { result ≡ Opening.Decided (Answer.Refused (number_of refusal) 0) }
{
    Opening::Decided(Answer::Refused(refusal.number(), 0))
}

// The text behind its table, up to the first step of a derivation, or to its end, or to the line of the claims that is refused. Here and below a `match`
// and no `?`, which holds the table and the claims once more on the stack.
fn headed(text: &[u8], listed: Listed) -> Opening
    requires short { length text.now ≤ 65535 }
    requires listing { Listing text.now listed.table listed.at 0 }
    ensures { Leads text.now result }
{
    match claims::read_claims(text, listed.at, listed.table.len()) {
        Ok(heading) => match heading.section {
            Section::Proof => Opening::Follows(
                listed.table,
                states::begun(heading.claims, heading.reached),
            ),
            Section::Model => Opening::Decided(facts::judge_model(
                text,
                heading.reached,
                &listed.table,
                heading.claims,
            )),
        },
        Err(no_claims) => Opening::Decided(Answer::from(no_claims.refused)),
    }
}

// The text up to the first step of a derivation, or to its end, in a room of so many records. Not part of its caller, so that a derivation is judged
// without the stack that its opening takes.
#[inline(never)]
pub fn opened(text: &[u8], records: usize) -> Opening
    ensures { Opens records text.now result }
{
    if records < 1088 {
        return refused(Refusal::RoomTooSmall);
    }
    if text.len() > 65535 {
        return refused(Refusal::TooLong);
    }
    match tables::read_table(text) {
        Ok(listed) => headed(text, listed),
        Err(no_table) => Opening::Decided(Answer::from(no_table.refused)),
    }
}
