// Goals as lists of claim records: what stands in a goal, and one claim more.
// The records that the rules speak of stand here too: a step, a plan and a turn.
#![tactic(auto)]

ghost use Rattle.std.specs.Prelude.{◌≡◌, [], ◌∷◌, ◌++◌, ◌+◌, ◌<◌, ◌≤◌, cond, ltb, length, position};
ghost use Rattle.std.specs.List.{list_any};
ghost use Rattle.alc.specs.Shown.{records};
ghost use Rattle.goals.specs.Records.{same_record, has_name, added};

use alc::{Claim, Goal, Kind, Name, kinds};

// A step: its word's number and its fields. It is a number, since the rules are one decision over it, which gives the kind tests and the premises.
#[derive(Clone, Copy)]
pub struct Step {
    pub word: u8,
    pub x: u8,
    pub y: u8,
    pub z: u8,
}

// The claims that a rule needs.
#[derive(Clone, Copy)]
pub enum Needs {
    Nothing,
    One(Claim),
    Both(Claim, Claim),
}

// What a rule leaves: the goal closes, one claim comes, two claims come, or there are two premises with a claim each.
#[derive(Clone, Copy)]
pub enum Outcome {
    Closes,
    Adds(Claim),
    AddsBoth(Claim, Claim),
    Parts(Claim, Claim),
}

impl Outcome {
    // How many premises there are.
    pub fn premises(self) -> usize
        ensures { result ≡ length (added self) }
    {
        match self {
            Outcome::Closes => 0,
            Outcome::Adds(_) | Outcome::AddsBoth(_, _) => 1,
            Outcome::Parts(_, _) => 2,
        }
    }
}

// What a rule asks of the entry and of the goal, and what it does.
#[derive(Clone, Copy)]
pub struct Plan {
    // the kind of entry asked, if one is
    pub kind: Option<Kind>,
    pub needs: Needs,
    // whether the first of them is dropped
    pub drops: bool,
    // the name that must be new, if one must
    pub fresh: Option<Name>,
    pub leaves: Outcome,
}

// What a step that passes does to the current goal: how its premises are made. It holds no goal, since one held by value is copied from hop to hop.
#[derive(Clone, Copy)]
pub struct Turn {
    // the place of the claim that goes, if one does
    pub goes: Option<usize>,
    // how many claims stay
    pub kept: usize,
    pub leaves: Outcome,
}

// The place of the first copy of a claim, if there is one.
#[tactic(auto, unfolding(crate::specs::Records::same_record))]
pub fn find(claims: &[Claim], c: Claim) -> Option<usize>
    ensures { result ≡ position (same_record c) claims.now }
{
    claims.iter().position(|d| *d == c)
}

// Whether a record is of an `is` or a `link` with the name.
#[tactic(auto, unfolding(crate::specs::Records::has_name))]
fn names(c: Claim, a: Name) -> bool
    ensures { result ≡ has_name a.0 c }
{
    match c.kind {
        kinds::IS => a == c.a,
        kinds::LINK => a == c.a || a == c.b,
        _ => false,
    }
}

// Whether the name stands anywhere among the claims.
pub fn occurs(claims: &[Claim], a: Name) -> bool
    ensures { result ≡ list_any (has_name a.0) claims.now }
{
    claims.iter().any(|c| names(*c, a))
}

// Whether the claim is there.
#[tactic(auto, unfolding(crate::specs::Records::same_record))]
pub fn has(claims: &[Claim], c: Claim) -> bool
    ensures { result ≡ list_any (same_record c) claims.now }
{
    claims.contains(&c)
}

// A goal with no claim.
pub fn empty() -> Goal
    ensures { (records result ≡ []) × (result.count ≡ 0) }
{
    Goal {
        claims: [Claim::default(); 64],
        count: 0,
    }
}

// One claim more, behind the others.
pub fn push(g: &mut Goal, c: Claim)
    requires { g.old.count < 64 }
    ensures { (records g.new ≡ records g.old ++ (c ∷ [])) × (g.new.count ≡ g.old.count + 1) }
{
    g.claims[g.count] = c;
    g.count += 1;
}

// The goal with one claim more, behind the others; a full goal stays as it is, which `push` does not say.
pub fn with(g: Goal, c: Claim) -> Goal
    requires { g.count ≤ 64 }
    ensures { (records result ≡ cond (ltb g.count 64) (records g ++ (c ∷ [])) (records g)) × (result.count ≡ cond (ltb g.count 64) (g.count + 1) g.count) }
{
    let mut out = g;
    if out.count < 64 {
        push(&mut out, c);
    }
    out
}
