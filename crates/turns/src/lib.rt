// One step at a goal: the first of its rows that it does not pass, or the premises that it leaves.
#![tactic(auto)]

ghost use Rattle.std.specs.Prelude.{◌≡◌, IfOk, IfSome, List, [], ◌++◌, ◌+◌, ◌<◌, ◌≤◌, cond, length, get_or, leb};
ghost use Rattle.std.specs.List.{list_any};
ghost use Rattle.lines.specs.Walk.{steps_from, size_from};
ghost use Rattle.alc.specs.Rows.{refusal};
ghost use Rattle.alc.specs.Lists.{every};
ghost use Rattle.alc.specs.Shown.{records, row_number};
ghost use Rattle.alc.specs.Entries.{kind_of, shown};
ghost use Rattle.alc.specs.declared.Claim.{Claim as Record};
ghost use Rattle.alc.specs.Table.{Table, entry};
ghost use Rattle.alc.specs.Rules.{plan};
ghost use Rattle.goals.specs.Records.{same_record, step_of, asks, needed_by, found_in, news_by, added, ruling, ruling_by, new_in, kept_by, record_rows, cut_at, premise_at, Makes, Turns};

use alc::{Claim, Entry, Goal, Kind, Name, Refusal};
use goals::{Needs, Outcome, Plan, Step, Turn};

// Whether the entry is of the kind that is asked, if one is.
#[tactic(auto, using(goals::proofs::RecordLaws::kind_asked))]
fn asked(wanted: Option<Kind>, kind: Kind) -> bool
    ensures { result ≡ asks wanted (kind_of kind) }
{
    match wanted {
        None => true,
        Some(k) => k == kind,
    }
}

// The place where the first claim needed is first found, if it is.
fn found(claims: &[Claim], needs: Needs) -> Option<usize>
    ensures { result ≡ found_in (needed_by needs) claims.now }
{
    match needs {
        Needs::Nothing => None,
        Needs::One(c) | Needs::Both(c, _) => goals::find(claims, c),
    }
}

// Whether all claims needed are there, where the first of them is first found at a place, if it is.
#[tactic(auto, using(goals::proofs::RecordLaws::any_first))]
fn needed(claims: &[Claim], needs: Needs, at: Option<usize>) -> bool
    requires { at ≡ found_in (needed_by needs) claims.now }
    ensures { result ≡ every (λ c. list_any (same_record c) claims.now) (needed_by needs) }
{
    match needs {
        Needs::Nothing => true,
        Needs::One(_) => at.is_some(),
        Needs::Both(_, d) => at.is_some() && goals::has(claims, d),
    }
}

// Whether the name that must be new, if one must, stands nowhere among the claims.
fn is_new(claims: &[Claim], fresh: Option<Name>) -> bool
    ensures { result ≡ new_in (news_by fresh) claims.now }
{
    match fresh {
        None => true,
        Some(b) => !goals::occurs(claims, b),
    }
}

// The place of the claim that goes, if one does, where the first claim needed is found at a place, if it is.
fn leaving(drops: bool, at: Option<usize>) -> Option<usize>
    ensures { result ≡ cond drops at None }
{
    if drops { at } else { None }
}

// How many claims stay, where the one at a place goes, if one does.
fn staying(claims: &[Claim], goes: Option<usize>) -> usize
    requires { IfSome goes (λ at. at < length claims.now) }
    ensures { result ≡ length (cut_at goes claims.now) }
{
    match goes {
        None => claims.len(),
        Some(_) => claims.len() - 1,
    }
}

// Whether no premise has over 64 claims, when what comes is added to n claims.
fn fits(n: usize, leaves: Outcome) -> bool
    ensures { (k : List Record) → length k ≡ n → result ≡ every (λ l. leb (length (k ++ l)) 64) (added leaves) }
{
    match leaves {
        Outcome::Closes => true,
        Outcome::AddsBoth(_, _) => n < 63,
        _ => n < 64,
    }
}

// The first row that the step does not pass, if there is one, at claims of which it keeps n, with so many goals waiting.
#[tactic(auto, unfolding(goals::specs::Records::record_rows))]
fn refused(
    claims: &[Claim],
    p: Plan,
    kind: Kind,
    at: Option<usize>,
    n: usize,
    waiting: usize,
) -> Result<(), Refusal>
    requires first { at ≡ found_in (needed_by p.needs) claims.now }
    requires stay { n ≡ length (kept_by (ruling_by (kind_of kind) p) claims.now) }
    requires room { waiting ≤ 16 }
    ensures { row_number result ≡ refusal (record_rows (ruling_by (kind_of kind) p) claims.now waiting) }
{
    if !asked(p.kind, kind) {
        return Err(Refusal::OtherKind);
    }
    if !needed(claims, p.needs, at) {
        return Err(Refusal::Missing);
    }
    if !is_new(claims, p.fresh) {
        return Err(Refusal::NotNew);
    }
    if !fits(n, p.leaves) {
        return Err(Refusal::GoalFull);
    }
    if p.leaves.premises() + waiting > 17 {
        return Err(Refusal::TooManyWait);
    }
    Ok(())
}

// What a plan does at the goal g, at an entry of a kind, with so many goals waiting.
#[tactic(auto, using(goals::proofs::RecordLaws::cut_leaving))]
fn turned(g: &Goal, p: Plan, kind: Kind, waiting: usize) -> Result<Turn, Refusal>
    requires few { g.now.count ≤ 64 }
    requires room { waiting ≤ 16 }
    ensures turns { Turns [] (ruling_by (kind_of kind) p) (records g.now) waiting result }
    ensures makes { IfOk result (λ t. Makes t g.now × (length (added t.leaves) + waiting ≤ 17)) }
{
    let claims = &g.claims[..g.count];
    let at = found(claims, p.needs);
    let goes = leaving(p.drops, at);
    let kept = staying(claims, goes);
    refused(claims, p, kind, at, kept, waiting)?;
    Ok(Turn {
        goes,
        kept,
        leaves: p.leaves,
    })
}

// One step at the goal g, at the entry of its second field, with so many goals waiting.
pub fn turn_of(g: &Goal, s: Step, e: Entry, waiting: usize) -> Result<Turn, Refusal>
    requires few { g.now.count ≤ 64 }
    requires step { (steps_from ≤ s.word) × (s.word < size_from) }
    requires room { waiting ≤ 16 }
    ensures turns { (T : Table) → entry T s.y ≡ shown e → Turns [] (ruling (plan T (step_of s.word s.x s.y s.z))) (records g.now) waiting result }
    ensures makes { IfOk result (λ t. Makes t g.now × (length (added t.leaves) + waiting ≤ 17)) }
{
    turned(g, rules::plan_of(s, e), e.kind, waiting)
}

// Takes out the claim at a place, if one goes, so that so many stay: those behind it move up.
#[tactic(auto, using(crate::proofs::Cuts::cut_within, crate::proofs::Cuts::cut_count, crate::proofs::Cuts::cut_none))]
fn cut(g: &mut Goal, goes: Option<usize>, kept: usize)
    requires few { g.old.count ≤ 64 }
    requires place { IfSome goes (λ at. at < g.old.count) }
    requires stay { kept ≡ length (cut_at goes (records g.old)) }
    ensures shows { records g.new ≡ cut_at goes (records g.old) }
    ensures count { g.new.count ≡ kept }
{
    let n = g.count;
    g.count = kept;
    if let Some(at) = goes {
        g.claims.copy_within(at + 1..n, at);
    }
}

// Makes the goal the first premise of the turn: what comes is written behind what stays.
pub fn turn(g: &mut Goal, t: Turn)
    requires few { g.old.count ≤ 64 }
    requires makes { Makes t g.old }
    ensures shows { records g.new ≡ premise_at 0 t (records g.old) }
    ensures few { g.new.count ≤ 64 }
    ensures count { g.new.count ≡ t.kept + length (get_or (added t.leaves) 0 []) }
{
    cut(g, t.goes, t.kept);
    match t.leaves {
        Outcome::Closes => {}
        Outcome::Adds(c) | Outcome::Parts(c, _) => goals::push(g, c),
        Outcome::AddsBoth(c, d) => {
            goals::push(g, c);
            goals::push(g, d);
        }
    }
}

// The second of two premises, from the first: they differ in the last claim alone.
#[tactic(auto, using(crate::proofs::Cuts::last_other))]
pub fn other(g: Goal, t: Turn) -> Goal
    requires some { 0 < g.count }
    requires few { g.count ≤ 64 }
    ensures shows { (l : List Record) → records g ≡ premise_at 0 t l → length (added t.leaves) ≡ 2 → records result ≡ premise_at 1 t l }
    ensures count { result.count ≡ g.count }
    ensures full { result.count ≤ length result.claims }
{
    let mut out = g;
    if let Outcome::Parts(_, second) = t.leaves {
        out.claims[g.count - 1] = second;
    }
    out
}
