// The rules: what a step asks of the current goal and what it leaves, as a plan. A rule is a row: an arm of one of three decisions over its word.
// No goal is seen here.
#![tactic(auto)]

ghost use Rattle.std.specs.Prelude.{◌≡◌, ◌<◌, ◌≤◌, false, true};
ghost use Rattle.lines.specs.Walk.{steps_from, size_from, number_of};
ghost use Rattle.alc.specs.Entries.{shown};
ghost use Rattle.alc.specs.Table.{Table, entry};
ghost use Rattle.alc.specs.Rules.{plan};
ghost use Rattle.goals.specs.Records.{step_of, ruling, ruling_by};

use alc::{Claim, Concept, Entry, Kind, Name, Role};
use goals::Needs::{Both, Nothing, One};
use goals::Outcome::{Adds, AddsBoth, Closes, Parts};
use goals::{Needs, Outcome, Plan, Step};
use lines::{LEFT, RIGHT};

// A rule that drops nothing: the kind of entry asked, the claims needed, and what comes.
fn keeps(kind: Option<Kind>, needs: Needs, leaves: Outcome) -> Plan
    ensures { result ≡ record { kind = kind; needs = needs; drops = false; fresh = None; leaves = leaves } }
{
    Plan {
        kind,
        needs,
        drops: false,
        fresh: None,
        leaves,
    }
}

// A rule that drops the claim that it needs.
fn drops(kind: Option<Kind>, need: Claim, leaves: Outcome) -> Plan
    ensures { result ≡ record { kind = kind; needs = Needs.One need; drops = true; fresh = None; leaves = leaves } }
{
    Plan {
        kind,
        needs: One(need),
        drops: true,
        fresh: None,
        leaves,
    }
}

// The same, for claims of a name that must be new.
fn drops_for(kind: Option<Kind>, need: Claim, name: Name, leaves: Outcome) -> Plan
    ensures { result ≡ record { kind = kind; needs = Needs.One need; drops = true; fresh = Some name; leaves = leaves } }
{
    Plan {
        fresh: Some(name),
        ..drops(kind, need, leaves)
    }
}

// The rules that close a goal.
#[tactic(auto, unfolding(lines::specs::Text::words, lines::specs::Text::row_index, alc::specs::Rules::plan, goals::specs::Records::step_of))]
fn closing_rule(s: Step) -> Plan
    requires { (steps_from ≤ s.word) × (s.word < number_of "top-l") }
    ensures { (T : Table) → ruling_by (entry T s.y).kind result ≡ ruling (plan T (step_of s.word s.x s.y s.z)) }
{
    let a = Name(s.x);
    let left = alc::is(LEFT, a, Concept(s.y));
    let right = alc::is(RIGHT, a, Concept(s.y));
    let sub_left = alc::sub(LEFT, Concept(s.x), Concept(s.y));
    let sub_right = alc::sub(RIGHT, Concept(s.x), Concept(s.y));
    let link_left = alc::link(LEFT, Role(s.x), Name(s.y), Name(s.z));
    let link_right = alc::link(RIGHT, Role(s.x), Name(s.y), Name(s.z));
    match s.word {
        lines::ID => keeps(Some(Kind::Atom), Both(left, right), Closes),
        lines::ID_SUB => keeps(None, Both(sub_left, sub_right), Closes),
        lines::ID_LINK => keeps(None, Both(link_left, link_right), Closes),
        lines::BOT_L => keeps(Some(Kind::Bot), One(left), Closes),
        _ => keeps(Some(Kind::Top), One(right), Closes),
    }
}

// The rules on `top`, `bot`, `not`, `and` and `or`.
#[tactic(auto, unfolding(lines::specs::Text::words, lines::specs::Text::row_index, alc::specs::Rules::plan, goals::specs::Records::step_of))]
fn boolean_rule(s: Step, e: Entry) -> Plan
    requires { (number_of "top-l" ≤ s.word) × (s.word < number_of "sub-l") }
    ensures { (T : Table) → entry T s.y ≡ shown e → ruling_by (entry T s.y).kind result ≡ ruling (plan T (step_of s.word s.x s.y s.z)) }
{
    let a = Name(s.x);
    let left = alc::is(LEFT, a, Concept(s.y));
    let right = alc::is(RIGHT, a, Concept(s.y));
    let first_left = alc::is(LEFT, a, Concept(e.x));
    let first_right = alc::is(RIGHT, a, Concept(e.x));
    let second_left = alc::is(LEFT, a, Concept(e.y));
    let second_right = alc::is(RIGHT, a, Concept(e.y));
    match s.word {
        lines::TOP_L => keeps(Some(Kind::Top), Nothing, Adds(left)),
        lines::BOT_R => keeps(Some(Kind::Bot), Nothing, Adds(right)),
        lines::NOT_L => drops(Some(Kind::Not), left, Adds(first_right)),
        lines::NOT_R => drops(Some(Kind::Not), right, Adds(first_left)),
        lines::AND_L => drops(Some(Kind::And), left, AddsBoth(first_left, second_left)),
        lines::AND_R => drops(Some(Kind::And), right, Parts(first_right, second_right)),
        lines::OR_L => drops(Some(Kind::Or), left, Parts(first_left, second_left)),
        _ => drops(Some(Kind::Or), right, AddsBoth(first_right, second_right)),
    }
}

// The rules on `sub`, `some` and `all`.
#[tactic(auto, unfolding(lines::specs::Text::words, lines::specs::Text::row_index, alc::specs::Rules::plan, goals::specs::Records::step_of))]
fn role_rule(s: Step, e: Entry) -> Plan
    requires { (number_of "sub-l" ≤ s.word) × (s.word < size_from) }
    ensures { (T : Table) → entry T s.y ≡ shown e → ruling_by (entry T s.y).kind result ≡ ruling (plan T (step_of s.word s.x s.y s.z)) }
{
    let a = Name(s.x);
    let b = Name(s.z);
    let left = alc::is(LEFT, a, Concept(s.y));
    let right = alc::is(RIGHT, a, Concept(s.y));
    let edge = alc::link(LEFT, Role(e.x), a, b);
    let inner_left = alc::is(LEFT, b, Concept(e.y));
    let inner_right = alc::is(RIGHT, b, Concept(e.y));
    let included = alc::sub(LEFT, Concept(s.y), Concept(s.z));
    let in_other = alc::is(LEFT, a, Concept(s.z));
    let to_include = alc::sub(RIGHT, Concept(s.x), Concept(s.y));
    let new_left = alc::is(LEFT, b, Concept(s.x));
    let new_right = alc::is(RIGHT, b, Concept(s.y));
    match s.word {
        lines::SUB_L => keeps(None, Both(included, left), Adds(in_other)),
        lines::SUB_R => drops_for(None, to_include, b, AddsBoth(new_left, new_right)),
        lines::SOME_L => drops_for(Some(Kind::Some), left, b, AddsBoth(edge, inner_left)),
        lines::SOME_R => keeps(Some(Kind::Some), Both(right, edge), Adds(inner_right)),
        lines::ALL_L => keeps(Some(Kind::All), Both(left, edge), Adds(inner_left)),
        _ => drops_for(Some(Kind::All), right, b, AddsBoth(edge, inner_right)),
    }
}

// The plan of a step, by its word, at the entry of its second field.
#[tactic(auto, unfolding(lines::specs::Text::words, lines::specs::Text::row_index))]
pub fn plan_of(s: Step, e: Entry) -> Plan
    requires { (steps_from ≤ s.word) × (s.word < size_from) }
    ensures { (T : Table) → entry T s.y ≡ shown e → ruling_by (entry T s.y).kind result ≡ ruling (plan T (step_of s.word s.x s.y s.z)) }
{
    if s.word < lines::TOP_L {
        return closing_rule(s);
    }
    if s.word < lines::SUB_L {
        return boolean_rule(s, e);
    }
    role_rule(s, e)
}
