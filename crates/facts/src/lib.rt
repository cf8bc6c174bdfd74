// The model of a dossier: its size, and its facts line by line, told to a model of `models`; at the end the claims are judged by it.
// Words and numbers come from `reading`, ranges from `parts`, and no byte is seen here.
#![tactic(auto)]

ghost use Rattle.std.specs.Prelude.{◌≡◌, List, [], ℕ, ◌<◌, ◌≤◌, length, drop};
ghost use Rattle.lines.specs.Text.{word_count, lines_of};
ghost use Rattle.lines.specs.Walk.{facts_from};
ghost use Rattle.alc.specs.Lists.{All};
ghost use Rattle.alc.specs.Model.{Fact, fact_fields};
ghost use Rattle.alc.specs.Shown.{claims_in, answered};
ghost use Rattle.alc.specs.Verdict.{judge, modelled};
ghost use Rattle.parts.specs.Parts.{at_start};
ghost use Rattle.models.specs.Arrays.{Inside};
ghost use Rattle.models.specs.Shown.{Below, Claimed};
ghost use Rattle.models.specs.Told.{Tells};
ghost use Rattle.facts.specs.Asked.{Asked, in_facts, fact_in, Stored};
ghost use Rattle.facts.specs.Read.{SizeRead, FactsRead, concluded};

use alc::{Answer, Atom, Element, Goal, Name, Refusal, Refused, Role, Table};
use lines::{AT_SIZE, IN_FACTS, Line, Next};
use models::Model;
use parts::Reached;
use sets::Size;

// Stores the fact that a line is, by its word, and says whether it repeats nothing.
fn store(l: Line, model: &mut Model) -> bool
    requires { (facts_from ≤ l.word) × (l.word < word_count) × All (Below 0 32) (fact_fields (fact_in l)) }
    ensures { (n : ℕ) (fs : List Fact) → All (Below 0 n) (fact_fields (fact_in l)) → Tells n fs model.old → Stored n fs (fact_in l) model.new result }
{
    let x = (l.n0 % 256) as u8;
    let y = (l.n1 % 256) as u8;
    let z = (l.n2 % 256) as u8;
    let word = l.word;
    match word {
        lines::NAME => model.place(Name(x), Element(y)),
        lines::HAS => model.has(Atom(x), Element(y)),
        _ => model.edge(Role(x), Element(y), Element(z)),
    }
}

// Reads the size of a model: the size, and where the next line begins.
fn read_size(text: &[u8], from: Reached, entries: usize) -> Result<(Size, usize), Refused>
    requires bounds { (from.at ≤ length text.now) × (from.lines ≤ from.at) × (entries ≤ 256) }
    ensures { SizeRead text.now from.at from.lines entries result }
{
    let line = from.lines + 1;
    match reading::read(text, from.at, AT_SIZE) {
        Next::Found(l, next) => {
            if !parts::ranged(l, entries, 0) {
                return Err(Refused {
                    refusal: Refusal::OutOfRange,
                    line,
                });
            }
            let count = (l.n0 % 256) as u8;
            Ok((Size { count }, next))
        }
        Next::Bad => Err(Refused {
            refusal: Refusal::Malformed,
            line,
        }),
        Next::End => Err(Refused {
            refusal: Refusal::Unfinished,
            line,
        }),
    }
}

// Reads the facts, up to the end or the first line that is refused: how many lines were read.
fn read_facts(
    text: &[u8],
    from: Reached,
    entries: usize,
    model: &mut Model,
) -> Result<usize, Refused>
    requires bounds { (from.at ≤ length text.now) × (from.lines ≤ from.at) × (entries ≤ 256) }
    requires tells { Tells model.old.size.count [] model.old }
    ensures { FactsRead text.now from.at from.lines entries model.old.size.count model.new result }
{
    let mut at = from.at;
    let mut n = from.lines;
    loop {
        let line = n + 1;
        match reading::read(text, at, IN_FACTS) {
            Next::Found(l, next) => {
                if !parts::ranged(l, entries, model.size.count) {
                    return Err(Refused {
                        refusal: Refusal::OutOfRange,
                        line,
                    });
                }
                if !store(l, model) {
                    return Err(Refused {
                        refusal: Refusal::Repeated,
                        line,
                    });
                }
                at = next;
                n = line;
            }
            Next::Bad => {
                return Err(Refused {
                    refusal: Refusal::Malformed,
                    line,
                });
            }
            Next::End => return Ok(n),
        }
    }
}

// What the end of a dossier of n lines in all comes to: n, or a refusal. The line behind them has a number too, so n is not the largest one.
fn ended(claims: Goal, n: usize, table: &Table, model: &Model) -> Result<usize, Refused>
    requires countable { n < 18446744073709551615 }
    requires claimed { Claimed (length table.now) claims }
    requires inside { Inside model.now.size.count model.now.places }
    ensures { (k : ℕ) (fs : List Fact) → Tells k fs model.now → concluded result ≡ modelled n (in_facts table.now (claims_in claims) k fs) }
{
    let entries = table.len();
    if !truth::all_placed(claims, model) {
        return Err(Refused {
            refusal: Refusal::Unfinished,
            line: n + 1,
        });
    }
    let w = truth::countered(table, model, claims);
    if w < claims.count {
        return Err(Refused {
            refusal: Refusal::NotFalsified,
            line: entries + w + 1,
        });
    }
    Ok(n)
}

// What a model comes to from its first line on: the count of the lines where it refutes the claims, or a refusal.
fn refuted(text: &[u8], from: Reached, table: &Table, claims: Goal) -> Result<usize, Refused>
    requires { Asked text.now from.at from.lines (length table.now) claims }
    ensures { concluded result ≡ judge from.lines (at_start table.now (claims_in claims)) (lines_of (drop from.at text.now)) }
{
    let entries = table.len();
    let (size, at) = read_size(text, from, entries)?;
    let mut model = Model::new(size);
    let lines = from.lines + 1;
    let n = read_facts(text, Reached { at, lines }, entries, &mut model)?;
    ended(claims, n, table, &model)
}

// Judges a model from its first line on, which is its size. Not part of its caller, so that a derivation is judged without the stack that a model takes.
#[inline(never)]
pub fn judge_model(text: &[u8], from: Reached, table: &Table, claims: Goal) -> Answer
    requires { Asked text.now from.at from.lines (length table.now) claims }
    ensures { answered result ≡ judge from.lines (at_start table.now (claims_in claims)) (lines_of (drop from.at text.now)) }
{
    match refuted(text, from, table, claims) {
        Ok(n) => Answer::Refuted(n),
        Err(r) => Answer::from(r),
    }
}
