// The claims of a dossier, read line by line into a goal. Words and numbers come from `reading`, and no byte is seen here.
#![tactic(auto)]

ghost use Rattle.std.specs.Prelude.{◌≡◌, ◌<◌, ◌≤◌, ◌+◌, length, cond, eqb, IfOk};
ghost use Rattle.lines.specs.Text.{on_left, on_right};
ghost use Rattle.lines.specs.Walk.{claims_from, sections_from};
ghost use Rattle.alc.specs.Rows.{refusal};
ghost use Rattle.alc.specs.Table.{Table};
ghost use Rattle.alc.specs.Shown.{record_of, row_number};
ghost use Rattle.parts.specs.Parts.{sided_in, claim_rows, section_at, ClaimsRead};

use alc::{Claim, Concept, Goal, Name, Refusal, Role};
use lines::{IN_CLAIMS, LEFT, Line, Next, RIGHT};
use parts::{Claims, Heading, Reached, Section, Stopped, ranged};

// The side of a claim.
fn side_of(l: Line) -> u8
    ensures { result ≡ cond (eqb l.side on_left) on_left on_right }
{
    if l.side == LEFT {
        return LEFT;
    }
    RIGHT
}

// The claim that a line of the text is. No `TryFrom`: a line of another word never comes here, so it could not fail.
fn made_claim(l: Line) -> Claim
    requires { (claims_from ≤ l.word) × (l.word < sections_from) }
    ensures { result ≡ record_of (sided_in l) }
{
    let side = side_of(l);
    let x = (l.n0 % 256) as u8;
    let y = (l.n1 % 256) as u8;
    let z = (l.n2 % 256) as u8;
    if l.word == lines::IS {
        return alc::is(side, Name(x), Concept(y));
    }
    if l.word == lines::SUB {
        return alc::sub(side, Concept(x), Concept(y));
    }
    alc::link(side, Role(x), Name(y), Name(z))
}

// The claim that a line of the text is, behind so many others, or the first row that it does not pass.
#[tactic(auto, using(crate::proofs::ClaimLaws::claim_full))]
fn next_claim(l: Line, entries: usize, claims: usize) -> Result<Claim, Refusal>
    requires { (claims_from ≤ l.word) × (l.word < sections_from) }
    ensures row { row_number result ≡ refusal (claim_rows entries claims l) }
    ensures claim { IfOk result (λ c. c ≡ record_of (sided_in l)) }
{
    if claims >= 64 {
        return Err(Refusal::TooMany);
    }
    if !ranged(l, entries, 0) {
        return Err(Refusal::OutOfRange);
    }
    Ok(made_claim(l))
}

// What a word ends the claims with.
fn section(word: u8) -> Section
    ensures { result ≡ section_at word }
{
    if word == lines::PROOF {
        return Section::Proof;
    }
    Section::Model
}

// The line behind so many others is refused, which begins at a position: with what was read before it.
fn stopped(refusal: Refusal, claims: Goal, at: usize, lines: usize) -> Stopped<Claims>
    requires { lines < 18446744073709551615 }
    ensures { result ≡ record { refused = record { refusal = refusal; line = lines + 1 }; read = record { claims = claims; reached = record { at = at; lines = lines } } } }
{
    let reached = Reached { at, lines };
    Stopped::new(refusal, lines + 1, Claims { claims, reached })
}

// Reads the claims, from a position on, behind a table of so many lines, up to `proof` or `model`.
// No `Reached`: the lines before them are the table's, whose count is asked anyway.
pub fn read_claims(text: &[u8], start: usize, entries: usize) -> Result<Heading, Stopped<Claims>>
    requires { (start ≤ length text.now) × (entries ≤ start) × (entries ≤ 256) }
    ensures { (T : Table) → length T ≡ entries → ClaimsRead text.now T start result }
{
    let mut at = start;
    let mut n = entries;
    let mut claims = goals::empty();
    loop {
        match reading::read(text, at, IN_CLAIMS) {
            Next::Found(l, next) => {
                let lines = n + 1;
                if l.word >= lines::PROOF {
                    return Ok(Heading {
                        claims,
                        section: section(l.word),
                        reached: Reached { at: next, lines },
                    });
                }
                match next_claim(l, entries, claims.count) {
                    Ok(claim) => claims = goals::with(claims, claim),
                    Err(refusal) => return Err(stopped(refusal, claims, at, n)),
                }
                at = next;
                n = lines;
            }
            Next::Bad => return Err(stopped(Refusal::Malformed, claims, at, n)),
            Next::End => return Err(stopped(Refusal::Unfinished, claims, at, n)),
        }
    }
}
