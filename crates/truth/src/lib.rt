// The claims in a model: whether all their names are placed, and the first claim that the model gets wrong.
#![tactic(auto)]

ghost use Rattle.std.specs.Prelude.{◌≡◌, ◌||◌, not, ◌<◌, length};
ghost use Rattle.alc.specs.Lists.{All, every, first_at};
ghost use Rattle.alc.specs.Meaning.{every_below};
ghost use Rattle.alc.specs.Claims.{claim_fields, names, holds_by};
ghost use Rattle.alc.specs.Shown.{claim_of, sided_of, claims_in};
ghost use Rattle.sets.specs.Bit.{bit};
ghost use Rattle.models.specs.Arrays.{Inside};
ghost use Rattle.models.specs.Shown.{seat_of, is_seated, all_seated, interp_shown, Below, Claimed};
ghost use Rattle.truth.specs.Truth.{truth_in, wrong_in};

use alc::{Claim, Element, Goal, Name, Table, kinds};
use extents::extensions;
use models::Model;
use sets::{Set, Size, set_of};

// The element at which a name is placed; 0 where it is not.
#[tactic(auto, using(crate::proofs::ClaimLaws::seat_in_set))]
fn seat(model: &Model, a: Name) -> Element
    requires name { a.0 < 64 }
    requires inside { Inside model.now.size.count model.now.places }
    ensures place { result.0 ≡ seat_of model.now a.0 }
    ensures low { result.0 < 32 }
{
    model.place_of(a).unwrap_or_default()
}

// The name is placed.
fn seated(model: &Model, a: Name) -> bool
    requires { a.0 < 64 }
    ensures { result ≡ is_seated model.now a.0 }
{
    model.place_of(a).is_some()
}

// Every element of a size that is in the one set is in the other.
fn within(size: Size, x: Set, y: Set) -> bool
    ensures { result ≡ every_below size.count (λ d. not (bit x d) || bit y d) }
{
    !x.meets(y.outside(size))
}

// The claim is true in the model, whose sets for the lines of the table are `ext`.
fn holds(c: Claim, model: &Model, ext: &[Set; 256]) -> bool
    requires numbers { All (Below 256 0) (claim_fields (claim_of c)) }
    requires inside { Inside model.now.size.count model.now.places }
    ensures { result ≡ truth_in ext.now (interp_shown model.now) (claim_of c) }
{
    let kind = c.kind;
    match kind {
        kinds::IS => set_of(ext, c.i).contains(seat(model, c.a)),
        kinds::SUB => within(model.size, set_of(ext, c.i), set_of(ext, c.j)),
        _ => model
            .successors(c.role, seat(model, c.a))
            .contains(seat(model, c.b)),
    }
}

// The model gets the claim wrong: a left claim that is false, or a right claim that is true.
fn wrong(c: Claim, model: &Model, ext: &[Set; 256]) -> bool
    requires numbers { All (Below 256 0) (claim_fields (claim_of c)) }
    requires inside { Inside model.now.size.count model.now.places }
    ensures { result ≡ wrong_in ext.now (interp_shown model.now) (sided_of c) }
{
    let side = c.side;
    let t = holds(c, model, ext);
    if side == lines::LEFT {
        return !t;
    }
    t
}

// The place of the first claim that the model gets wrong, or the count of the claims. `ext` has the elements of each line of the table.
// The form is asked for: a loop over the claims that yields the first wrong claim's place by `break`.
fn first_wrong(claims: Goal, model: &Model, ext: &[Set; 256]) -> usize
    requires claimed { Claimed 256 claims }
    requires inside { Inside model.now.size.count model.now.places }
    ensures { result ≡ first_at (wrong_in ext.now (interp_shown model.now)) (claims_in claims) }
{
    let n = claims.count;
    let mut i: usize = 0;
    let place = loop {
        if i == n {
            break n;
        }
        let c = claims.claims[i];
        if wrong(c, model, ext) {
            break i;
        }
        i += 1;
    };
    place
}

// Every name in the claim is placed.
fn placed(c: Claim, model: &Model) -> bool
    requires { All (Below 256 0) (claim_fields (claim_of c)) }
    ensures { result ≡ every (is_seated model.now) (names (claim_of c)) }
{
    let kind = c.kind;
    match kind {
        kinds::IS => seated(model, c.a),
        kinds::SUB => true,
        _ => seated(model, c.a) && seated(model, c.b),
    }
}

// Every name in the claims is placed.
pub fn all_placed(claims: Goal, model: &Model) -> bool
    requires { Claimed 256 claims }
    ensures { result ≡ all_seated model.now (claims_in claims) }
{
    for c in &claims.claims[..claims.count] {
        if !placed(*c, model) {
            return false;
        }
    }
    true
}

// The place of the first claim that the model gets wrong by the meaning of the concepts, or the count of the claims. Each placed name has to be
// at an element of the model: the sets of the concepts have no others.
pub fn countered(table: &Table, model: &Model, claims: Goal) -> usize
    requires claimed { Claimed (length table.now) claims }
    requires inside { Inside model.now.size.count model.now.places }
    ensures { result ≡ first_at (holds_by table.now (interp_shown model.now)) (claims_in claims) }
{
    let ext = extensions(table, model);
    first_wrong(claims, model, &ext)
}
