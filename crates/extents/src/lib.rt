// The elements of each line of the concept table in a model, as sets, worked out from those of the lines above it.
#![tactic(auto)]

ghost use Rattle.std.specs.Prelude.{◌≡◌, ◌&&◌, ◌||◌, not, ℕ, ◌<◌, ◌≤◌, ltb, length, get_or};
ghost use Rattle.alc.specs.Lists.{All};
ghost use Rattle.alc.specs.Meaning.{some_below, every_below};
ghost use Rattle.alc.specs.Table.{entry_fields};
ghost use Rattle.alc.specs.Entries.{kind_of, shown};
ghost use Rattle.sets.specs.Bit.{bit};
ghost use Rattle.models.specs.Shown.{world_of, Below};
ghost use Rattle.extents.specs.Extent.{extent as extent_of, reaches, Extended};

use alc::{Atom, Concept, Element, Entry, Kind, Role, Table};
use models::Model;
use sets::{Set, set_of};

// The elements with an edge of the role into the set.
fn reaching(model: &Model, r: Role, s: Set) -> Set
    requires { r.0 < 16 }
    ensures { (d : ℕ) → bit result d ≡ (ltb d model.now.size.count && reaches (world_of model.now) r.0 s d) }
{
    let mut out = Set::EMPTY;
    for d in 0..model.size.count {
        if model.successors(r, Element(d)).meets(s) {
            out.insert(Element(d));
        }
    }
    out
}

// The elements with an edge of the role into the set: what `some` has.
fn some_in(model: &Model, r: Role, s: Set) -> Set
    requires { r.0 < 16 }
    ensures { (d : ℕ) → bit result d ≡ (ltb d model.now.size.count && some_below model.now.size.count (λ e. (world_of model.now).roles r.0 d e && bit s e)) }
{
    reaching(model, r, s.inside(model.size))
}

// The elements with no edge of the role out of the set, so those with no edge too: what `all` has.
fn all_in(model: &Model, r: Role, s: Set) -> Set
    requires { r.0 < 16 }
    ensures { (d : ℕ) → bit result d ≡ (ltb d model.now.size.count && every_below model.now.size.count (λ e. not ((world_of model.now).roles r.0 d e) || bit s e)) }
{
    let size = model.size;
    reaching(model, r, s.outside(size)).outside(size)
}

// The elements of one line of the table, from those of the lines above it.
fn extent(entry: Entry, model: &Model, ext: &[Set; 256]) -> Set
    requires { All (Below 256 0) (entry_fields (shown entry)) }
    ensures { (d : ℕ) → d < model.now.size.count → bit result d ≡ extent_of (world_of model.now) (kind_of entry.kind) entry.x entry.y (λ p. bit (get_or ext.now p 0)) d }
{
    let Entry { kind, x, y } = entry;
    match kind {
        Kind::Top => Set::full(model.size),
        Kind::Bot => Set::EMPTY,
        Kind::Atom => model.elements(Atom(x)),
        Kind::Not => set_of(ext, Concept(x)).outside(model.size),
        Kind::And => set_of(ext, Concept(x)).intersection(set_of(ext, Concept(y))),
        Kind::Or => set_of(ext, Concept(x)).union(set_of(ext, Concept(y))),
        Kind::Some => some_in(model, Role(x), set_of(ext, Concept(y))),
        Kind::All => all_in(model, Role(x), set_of(ext, Concept(y))),
    }
}

// The elements of every line of the table, of which there are at most 256: a line's set is worked out from those above it. The form is asked for: an array
// of 256 sets of 32 bits, filled entry by entry.
pub fn extensions(table: &Table, model: &Model) -> [Set; 256]
    ensures few { length table.now ≤ 256 }
    ensures sets { Extended result (length table.now) table.now (world_of model.now) }
{
    let mut ext = [Set::EMPTY; 256];
    for i in 0..table.len() {
        let set = extent(table.entry(i), model, &ext);
        ext[i] = set.inside(model.size);
    }
    ext
}
