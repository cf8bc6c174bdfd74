// A model: its lines, told one by one, are kept in arrays of sets of 32 bits, and what they say is read off the sets.
#![tactic(auto)]

ghost use Rattle.std.specs.Prelude.{◌≡◌, ℕ, ◌<◌};
ghost use Rattle.models.specs.Arrays.{seats, seats_of};

use alc::{Atom, Element, Name, Role};
use sets::{Set, Size};

// A model of a size: the element at which each name is placed, the elements of each atom, and at 32 r + d the elements to which role r leads from
// element d. That each place is an element of the model is no part of the type, since `place`, `has` and `edge` answer for any places: it is asked where
// claims are judged.
#[derive(Clone, Copy)]
pub struct Model {
    pub size: Size,
    places: [Option<Element>; 64],
    atoms: [Set; 64],
    edges: [Set; 512],
}

impl Model {
    ghost use Rattle.std.specs.Prelude.{[]};
    ghost use Rattle.sets.specs.Bit.{bit};
    ghost use Rattle.models.specs.Shown.{world_of, PlaceSet, AtomSet, EdgeSet};
    ghost use Rattle.models.specs.Told.{Tells};

    // No name is placed, no atom has an element and no role a pair.
    pub fn new(size: Size) -> Self
        ensures size { result.size ≡ size }
        ensures tells { Tells size.count [] result }
    {
        Model {
            size,
            places: [None; 64],
            atoms: [Set::EMPTY; 64],
            edges: [Set::EMPTY; 512],
        }
    }

    // `name a d`: puts the name at the element if it is free, and says whether it was.
    pub fn place(&mut self, a: Name, d: Element) -> bool
        requires { (a.0 < 64) × (d.0 < 32) }
        ensures { PlaceSet self.old self.new a.0 d.0 result }
    {
        let i = a.0 as usize;
        let seat = self.places[i];
        if seat.is_some() {
            return false;
        }
        self.places[i] = Some(d);
        true
    }

    // `has A d`: puts the element into the atom, and says whether it was not there.
    pub fn has(&mut self, a: Atom, d: Element) -> bool
        requires { (a.0 < 64) × (d.0 < 32) }
        ensures { AtomSet self.old self.new a.0 d.0 result }
    {
        self.atoms[a.0 as usize].insert(d)
    }

    // `edge r d e`: puts the pair into the role, and says whether it was not there.
    pub fn edge(&mut self, r: Role, d: Element, e: Element) -> bool
        requires { (r.0 < 16) × (d.0 < 32) × (e.0 < 32) }
        ensures { EdgeSet self.old self.new r.0 d.0 e.0 result }
    {
        self.edges[(r.0 as usize) * 32 + (d.0 as usize)].insert(e)
    }

    // The element at which a name is placed.
    pub fn place_of(&self, a: Name) -> Option<Element>
        requires { a.0 < 64 }
        ensures { seats result ≡ seats_of self.now.places a.0 }
    {
        self.places[a.0 as usize]
    }

    // The elements of an atom.
    pub fn elements(&self, atom: Atom) -> Set
        requires { atom.0 < 64 }
        ensures { (d : ℕ) → bit result d ≡ (world_of self.now).atoms atom.0 d }
    {
        self.atoms[atom.0 as usize]
    }

    // The elements to which a role leads from an element.
    pub fn successors(&self, role: Role, from: Element) -> Set
        requires { (role.0 < 16) × (from.0 < 32) }
        ensures { (e : ℕ) → bit result e ≡ (world_of self.now).roles role.0 from.0 e }
    {
        self.edges[(role.0 as usize) * 32 + (from.0 as usize)]
    }
}
