// Sets of elements as numbers of 32 bits: what is asked of a set, and what is made of one.
#![tactic(auto)]

ghost use Rattle.std.specs.Prelude.{◌≡◌, ◌&&◌, ◌||◌, not, ℕ, ◌<◌, eqb, ltb, get_or};
ghost use Rattle.sets.specs.Bit.{bit, common, Sized};

use alc::{Concept, Element};
use std::marker::Model;

// How many elements a model has.
#[derive(Clone, Copy)]
pub struct Size {
    pub count: u8,
    pub ghost sized: { Sized count },
}

// A set of elements, as 32 bits: in a clause it is their number.
#[derive(Clone, Copy, PartialEq, Eq, Default)]
pub struct Set {
    bits: u32,
}

impl Model for Set {
    ghost Value = { ℕ };

    ghost view = { λ s. s.bits };

    ghost inverse = { λ n. record { bits = n } };
}

impl Set {
    // No element.
    pub const EMPTY: Set = Set { bits: 0 };

    // Element d is in the set.
    pub fn contains(self, d: Element) -> bool
        requires { d.0 < 32 }
        ensures { result ≡ bit self d.0 }
    {
        (self.bits >> d.0) % 2 == 1
    }

    // Puts d into the set, and says whether it was not there.
    pub fn insert(&mut self, d: Element) -> bool
        requires { d.0 < 32 }
        ensures answer { result ≡ not (bit self.old d.0) }
        ensures elements { (e : ℕ) → bit self.new e ≡ (bit self.old e || eqb d.0 e) }
    {
        let old = *self;
        self.bits = old.bits | (1 << d.0);
        !old.contains(d)
    }

    // Two sets have an element in common.
    pub fn meets(self, other: Set) -> bool
        ensures { result ≡ common self other }
    {
        share(self.bits, other.bits)
    }

    // The elements that are in both sets.
    pub fn intersection(self, other: Set) -> Set
        ensures { (e : ℕ) → bit result e ≡ (bit self e && bit other e) }
    {
        Set {
            bits: self.bits & other.bits,
        }
    }

    // The elements that are in either set.
    pub fn union(self, other: Set) -> Set
        ensures { (e : ℕ) → bit result e ≡ (bit self e || bit other e) }
    {
        Set {
            bits: self.bits | other.bits,
        }
    }

    // The elements of a size.
    pub fn full(size: Size) -> Set
        ensures { (e : ℕ) → bit result e ≡ ltb e size.count }
    {
        Set {
            bits: 0xffff_ffff >> (32 - size.count),
        }
    }

    // The elements of a size that are in the set.
    pub fn inside(self, size: Size) -> Set
        ensures { (e : ℕ) → bit result e ≡ (ltb e size.count && bit self e) }
    {
        Set::full(size).intersection(self)
    }

    // The elements of a size that are not in the set.
    pub fn outside(self, size: Size) -> Set
        ensures { (e : ℕ) → bit result e ≡ (ltb e size.count && not (bit self e)) }
    {
        let all = Set::full(size);
        Set {
            bits: all.bits & (all.bits ^ self.bits),
        }
    }
}

// Two numbers of 32 bits have one in common.
fn share(x: u32, y: u32) -> bool
    ensures { result ≡ common x y }
{
    x & y != 0
}

// The elements of a line above.
pub fn set_of(ext: &[Set; 256], i: Concept) -> Set
    ensures { result ≡ get_or ext.now i.0 0 }
{
    ext[i.0 as usize]
}
