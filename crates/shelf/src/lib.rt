// Goals that wait, in the room that the caller lends: stored, and fetched again.
#![tactic(auto)]

ghost use Rattle.std.specs.Prelude.{◌≡◌, ◌+◌, ◌≤◌, length};
ghost use Rattle.alc.specs.Shown.{records};
ghost use Rattle.shelf.specs.Stored.{stored, fetched, goal_of};

use alc::{Claim, Goal};

// The goal's records go into the room, from base on.
pub fn store(room: &mut [Claim], base: usize, g: Goal)
    requires { (g.count ≤ 64) × (base + g.count ≤ length room.old) }
    ensures { room.new ≡ stored room.old base g.claims g.count }
{
    room[base..base + g.count].copy_from_slice(&g.claims[..g.count]);
}

// n records of the room, from base on, as a goal.
#[tactic(auto, unfolding(crate::specs::Stored::blanks))]
pub fn fetch(room: &[Claim], base: usize, n: usize) -> Goal
    requires { (n ≤ 64) × (base + n ≤ length room.now) }
    ensures { result ≡ goal_of (fetched room.now base n) n }
{
    let mut claims = [Claim::default(); 64];
    claims[..n].copy_from_slice(&room[base..base + n]);
    Goal { claims, count: n }
}
