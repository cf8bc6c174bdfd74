// Where a derivation stands, by value. What a line does to it `steps` and `derivation` say; no line is read here.
#![tactic(auto)]

ghost use Rattle.std.specs.Prelude.{◌≡◌};
ghost use Rattle.states.specs.Standing.{begun_of, no_counts};

use alc::Goal;
use parts::Reached;

// Where a derivation stands: the current goal, how many claims each goal that waits has, and how far the text is read.
#[derive(Clone, Copy)]
pub struct State {
    // the current goal, where one is open
    pub goal: Goal,
    // the claims of each goal that waits, the one put aside first at 0: a fixed array, since there is no heap
    pub counts: [u8; 16],
    // how many goals are open: the current one and those that wait
    pub open: usize,
    pub steps: usize,
    pub reached: Reached,
}

// The state at the first step: the claims of the file are the only goal.
#[tactic(auto, unfolding(crate::specs::Standing::no_counts))]
pub fn begun(claims: Goal, reached: Reached) -> State
    ensures { result ≡ begun_of claims reached.at reached.lines }
{
    State {
        goal: claims,
        counts: [0; 16],
        open: 1,
        steps: 0,
        reached,
    }
}
