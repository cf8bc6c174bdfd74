// The room that the caller lends, a slice of claim records: in the end every one is blank.
#![tactic(auto)]

ghost use Rattle.std.specs.Prelude.{◌≡◌, length, replicate};
ghost use Rattle.alc.specs.Shown.{blank};

use alc::Claim;

// Every record of the room is blank.
pub fn blank_all(room: &mut [Claim])
    ensures { room.new ≡ replicate (length room.old) blank }
{
    room.fill(Claim::default());
}
