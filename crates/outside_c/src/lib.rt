// The judge for programs in other languages: a static library's one function.
#![tactic(auto)]

ghost use Rattle.std.specs.Prelude.{◌≡◌, length, replicate};
ghost use Rattle.alc.specs.Shown.{blank};
ghost use Rattle.alc.specs.Verdict.{verdict};
ghost use Rattle.outside.specs.Told.{packed};

use alc::Claim;

// Judges a text in a room that the caller lends, which is blank afterwards. The verdict comes back as one number: 8 bits of the word, 8 of the number
// and 32 of the line, from the lowest up.
#[unsafe(no_mangle)]
pub extern "C" fn outside_judge(room: &mut [Claim], text: &[u8]) -> u64
    ensures answer { result ≡ packed (verdict (length room.old) text.now) }
    ensures room { room.new ≡ replicate (length room.old) blank }
{
    outside::outside_judge(room, text)
}
