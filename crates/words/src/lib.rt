// Which word a field is. The words are fixed byte strings, and a field is compared with one after the other, of those alone that may stand at the
// place.
#![tactic(auto)]

ghost use Rattle.std.specs.Prelude.{◌≡◌, ◌-◌, length};
ghost use Rattle.lines.specs.Text.{bytes, row_of, step_words, word_of, behind_of};
ghost use Rattle.lines.specs.Walk.{steps_from, placed, sought};
ghost use Rattle.words.specs.Seek.{seek};

use lines::{AT_SIZE, IN_CLAIMS, IN_FACTS, IN_STEPS, IN_TABLE, NO_SIDE, WORDS, same};

// The word of number w.
fn spelling(w: u8) -> &'static [u8]
    ensures { result.now ≡ bytes (row_of w).word }
{
    match w {
        lines::TOP => b"top",
        lines::BOT => b"bot",
        lines::ATOM => b"atom",
        lines::NOT => b"not",
        lines::AND => b"and",
        lines::OR => b"or",
        lines::SOME => b"some",
        lines::ALL => b"all",
        lines::IS => b"is",
        lines::SUB => b"sub",
        lines::LINK => b"link",
        lines::PROOF => b"proof",
        lines::MODEL => b"model",
        lines::ID => b"id",
        lines::ID_SUB => b"id-sub",
        lines::ID_LINK => b"id-link",
        lines::BOT_L => b"bot-l",
        lines::TOP_R => b"top-r",
        lines::TOP_L => b"top-l",
        lines::BOT_R => b"bot-r",
        lines::NOT_L => b"not-l",
        lines::NOT_R => b"not-r",
        lines::AND_L => b"and-l",
        lines::AND_R => b"and-r",
        lines::OR_L => b"or-l",
        lines::OR_R => b"or-r",
        lines::SUB_L => b"sub-l",
        lines::SUB_R => b"sub-r",
        lines::SOME_L => b"some-l",
        lines::SOME_R => b"some-r",
        lines::ALL_L => b"all-l",
        lines::ALL_R => b"all-r",
        lines::SIZE => b"size",
        lines::NAME => b"name",
        lines::HAS => b"has",
        lines::EDGE => b"edge",
        _ => b"",
    }
}

// The number of the field f as a word, if it is one of the words from `from` on, before `to`.
#[tactic(auto, using(crate::proofs::Seeking::one_by_one))]
fn among(f: &[u8], from: u8, to: u8) -> Option<u8>
    ensures { result ≡ seek f.now from (to - from) }
{
    for w in from..to {
        if same(f, spelling(w)) {
            return Some(w);
        }
    }
    None
}

// The number of the field f as a word of the concept table, or as `proof` or `model`, or the count of words.
fn table_word(f: &[u8]) -> u8
    ensures { result ≡ sought 0 f.now 0 steps_from }
{
    if let Some(w) = among(f, lines::TOP, lines::IS) {
        return w;
    }
    among(f, lines::PROOF, lines::ID).unwrap_or(WORDS)
}

// The same among the words of the steps, in parts that are short, so that the compiler unrolls the loop over each: in one it cost 13 percent more on a long
// derivation.
fn step_word(f: &[u8]) -> u8
    ensures { result ≡ sought 0 f.now steps_from (length step_words) }
{
    if let Some(w) = among(f, lines::ID, lines::NOT_L) {
        return w;
    }
    if let Some(w) = among(f, lines::NOT_L, lines::SUB_L) {
        return w;
    }
    among(f, lines::SUB_L, lines::SIZE).unwrap_or(WORDS)
}

// The number of the field f as a word of a line of a side, at a place, or the count of words. No word that is not allowed there is compared.
pub fn word(f: &[u8], side: u8, place: u8) -> u8
    ensures { result ≡ placed place (word_of (behind_of side) f.now) }
{
    if side != NO_SIDE {
        if place > IN_CLAIMS {
            return WORDS;
        }
        return among(f, lines::IS, lines::PROOF).unwrap_or(WORDS);
    }
    match place {
        IN_TABLE => table_word(f),
        IN_CLAIMS => among(f, lines::PROOF, lines::ID).unwrap_or(WORDS),
        IN_STEPS => step_word(f),
        AT_SIZE => among(f, lines::SIZE, lines::NAME).unwrap_or(WORDS),
        IN_FACTS => among(f, lines::NAME, WORDS).unwrap_or(WORDS),
        _ => WORDS,
    }
}
