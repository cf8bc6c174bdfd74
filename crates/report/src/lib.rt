// The judge's answer as the line that is printed: word, number and line, parted by tabs.
#![tactic(auto)]

ghost use Rattle.std.specs.Prelude.{◌≡◌, ◌≤◌, length};
ghost use Rattle.alc.specs.Shown.{answered};
ghost use Rattle.report.specs.Printed.{columns, printed};

use alc::Answer;
use arrayvec::ArrayString;
use itoa::Buffer;

// A line as it is printed: seven bytes of a word, twenty digits of each number and three bytes between and behind them at the most.
pub type Line = ArrayString<50>;

// A word of seven bytes at the most, a number and a line.
#[tactic(auto, using(crate::proofs::Laws::in_a_row))]
fn in_columns(word: &str, number: u8, line: usize) -> Line
    requires { length word.now ≤ 7 }
    ensures { result.bytes ≡ columns word.now number line }
{
    let mut digits = Buffer::new();
    let mut out = Line::new();
    out.push_str(word);
    out.push('\t');
    out.push_str(digits.format(number));
    out.push('\t');
    out.push_str(digits.format(line));
    out.push('\n');
    out
}

// The line of an answer. No `Display`: its contract gives the bytes only where writing answers `Ok`.
pub fn line_of(answer: Answer) -> Line
    ensures { result.bytes ≡ printed (answered answer) }
{
    match answer {
        Answer::Proved(lines) => in_columns("proved", 0, lines),
        Answer::Refuted(lines) => in_columns("refuted", 0, lines),
        Answer::Refused(number, line) => in_columns("refused", number, line),
    }
}
