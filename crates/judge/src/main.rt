// The judging program: a dossier from standard input, one line out: word, number and line, parted by tabs.
#![tactic(auto)]

ghost use Rattle.std.specs.Prelude.{◌≡◌, ◌<◌, ◌≤◌, length, take, IfOk, MatchResult};
ghost use Rattle.std.specs.Io.KnownBytes.{Consumes, IsAtEnd};

use std::io::Read;

// 65,536 bytes are enough to decide: a text that fills them is too long. Whether the line could be written is not looked at, since no contract can say
// that it is.
fn main(rt: HostRuntime) {
    let mut text = [0; 65536];
    match read_all(&mut rt.stdin(), &mut text) {
        Ok(count) => {
            let _ = rt.print(report::line_of(verdict::judge_here(&text[..count])));
        }
        Err(_) => {
            let _ = rt.eprint("judge: standard input can't be read\n");
        }
    }
}

// A read failed, with so many bytes read before it.
#[derive(Clone, Copy)]
struct Failed {
    count: usize,
}

// Reads until the buffer is full, the input ends or a read fails. What was read stands in front, in order, and is what the input has lost, on a failure
// too; where no read failed and the buffer isn't full, the input is at its end. A loop by hand: std's `read_to_end` needs a heap, and its `read_exact` says
// nothing of what was read where it fails.
#[tactic(auto, using(crate::proofs::Filled::filled))]
fn read_all<R: Read>(input: &mut R, buf: &mut [u8]) -> Result<usize, Failed>
    ensures count { MatchResult result (λ n. n ≤ length buf.new) (λ e. e.count ≤ length buf.new) }
    ensures bytes { MatchResult result
        (λ n. Consumes (R.remaining input.old) (R.remaining input.new) (take n buf.new))
        (λ e. Consumes (R.remaining input.old) (R.remaining input.new) (take e.count buf.new)) }
    ensures all { IfOk result (λ n. n < length buf.new → IsAtEnd (R.remaining input.new)) }
{
    let mut done: usize = 0;
    while done < buf.len() {
        let more = input
            .read(&mut buf[done..])
            .map_err(|_| Failed { count: done })?;
        if more == 0 {
            break;
        }
        done += more;
    }
    Ok(done)
}
