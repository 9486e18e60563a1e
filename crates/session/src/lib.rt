// A session of the panel: from the bytes of its lines to the bytes of their answers, with a memory of its own.
#![tactic(auto)]

ghost use Rattle.std.specs.Prelude.{◌≡◌, ◌*◌, ◌<◌, ◌≤◌, List, ℕ, length};
ghost use Rattle.tables.specs.Tables.{written_on};
ghost use Rattle.forms.specs.Read.{form_of};
ghost use Rattle.session.specs.Session.{longest, step_by};
ghost use Rattle.session.specs.Runs.{Cuts};
ghost use Rattle.session.specs.Output.{output_of, filled_by};

mod printer;
mod runner;

use crate::runner::Answer;
use memory_rules::Memory;
use requests::Lists;

// A longer session is answered by a refusal alone.
pub const LONGEST: usize = 65536;

// The first line without its end, and the bytes after that: byte 10, or the end of the input, ends a line.
fn cut(s: &[u8]) -> (&[u8], &[u8])
    ensures { 0 < length s.now → Cuts s.now result.0.now result.1.now }
{
    let end = text::find(s, 0, b'\n');
    (&s[..end], &s[(end + 1).min(s.len())..])
}

// The answer to a line.
#[tactic(auto, using(crate::proofs::Forms::asked, crate::proofs::Forms::not_asked))]
fn answer(line: &[u8], lists: &mut Lists, m: &mut Memory) -> Answer
    ensures { record { memory = m.new; answer = result } ≡ step_by m.old (form_of line.now) }
{
    match requests::read(line, lists) {
        Some(request) => runner::answered(request, lists, m),
        None => Answer::NoForm,
    }
}

// The answers to the lines of a session, a line each. It gives how long they are together. Those that fit whole are written, up to the first that does not; the rest of the buffer stays as it was.
pub fn run(input: &[u8], out: &mut [u8]) -> usize
    ensures { (result ≡ length (output_of input.now)) × (out.new ≡ filled_by input.now out.old) }
{
    if LONGEST < input.len() {
        return printer::put(out, 0, Answer::No(u64::from(refusal::Refusal::BadList)));
    }
    let mut m = memory::new();
    let mut lists = Lists::new();
    let mut rest = input;
    let mut at = 0;
    for _ in 0..input.len() {
        if rest.is_empty() {
            break;
        }
        let (line, next) = cut(rest);
        at = printer::put(out, at, answer(line, &mut lists, &mut m));
        rest = next;
    }
    at
}

// A buffer of six bytes for each byte of the longest session, as many as its blank lines take, gets all answers to any input. There is nothing to run.
pub fn all_answers_fit()
    ensures { (input out : List ℕ) → 6 * longest ≤ length out → (length (output_of input) ≤ 6 * longest) × (filled_by input out ≡ written_on out (output_of input)) }
{}
