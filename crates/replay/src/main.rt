// Answers the lines of ../shared/REPLAY.md from standard input, one line each, from the proved libraries.
#![tactic(auto)]

ghost use Rattle.std.specs.Prelude.{◌≤◌, IfOk, length};

mod answer;
mod forms;
mod library;
mod line;
mod lists;
mod memory_calls;
mod registry;
mod session;
mod state;
mod words;

use crate::answer::Answer;
use crate::session::Session;
use std::alloc::AllocError;
use std::io;
use std::io::Read;
use std::rt::{Stdin, Stdout};

// The input is read by chunks, so many of them at most that the reading ends: 2^32 bytes in all. A
// line that they end in ends there, and is the last.
const CHUNK: usize = 65536;

const CHUNKS: usize = 65536;

// How long a line may be. Of a longer one this many bytes and one are held; it is answered as an
// empty one, `bad`.
const LONGEST: usize = 65536;

// Reads until the chunk is full or the input ends; how many bytes there are. Where reading fails,
// the lines of the chunk are not answered. None means that the input has ended: at a terminal a
// line may go on after its first end.
fn fill(input: &mut Stdin, chunk: &mut [u8]) -> io::Result<usize>
    ensures { IfOk result (λ n. n ≤ length chunk.new) }
{
    let mut used: usize = 0;
    for _ in 0..u64::MAX {
        let n = input.read(&mut chunk[used..])?;
        if n == 0 {
            return Ok(used);
        }
        used += n;
    }
    Ok(used)
}

// What goes from chunk to chunk: the line so far, what the calls left, and the answers that wait.
#[derive(Drop)]
struct Replay {
    line: Vec<u8>,
    session: Session,
    answers: Answer,
    screen: Stdout,
}

impl Replay {
    // One byte past the longest line tells that a line is longer.
    fn hold(&mut self, part: &[u8]) -> Result<(), AllocError> {
        let room = (LONGEST + 1).saturating_sub(self.line.len());
        self.line.extend_from_slice(&part[..part.len().min(room)])
    }

    fn answer(&mut self) -> io::Result<()> {
        if LONGEST < self.line.len() {
            self.line.clear();
        }
        self.session.answer(self.line.as_slice(), &mut self.answers);
        self.line.clear();
        self.answers.keep(&mut self.screen)
    }

    // Answers the lines that end in the chunk, and holds what comes after the last.
    fn take(&mut self, chunk: &[u8]) -> io::Result<()> {
        let mut rest = chunk;
        for _ in 0..chunk.len() {
            let Some(end) = rest.iter().position(|&b| b == b'\n') else {
                break;
            };
            self.hold(&rest[..end])?;
            rest = &rest[end + 1..];
            self.answer()?;
        }
        self.hold(rest)?;
        Ok(())
    }

    // A last line may have no end.
    fn finish(&mut self) -> io::Result<()> {
        if !self.line.is_empty() {
            self.answer()?;
        }
        self.answers.write(&mut self.screen)
    }
}

fn main(rt: HostRuntime) -> io::Result<()> {
    let mut chunk = [0u8; CHUNK];
    let mut input = rt.stdin();
    let mut replay = Replay {
        // All the room that a line takes, so that none is asked for while lines are read.
        line: Vec::with_capacity(rt.alloc(), LONGEST + 1)?,
        session: Session::new(),
        answers: Answer::new(rt.alloc())?,
        screen: rt.stdout(),
    };
    for _ in 0..CHUNKS {
        let n = fill(&mut input, &mut chunk)?;
        if n == 0 {
            break;
        }
        replay.take(&chunk[..n])?;
    }
    replay.finish()
}
