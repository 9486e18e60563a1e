// The answers that wait to be written, and after them the answer to a line, gathered word by word.
use std::alloc::{AllocError, Global};
use std::io;
use std::io::Write;
use std::rt::Stdout;

// Room for the answers. They are written when more than half of it is taken, so that an answer has
// the other half at least.
const ROOM: usize = 262144;

// The bytes, the place where the line's answer begins, and the place after those that are put: past
// their end where the answer does not fit. The `Vec`'s own length would be no plainer: crate `text`
// puts at a place of a lent slice and says by the place that something did not fit, so beside the
// `Vec` a flag would stand, and each number be put elsewhere first.
#[derive(Drop)]
pub struct Answer {
    bytes: Vec<u8>,
    start: usize,
    end: usize,
}

impl Answer {
    pub fn new(alloc: Global) -> Result<Answer, AllocError> {
        Ok(Answer {
            bytes: vec![in alloc; 0u8; ROOM]?,
            start: 0,
            end: 0,
        })
    }

    // Begins the line's answer anew.
    pub fn clear(&mut self) {
        self.end = self.start;
    }

    pub fn fits(&self) -> bool {
        self.end < self.bytes.len()
    }

    // The line's answer waits with those before it; all go out where they take more than half of
    // the room.
    pub fn keep(&mut self, screen: &mut Stdout) -> io::Result<()> {
        self.start = self.end;
        if ROOM / 2 < self.end {
            self.write(screen)?;
        }
        Ok(())
    }

    // Writes what waits. It is written once: where that fails, it is not tried again.
    pub fn write(&mut self, screen: &mut Stdout) -> io::Result<()> {
        screen.write_all(&self.bytes.as_slice()[..self.start.min(self.bytes.len())])?;
        self.start = 0;
        self.end = 0;
        Ok(())
    }

    fn bytes(&mut self, s: &[u8]) {
        self.end = text::put_bytes(self.bytes.as_mut_slice(), self.end, s);
    }

    // Words have a space between.
    fn space(&mut self) {
        if self.end != self.start {
            self.bytes(b" ");
        }
    }

    pub fn word(&mut self, word: &[u8]) {
        self.space();
        self.bytes(word);
    }

    pub fn number(&mut self, n: u64) {
        self.space();
        self.end = text::put_number(self.bytes.as_mut_slice(), self.end, n);
    }

    pub fn end_line(&mut self) {
        self.bytes(b"\n");
    }
}
