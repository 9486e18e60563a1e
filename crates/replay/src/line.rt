// A line to be answered.
use crate::answer::Answer;
use crate::words::Words;

// Its first word, the words after it, and its answer.
#[derive(Drop)]
pub struct Line<'a> {
    pub name: &'a [u8],
    pub words: Words<'a>,
    pub answer: &'a mut Answer,
}

impl<'a> Line<'a> {
    pub fn of(line: &'a [u8], answer: &'a mut Answer) -> Line<'a> {
        let mut words = Words::of(line);
        Line {
            name: words.name(),
            words,
            answer,
        }
    }
}
