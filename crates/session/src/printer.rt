// How an answer is written.
ghost use Rattle.std.specs.Prelude.{◌≡◌, ◌≤◌, length};
ghost use Rattle.text.specs.Put.{place_after, put_on};
ghost use Rattle.session.specs.Output.{said, line_of};

use crate::runner::Answer;

// Room for the longest line: a word of five letters and two numbers of twenty digits.
const ROOM: usize = 48;

// A word, so many numbers, each with a space before it, and the end of the line.
fn line<'a>(room: &'a mut [u8; ROOM], word: &[u8], numbers: &[u64]) -> &'a [u8]
    ensures { length word.now ≤ 5 → length numbers.now ≤ 2 → result.now ≡ said word.now numbers.now }
{
    let mut at = text::put_bytes(room, 0, word);
    for &n in numbers {
        at = text::put_bytes(room, at, b" ");
        at = text::put_number(room, at, n);
    }
    at = text::put_bytes(room, at, b"\n");
    &room[..at.min(ROOM)]
}

// Puts such a line at a place, where all of it fits, and gives the place after it.
fn put_line(out: &mut [u8], at: usize, word: &[u8], numbers: &[u64]) -> usize
    ensures { length word.now ≤ 5 → length numbers.now ≤ 2 → (result ≡ place_after at (said word.now numbers.now)) × (out.new ≡ put_on out.old at (said word.now numbers.now)) }
{
    let mut room = [0; ROOM];
    text::put_bytes(out, at, line(&mut room, word, numbers))
}

// Puts the line of an answer. One that is always the same is put as it stands, which takes less time.
#[tactic(auto, unfolding(crate::specs::Output::said, text::specs::Put::decimal_in))]
pub(crate) fn put(out: &mut [u8], at: usize, answer: Answer) -> usize
    ensures { (result ≡ place_after at (line_of answer)) × (out.new ≡ put_on out.old at (line_of answer)) }
{
    match answer {
        Answer::Ok => text::put_bytes(out, at, b"ok\n"),
        Answer::NoForm => text::put_bytes(out, at, b"no 10\n"),
        Answer::No(n) => put_line(out, at, b"no", &[n]),
        Answer::Layer(layer) => put_line(out, at, b"layer", &[layer.order, layer.id]),
        Answer::Id(id) => put_line(out, at, b"id", &[id]),
        Answer::None => text::put_bytes(out, at, b"none\n"),
    }
}
