// The entries of `begin` and `end`, as many as stand at the front of the bytes, put into the arrays that a call is lent. Of those past an array's end only the number counts.
ghost use Rattle.std.specs.Prelude.{◌≡◌, ◌*◌, length, map};
ghost use Rattle.tables.specs.Tables.{put_at};
ghost use Rattle.forms.specs.Read.{bytes_seen, many_in, entry_in, place_in};
ghost use Rattle.requests.specs.Asked.{event_of, candidate_of, HoldsEvents, HoldsUsed, entries_in, events_with, used_with};
ghost use Rattle.requests.specs.Readers.{Puts};

use crate::points::{corners, words};
use focus::{Events, Used};
use forms::parts::{entry, place};

// Puts row i of a table of rows of four, where there is one.
#[tactic(auto, using(crate::proofs::Rows::no_row))]
fn put_row<T: Copy>(rows: &mut [T], i: usize, row: [T; 4])
    ensures { rows.new ≡ put_at rows.old (4 * i) row }
{
    if i < rows.len() / 4 {
        tables::put(rows, 4 * i, &row);
    }
}

// Both loops stay functions of their own: where LLVM puts them into the function that reads all forms, an entry takes a fifth more time.
#[inline(never)]
pub(crate) fn entries<'a>(s: &'a [u8], events: &mut Events) -> Option<&'a [u8]>
    ensures read { Puts (λ es. HoldsEvents events.new (map event_of es)) (bytes_seen result) (many_in entry_in (length s.now) s.now) }
    ensures events { events.new ≡ events_with events.old (entries_in entry_in (length s.now) s.now) }
{
    events.count = 0;
    let mut rest = s;
    for i in 0..s.len() {
        if text::byte(rest, 0) != b' ' {
            return Some(rest);
        }
        let (e, next) = entry(rest)?;
        put_row(&mut events.words, i, words(e));
        events.count = i + 1;
        rest = next;
    }
    Some(rest)
}

#[inline(never)]
pub(crate) fn places<'a>(s: &'a [u8], used: &mut Used) -> Option<&'a [u8]>
    ensures read { Puts (λ ps. HoldsUsed used.new (map candidate_of ps)) (bytes_seen result) (many_in place_in (length s.now) s.now) }
    ensures used { used.new ≡ used_with used.old (entries_in place_in (length s.now) s.now) }
{
    used.count = 0;
    let mut rest = s;
    for i in 0..s.len() {
        if text::byte(rest, 0) != b' ' {
            return Some(rest);
        }
        let (p, next) = place(rest)?;
        tables::put_one(&mut used.ids, i, p.id);
        put_row(&mut used.corners, i, corners(p));
        used.count = i + 1;
        rest = next;
    }
    Some(rest)
}
