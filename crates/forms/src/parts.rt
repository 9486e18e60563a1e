// The parts of a form, read at the front of the bytes: what a part is, and the bytes after it. None where it does not stand there.
ghost use Rattle.std.specs.Prelude.{◌≡◌};
ghost use Rattle.forms.specs.Read.{seen, bytes_seen, after, number_in, argument_in, flag_in, coordinate_in, spot_in, layer_in, key_in, ask_in, entry_in, place_in};

use crate::{Coordinate, Entry, Place, Spot};
use layers::LayerId;

// The bytes after a word.
#[tactic(auto, unfolding(crate::specs::Read::after), using(crate::proofs::Bounds::word_fits))]
pub fn after<'a>(s: &'a [u8], word: &[u8]) -> Option<&'a [u8]>
    ensures { bytes_seen result ≡ after s.now word.now }
{
    let at = text::word(s, 0, word)?;
    Some(&s[at..])
}

#[tactic(auto, unfolding(crate::specs::Read::number_in), using(crate::proofs::Bounds::number_fits))]
fn number(s: &[u8]) -> Option<(u64, &[u8])>
    ensures { seen result ≡ number_in s.now }
{
    let (n, at) = text::number(s, 0)?;
    Some((n, &s[at..]))
}

// A space and a number.
#[tactic(auto, unfolding(crate::specs::Read::argument_in))]
pub fn argument(s: &[u8]) -> Option<(u64, &[u8])>
    ensures { seen result ≡ argument_in s.now }
{
    number(after(s, b" ")?)
}

// A space and a flag.
#[tactic(auto, unfolding(crate::specs::Read::flag_in))]
fn flag(s: &[u8]) -> Option<(bool, &[u8])>
    ensures { seen result ≡ flag_in s.now }
{
    let (n, s) = argument(s)?;
    if n > 1 {
        return None;
    }
    Some((n == 1, s))
}

// A space and a number that may be below 0, but not 0 then.
#[tactic(auto, unfolding(crate::specs::Read::coordinate_in, crate::specs::Read::below_in, crate::specs::Read::above_in))]
fn coordinate(s: &[u8]) -> Option<(Coordinate, &[u8])>
    ensures { seen result ≡ coordinate_in s.now }
{
    let s = after(s, b" ")?;
    let Some(s) = after(s, b"-") else {
        let (steps, s) = number(s)?;
        return Some((
            Coordinate {
                below: false,
                steps,
            },
            s,
        ));
    };
    let (steps, s) = number(s)?;
    if steps == 0 {
        return None;
    }
    Some((Coordinate { below: true, steps }, s))
}

#[tactic(auto, unfolding(crate::specs::Read::spot_in))]
pub fn spot(s: &[u8]) -> Option<(Spot, &[u8])>
    ensures { seen result ≡ spot_in s.now }
{
    let (x, s) = coordinate(s)?;
    let (y, s) = coordinate(s)?;
    Some((Spot { x, y }, s))
}

#[tactic(auto, unfolding(crate::specs::Read::layer_in))]
pub fn layer(s: &[u8]) -> Option<(LayerId, &[u8])>
    ensures { seen result ≡ layer_in s.now }
{
    let (order, s) = argument(s)?;
    let (id, s) = argument(s)?;
    Some((LayerId { order, id }, s))
}

#[tactic(auto, unfolding(crate::specs::Read::key_in))]
fn key(s: &[u8]) -> Option<(Entry, &[u8])>
    ensures { seen result ≡ key_in s.now }
{
    let (key, s) = argument(s)?;
    let (down, s) = flag(s)?;
    let (modifiers, s) = argument(s)?;
    Some((Entry::Key(key, down, modifiers), after(s, b")")?))
}

#[tactic(auto, unfolding(crate::specs::Read::ask_in))]
fn ask(s: &[u8]) -> Option<(Entry, &[u8])>
    ensures { seen result ≡ ask_in s.now }
{
    let (id, s) = argument(s)?;
    Some((Entry::Ask(id), after(s, b")")?))
}

#[tactic(auto, unfolding(crate::specs::Read::entry_in))]
pub fn entry(s: &[u8]) -> Option<(Entry, &[u8])>
    ensures { seen result ≡ entry_in s.now }
{
    if let Some(s) = after(s, b" (key") {
        return key(s);
    }
    ask(after(s, b" (ask")?)
}

#[tactic(auto, unfolding(crate::specs::Read::place_in))]
pub fn place(s: &[u8]) -> Option<(Place, &[u8])>
    ensures { seen result ≡ place_in s.now }
{
    let (id, s) = number(after(s, b" (")?)?;
    let (min, s) = spot(s)?;
    let (max, s) = spot(s)?;
    Some((Place { id, min, max }, after(s, b")")?))
}
