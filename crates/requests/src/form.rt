// A form without its closing bracket: what it asks, and the bytes after it. None where it does not stand there.
ghost use Rattle.std.specs.Prelude.{◌≡◌, codes};
ghost use Rattle.forms.specs.Read.{seen, after, want_in, area_in, top_in, sub_in, modal_in, hit_in, focus_in, begin_in, end_in, form_in};
ghost use Rattle.requests.specs.Asked.{lists_begun, lists_ended, lists_after};
ghost use Rattle.requests.specs.Readers.{behind, Reads, ReadsPlain};

use crate::points::{area_state, pos};
use crate::{Lists, Request, entries};
use forms::parts::{after, argument, layer, spot};
use layers::LayerId;

#[tactic(auto, unfolding(forms::specs::Read::want_in))]
fn want(s: &[u8]) -> Option<(Request, &[u8])>
    ensures { ReadsPlain (seen result) (behind s.now (codes "(want") want_in) }
{
    let s = after(s, b"(want")?;
    let (layer, s) = layer(s)?;
    let (id, s) = argument(s)?;
    Some((Request::Want(layer, id), s))
}

#[tactic(auto, unfolding(forms::specs::Read::area_in))]
fn area(s: &[u8]) -> Option<(Request, &[u8])>
    ensures { ReadsPlain (seen result) (behind s.now (codes "(area") area_in) }
{
    let s = after(s, b"(area")?;
    let (layer, s) = layer(s)?;
    let (at, s) = spot(s)?;
    let (size, s) = spot(s)?;
    Some((Request::Area(layer, area_state(at, size)), s))
}

#[tactic(auto, unfolding(forms::specs::Read::top_in))]
fn top(s: &[u8]) -> Option<(Request, &[u8])>
    ensures { ReadsPlain (seen result) (behind s.now (codes "(top") top_in) }
{
    let s = after(s, b"(top")?;
    let (layer, s) = layer(s)?;
    Some((Request::Top(layer), s))
}

// Parent and child are of one Order.
#[tactic(auto, unfolding(forms::specs::Read::sub_in))]
fn sub(s: &[u8]) -> Option<(Request, &[u8])>
    ensures { ReadsPlain (seen result) (behind s.now (codes "(sub") sub_in) }
{
    let s = after(s, b"(sub")?;
    let (parent, s) = layer(s)?;
    let (id, s) = argument(s)?;
    let child = LayerId {
        order: parent.order,
        id,
    };
    Some((Request::Sub(parent, child), s))
}

#[tactic(auto, unfolding(forms::specs::Read::modal_in))]
fn modal(s: &[u8]) -> Option<(Request, &[u8])>
    ensures { ReadsPlain (seen result) (behind s.now (codes "(modal") modal_in) }
{
    let s = after(s, b"(modal")?;
    let (layer, s) = layer(s)?;
    Some((Request::Modal(layer), s))
}

#[tactic(auto, unfolding(forms::specs::Read::hit_in))]
fn hit(s: &[u8]) -> Option<(Request, &[u8])>
    ensures { ReadsPlain (seen result) (behind s.now (codes "(hit") hit_in) }
{
    let s = after(s, b"(hit")?;
    let (at, s) = spot(s)?;
    Some((Request::Hit(pos(at)), s))
}

#[tactic(auto, unfolding(forms::specs::Read::begin_in))]
fn begin<'a>(s: &'a [u8], lists: &mut Lists) -> Option<(Request, &'a [u8])>
    ensures read { Reads (seen result) lists.new (behind s.now (codes "(begin") begin_in) }
    ensures lists { lists.new ≡ lists_begun lists.old (after s.now (codes "(begin")) }
{
    let s = after(s, b"(begin")?;
    let rest = entries::entries(s, &mut lists.events)?;
    Some((Request::Begin, rest))
}

#[tactic(auto, unfolding(forms::specs::Read::end_in))]
fn end<'a>(s: &'a [u8], lists: &mut Lists) -> Option<(Request, &'a [u8])>
    ensures read { Reads (seen result) lists.new (behind s.now (codes "(end") end_in) }
    ensures lists { lists.new ≡ lists_ended lists.old (after s.now (codes "(end")) }
{
    let s = after(s, b"(end")?;
    let rest = entries::places(s, &mut lists.used)?;
    Some((Request::End, rest))
}

fn focus(s: &[u8]) -> Option<(Request, &[u8])>
    ensures { ReadsPlain (seen result) (behind s.now (codes "(focus") focus_in) }
{
    let s = after(s, b"(focus")?;
    Some((Request::Focus, s))
}

// No two words have one first letter.
pub(crate) fn form<'a>(s: &'a [u8], lists: &mut Lists) -> Option<(Request, &'a [u8])>
    ensures read { Reads (seen result) lists.new (form_in s.now) }
    ensures lists { lists.new ≡ lists_after s.now lists.old }
{
    match text::byte(s, 1) {
        b'b' => begin(s, lists),
        b'w' => want(s),
        b'a' => area(s),
        b't' => top(s),
        b's' => sub(s),
        b'm' => modal(s),
        b'e' => end(s, lists),
        b'h' => hit(s),
        b'f' => focus(s),
        _ => None,
    }
}
