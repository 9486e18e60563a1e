// `Focus::begin_pass` and `interested_in_focus`, `Memory::ignore_focus` of memory/mod.rs, in place: the fields by value (crates `navigation` and `focus_calls`), the cache in lent tables
// (crate `focus_cache`), and the events of a pass in a lent slice, four numbers each.
//     first number    the others
//     1, a key        its code, 1 where it is pressed plus 2 where it is a repeat (modulo 4), its modifiers
//     2, a request    the id for which an accessibility program asks the focus
//     any other       an event that moves no focus
#![tactic(auto)]

ghost use Rattle.std.specs.Prelude.{◌≡◌, IfOk};
ghost use Rattle.refusal.specs.Refusal.{number_of, number_in, none, lowest, kept};
ghost use Rattle.focus_rules.specs.Rules.{nothing_heard};
ghost use Rattle.focus_cache.specs.Cache.{room_in, held_in, enlisted, without, cache_in, cache_on};
ghost use Rattle.focus_pass.specs.Events.{event_of, event_at, events_from, count_in, events_in};
ghost use Rattle.focus_pass.specs.Pass.{worst_of, heard_all, is_granted, begin_of, interest_of, ignore_of};

use focus_rules::{After, Heard, NO_DIRECTION, Nav};
use input::{Event, EventFilter};
use refusal::{EVENTS, Refusal};

// The fields after an interest call, how many entries are held, and the place where the next call looks first.
#[derive(Clone, Copy)]
#[repr(C)]
pub struct Interested {
    pub nav: Nav,
    pub count: usize,
    pub slot: usize,
}

// A code that is missing: past the last of every kind.
const MISSING: u64 = u64::MAX;

// How many events the numbers are; one that is not whole counts.
#[tactic(auto, unfolding(crate::specs::Events::count_in))]
fn event_count(words: &[u64]) -> usize
    ensures { result ≡ count_in words.now }
{
    words.len().div_ceil(4)
}

// The event of four numbers; the second is a code for a key, and an id for a request.
#[tactic(auto, unfolding(crate::specs::Events::event_of))]
fn event_of(kind: u64, code: u64, id: u64, flags: u64, modifiers: u64) -> Event
    ensures { result ≡ event_of kind code id flags modifiers }
{
    match kind {
        1 => Event::Key {
            key: code,
            pressed: flags % 2 == 1,
            repeat: flags / 2 % 2 == 1,
            modifiers,
        },
        2 => Event::AccessKitFocus(id),
        _ => Event::Other,
    }
}

// The event of the numbers of one, whole or not. A code that is missing is past the last, and an id that is missing is 0.
#[tactic(auto, unfolding(crate::specs::Events::event_at))]
fn event(row: &[u64]) -> Event
    ensures { result ≡ event_at row.now 0 }
{
    event_of(
        tables::at_or(row, 0, 0),
        tables::at_or(row, 1, MISSING),
        tables::at_or(row, 1, 0),
        tables::at_or(row, 2, 0),
        tables::at_or(row, 3, MISSING),
    )
}

// A refusal, or a check's where that one is lower.
#[tactic(auto, using(refusal::proofs::Laws::none_right, refusal::proofs::Laws::first_lower, refusal::proofs::Laws::second_lower))]
fn joined(r: Refusal, checked: Result<(), Refusal>) -> Refusal
    ensures { number_of result ≡ lowest (number_of r) (number_in checked) }
{
    match checked {
        Err(s) if u64::from(s) < u64::from(r) => s,
        _ => r,
    }
}

// The lowest of a refusal and those of the events after it. Seldom run: were it put into the loop
// below, that would be slower.
#[inline(never)]
fn lowest_from(first: Refusal, words: &[u64]) -> Refusal
    ensures { number_of result ≡ worst_of (number_of first) (events_in words.now) }
{
    let mut refused = first;
    let (whole, rest) = words.as_chunks::<4>();
    for &[kind, code, flags, modifiers] in whole {
        let event = event_of(kind, code, code, flags, modifiers);
        refused = joined(refused, event.check());
    }
    if rest.is_empty() {
        return refused;
    }
    joined(refused, event(rest).check())
}

// What the events come to, or their lowest refusal. Events are heard up to the first one that is
// refused; those after it are asked for their refusals alone, so that the loop joins none.
fn listen_to(words: &[u64], filter: EventFilter) -> Result<Heard, Refusal>
    ensures refusal { number_in result ≡ worst_of none (events_in words.now) }
    ensures heard { IfOk result (λ h. h ≡ heard_all filter nothing_heard (events_in words.now)) }
{
    let mut heard = Heard {
        escaped: 0,
        direction: NO_DIRECTION,
        asked: 0,
    };
    // The loop goes over whole events alone, so that it asks for no length.
    let (whole, rest) = words.as_chunks::<4>();
    for (i, &[kind, code, flags, modifiers]) in whole.iter().enumerate() {
        let event = event_of(kind, code, code, flags, modifiers);
        if let Err(r) = event.check() {
            return Err(lowest_from(r, &words[4 * (i + 1)..]));
        }
        heard = navigation::heard(heard, filter, event);
    }
    if !rest.is_empty() {
        let event = event(rest);
        event.check()?;
        heard = navigation::heard(heard, filter, event);
    }
    Ok(heard)
}

#[tactic(auto, unfolding(crate::specs::Pass::is_granted))]
fn is_granted(ids: &[u64], rects: &[f32], count: usize, asked: u64) -> bool
    ensures { result ≡ is_granted (held_in count ids.now rects.now) asked }
{
    asked != 0 && focus_cache::contains(ids, rects, count, asked)
}

#[tactic(auto, unfolding(crate::specs::Pass::begin_of, crate::specs::Pass::nav_begun), using(crate::proofs::Calls::too_many, crate::proofs::Calls::few))]
pub fn begin_pass(
    nav: Nav,
    ids: &[u64],
    rects: &[f32],
    count: usize,
    events: &[u64],
) -> Result<Nav, Refusal>
    ensures refusal { number_in result ≡ (begin_of nav (held_in count ids.now rects.now) (events_in events.now)).refusal }
    ensures nav { IfOk result (λ n. n ≡ (begin_of nav (held_in count ids.now rects.now) (events_in events.now)).nav) }
{
    refusal::check(event_count(events) <= EVENTS, Refusal::BadList)?;
    let start = navigation::started(nav);
    let heard = listen_to(events, navigation::event_filter(start))?;
    let granted = is_granted(ids, rects, count, heard.asked);
    Ok(navigation::begun(start, heard, granted))
}

#[tactic(auto, unfolding(crate::specs::Pass::interest_of, crate::specs::Pass::interest_refusal, focus_cache::specs::Cache::enlisted_of, refusal::specs::Refusal::lowest))]
pub fn interested_in_focus(
    nav: Nav,
    ids: &mut [u64],
    rects: &mut [f32],
    count: usize,
    slot: usize,
    id: u64,
) -> Result<Interested, Refusal>
    ensures refusal { number_in result ≡ (interest_of nav (room_in ids.old rects.old) (held_in count ids.old rects.old) count slot id).refusal }
    ensures after { IfOk result (λ r. let s = interest_of nav (room_in ids.old rects.old) (held_in count ids.old rects.old) count slot id in (r.nav ≡ s.nav) × (r.count ≡ s.count) × (r.slot ≡ s.slot)) }
    ensures cache { cache_in ids.new rects.new ≡ kept (interest_of nav (room_in ids.old rects.old) (held_in count ids.old rects.old) count slot id).refusal (cache_in ids.old rects.old) (cache_on (cache_in ids.old rects.old) (enlisted (held_in count ids.old rects.old) id)) }
{
    refusal::check_id(id)?;
    let e = focus_cache::enlist(ids, rects, count, slot, id)?;
    Ok(Interested {
        nav: navigation::interested(nav, id),
        count: e.count,
        slot: e.slot,
    })
}

// Memory::ignore_focus.
#[tactic(auto, unfolding(crate::specs::Pass::ignore_of))]
pub fn ignore_focus(
    nav: Nav,
    ids: &mut [u64],
    rects: &mut [f32],
    count: usize,
    id: u64,
) -> Result<After, Refusal>
    ensures refusal { number_in result ≡ (ignore_of nav (held_in count ids.old rects.old) count id).refusal }
    ensures after { IfOk result (λ r. let s = ignore_of nav (held_in count ids.old rects.old) count id in (r.nav ≡ s.nav) × (r.count ≡ s.count)) }
    ensures cache { cache_in ids.new rects.new ≡ kept (ignore_of nav (held_in count ids.old rects.old) count id).refusal (cache_in ids.old rects.old) (cache_on (cache_in ids.old rects.old) (without (held_in count ids.old rects.old) id)) }
{
    refusal::check_id(id)?;
    let count = focus_cache::remove(ids, rects, count, id);
    Ok(After {
        nav: focus_calls::let_go(nav, id),
        count,
    })
}
