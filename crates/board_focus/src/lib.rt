//! The focus for C and Rust programs, as crate `board` has the rest: numbers, records of numbers
//! and slices. A slice is two arguments in C, where it starts and how many elements it has. Each
//! function gives what the one that it calls gives.
//!
//! The focus alone: an interest call here is let through whatever modal layer is in force, which
//! only `Memory` asks, and no theorem of the ring or of the confirm box is about these functions.
#![tactic(auto)]

ghost use Rattle.std.specs.Prelude.{◌≡◌, IfOk};
ghost use Rattle.std.specs.Result.{result_unwrap_or};
ghost use Rattle.refusal.specs.Refusal.{number_in, id_refusal, code_refusal, kept};
ghost use Rattle.refusal.specs.Limits.{last_direction};
ghost use Rattle.layers.specs.Layers.{layer_refusal};
ghost use Rattle.focus_rules.specs.Rules.{focus_on, with_next, let_go, filtered_of, with_direction, with_modals};
ghost use Rattle.focus_cache.specs.Cache.{room_in, held_in, enlisted, without, cache_in, cache_on};
ghost use Rattle.focus_pass.specs.Events.{events_in};
ghost use Rattle.focus_pass.specs.Pass.{begin_of, interest_of, ignore_of};
ghost use Rattle.used.specs.Used.{entries_in};
ghost use Rattle.focus_end.specs.End.{end_of, cache_ended};

use focus_rules::{After, Nav};
use input::EventFilter;
use layers::LayerId;
use refusal::Refusal;
use used::UsedEntries;

// A call's refusal, 0 for none, and the fields after it: records for C, which has no Result.
#[derive(Clone, Copy)]
#[repr(C)]
pub struct Changed {
    pub refusal: u64,
    pub nav: Nav,
}

// And how many entries are held, and the place where the next call looks first.
#[derive(Clone, Copy)]
#[repr(C)]
pub struct Interested {
    pub refusal: u64,
    pub nav: Nav,
    pub count: usize,
    pub slot: usize,
}

// And only how many entries are held.
#[derive(Clone, Copy)]
#[repr(C)]
pub struct Counted {
    pub refusal: u64,
    pub nav: Nav,
    pub count: usize,
}

// The record of a call on these fields.
fn after(nav: Nav, answer: Result<Nav, Refusal>) -> Changed
    ensures { (result.refusal ≡ number_in answer) × ((next : Nav) → IfOk answer (λ n. n ≡ next) → result.nav ≡ kept (number_in answer) nav next) }
{
    Changed {
        refusal: refusal::number(&answer),
        nav: answer.unwrap_or(nav),
    }
}

// And of one that may change the cache, which held so many entries.
fn after_in_cache(before: After, answer: Result<After, Refusal>) -> Counted
    ensures { (result.refusal ≡ number_in answer) × (result.nav ≡ (result_unwrap_or answer before).nav) × (result.count ≡ (result_unwrap_or answer before).count) }
{
    let refusal = refusal::number(&answer);
    let After { nav, count } = answer.unwrap_or(before);
    Counted {
        refusal,
        nav,
        count,
    }
}

// ---- the core in place

// `focus_pass::begin_pass`.
#[tactic(auto, unfolding(focus_pass::specs::Pass::begin_of))]
#[unsafe(no_mangle)]
pub extern "C" fn jaturemi_begin_pass(
    nav: Nav,
    ids: &[u64],
    rects: &[f32],
    count: usize,
    events: &[u64],
) -> Changed
    ensures { let s = begin_of nav (held_in count ids.now rects.now) (events_in events.now) in (result.refusal ≡ s.refusal) × (result.nav ≡ s.nav) }
{
    after(nav, focus_pass::begin_pass(nav, ids, rects, count, events))
}

// `focus_pass::interested_in_focus`.
#[tactic(auto, unfolding(focus_pass::specs::Pass::interest_of))]
#[unsafe(no_mangle)]
pub extern "C" fn jaturemi_interested_in_focus(
    nav: Nav,
    ids: &mut [u64],
    rects: &mut [f32],
    count: usize,
    slot: usize,
    id: u64,
) -> Interested
    ensures answer { let s = interest_of nav (room_in ids.old rects.old) (held_in count ids.old rects.old) count slot id in (result.refusal ≡ s.refusal) × (result.nav ≡ s.nav) × (result.count ≡ s.count) × (result.slot ≡ s.slot) }
    ensures cache { cache_in ids.new rects.new ≡ kept result.refusal (cache_in ids.old rects.old) (cache_on (cache_in ids.old rects.old) (enlisted (held_in count ids.old rects.old) id)) }
{
    let answer = focus_pass::interested_in_focus(nav, ids, rects, count, slot, id);
    let refusal = refusal::number(&answer);
    let after = answer.unwrap_or(focus_pass::Interested { nav, count, slot });
    Interested {
        refusal,
        nav: after.nav,
        count: after.count,
        slot: after.slot,
    }
}

// `focus_pass::ignore_focus`.
#[tactic(auto, unfolding(focus_pass::specs::Pass::ignore_of))]
#[unsafe(no_mangle)]
pub extern "C" fn jaturemi_ignore_focus(
    nav: Nav,
    ids: &mut [u64],
    rects: &mut [f32],
    count: usize,
    id: u64,
) -> Counted
    ensures answer { let s = ignore_of nav (held_in count ids.old rects.old) count id in (result.refusal ≡ s.refusal) × (result.nav ≡ s.nav) × (result.count ≡ s.count) }
    ensures cache { cache_in ids.new rects.new ≡ kept result.refusal (cache_in ids.old rects.old) (cache_on (cache_in ids.old rects.old) (without (held_in count ids.old rects.old) id)) }
{
    let answer = focus_pass::ignore_focus(nav, ids, rects, count, id);
    after_in_cache(After { nav, count }, answer)
}

// `focus_end::end_pass`.
#[tactic(auto, unfolding(focus_end::specs::End::end_of))]
#[unsafe(no_mangle)]
pub extern "C" fn jaturemi_end_focus_pass(
    nav: Nav,
    ids: &mut [u64],
    rects: &mut [f32],
    count: usize,
    used: &[u64],
    corners: &[f32],
    limit: usize,
) -> Counted
    ensures answer { let s = end_of limit nav (held_in count ids.old rects.old) count (entries_in used.now corners.now) in (result.refusal ≡ s.refusal) × (result.nav ≡ s.nav) × (result.count ≡ s.count) }
    ensures cache { cache_in ids.new rects.new ≡ kept result.refusal (cache_in ids.old rects.old) (cache_on (cache_in ids.old rects.old) (cache_ended nav (held_in count ids.old rects.old) (entries_in used.now corners.now))) }
{
    let used = UsedEntries { ids: used, corners };
    let answer = focus_end::end_pass(nav, ids, rects, count, used, limit);
    after_in_cache(After { nav, count }, answer)
}

// ---- the calls on the fields, by value

#[unsafe(no_mangle)]
pub extern "C" fn jaturemi_request_focus(nav: Nav, id: u64) -> Changed
    ensures { (result.refusal ≡ id_refusal id) × (result.nav ≡ kept (id_refusal id) nav (focus_on nav id)) }
{
    after(nav, focus_calls::request_focus(nav, id))
}

#[unsafe(no_mangle)]
pub extern "C" fn jaturemi_request_focus_next_frame(nav: Nav, id: u64) -> Changed
    ensures { (result.refusal ≡ id_refusal id) × (result.nav ≡ kept (id_refusal id) nav (with_next nav id)) }
{
    after(nav, focus_calls::request_focus_next_frame(nav, id))
}

#[unsafe(no_mangle)]
pub extern "C" fn jaturemi_surrender_focus(nav: Nav, id: u64) -> Changed
    ensures { (result.refusal ≡ id_refusal id) × (result.nav ≡ kept (id_refusal id) nav (let_go nav id)) }
{
    after(nav, focus_calls::surrender_focus(nav, id))
}

#[unsafe(no_mangle)]
pub extern "C" fn jaturemi_set_focus_lock_filter(nav: Nav, id: u64, filter: EventFilter) -> Changed
    ensures { (result.refusal ≡ id_refusal id) × (result.nav ≡ kept (id_refusal id) nav (filtered_of nav id filter)) }
{
    after(nav, focus_calls::set_focus_lock_filter(nav, id, filter))
}

#[unsafe(no_mangle)]
pub extern "C" fn jaturemi_move_focus(nav: Nav, direction: u64) -> Changed
    ensures { (result.refusal ≡ code_refusal direction last_direction) × (result.nav ≡ kept (code_refusal direction last_direction) nav (with_direction nav direction)) }
{
    after(nav, focus_calls::move_focus(nav, direction))
}

#[unsafe(no_mangle)]
pub extern "C" fn jaturemi_set_modal_layer(nav: Nav, layer: LayerId) -> Changed
    ensures { (result.refusal ≡ layer_refusal layer) × (result.nav ≡ kept (layer_refusal layer) nav (with_modals nav nav.top_modal_layer layer)) }
{
    after(nav, focus_calls::set_modal_layer(nav, layer))
}
