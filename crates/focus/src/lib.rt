// `Focus` of memory/mod.rs as a record by value over the core in place (crates `focus_calls`, `focus_pass`, `focus_end`), and thin forms of begin, interest and end that borrow it to write it.
#![tactic(auto)]

ghost use Rattle.std.specs.Prelude.{◌≡◌, eqb, IfOk, cond, ltb};
ghost use Rattle.refusal.specs.Refusal.{none, bad_list, number_in, answer, id_refusal};
ghost use Rattle.refusal.specs.Limits.{events as most_events, used as most_used};
ghost use Rattle.focus_rules.specs.Rules.{id_or_nothing, layer_or_nothing};
ghost use Rattle.focus_pass.specs.Events.{events_in};
ghost use Rattle.used.specs.Used.{lent as entries_lent};
ghost use Rattle.focus.specs.Focus.{new_focus, events_of, used_of, begun_of, interested_of, ended_of, ignored_of, modal_set, requested, requested_next, surrendered, filter_set, moved};

use focus_rules::Nav;
use input::EventFilter;
use layers::LayerId;
use refusal::{CACHED, EVENTS, Refusal, USED};
use used::UsedEntries;

// The fields, the entries of the cache and how many they are, and the place where an interest call looks first. There is no heap: arrays with a count, which C holds as one record.
#[derive(Clone, Copy)]
#[repr(C)]
pub struct Focus {
    pub nav: Nav,
    pub ids: [u64; CACHED],
    pub rects: [f32; 4 * CACHED],
    pub count: usize,
    pub slot: usize,
}

// The events that begin a pass: how many they are, and four numbers for each, as `focus_pass` has them. C passes the record by one pointer, so it is an array with a count.
#[derive(Clone, Copy)]
#[repr(C)]
pub struct Events {
    pub words: [u64; 4 * EVENTS],
    pub count: usize,
}

// The used entries that end a pass, likewise: how many they are, their ids, and four corners for each.
#[derive(Clone, Copy)]
#[repr(C)]
pub struct Used {
    pub ids: [u64; USED],
    pub corners: [f32; 4 * USED],
    pub count: usize,
}

impl Events {
    // The numbers of the events, lent; more events than the record has are refused.
    #[tactic(auto, using(crate::proofs::Counted::lent_events))]
    pub fn lent(&self) -> Result<&[u64], Refusal>
        ensures refusal { number_in result ≡ cond (ltb most_events self.now.count) bad_list none }
        ensures words { IfOk result (λ w. events_in w.now ≡ events_of self.now) }
    {
        refusal::check(self.count <= EVENTS, Refusal::BadList)?;
        Ok(&self.words[..4 * self.count])
    }
}

impl Used {
    // The entries, lent; more than the record has are refused.
    pub fn lent(&self) -> Result<UsedEntries<'_>, Refusal>
        ensures refusal { number_in result ≡ cond (ltb most_used self.now.count) bad_list none }
        ensures entries { IfOk result (λ u. entries_lent u ≡ used_of self.now) }
    {
        refusal::check(self.count <= USED, Refusal::BadList)?;
        Ok(UsedEntries {
            ids: &self.ids[..self.count],
            corners: &self.corners,
        })
    }
}

// ---- begin, interest and end in place. The first and the last stay calls of their own: a caller
// that had their early returns inside would copy the record of 6 KB once more.

#[tactic(auto, unfolding(crate::specs::Focus::begun_of), using(crate::proofs::Counted::too_many, crate::proofs::Counted::lent_events))]
#[inline(never)]
fn begin(f: &mut Focus, e: &Events) -> Result<(), Refusal>
    ensures refusal { number_in result ≡ (begun_of f.old e.now).refusal }
    ensures focus { f.new ≡ (begun_of f.old e.now).focus }
{
    let words = e.lent()?;
    f.nav = focus_pass::begin_pass(f.nav, &f.ids, &f.rects, f.count, words)?;
    f.slot = 0;
    Ok(())
}

#[tactic(auto, unfolding(crate::specs::Focus::interested_of))]
fn interest(f: &mut Focus, id: u64) -> Result<(), Refusal>
    ensures refusal { number_in result ≡ (interested_of f.old id).refusal }
    ensures focus { f.new ≡ (interested_of f.old id).focus }
{
    let r = focus_pass::interested_in_focus(f.nav, &mut f.ids, &mut f.rects, f.count, f.slot, id)?;
    f.nav = r.nav;
    f.count = r.count;
    f.slot = r.slot;
    Ok(())
}

#[tactic(auto, using(crate::proofs::Counted::too_many_used, crate::proofs::Counted::few_used))]
#[inline(never)]
fn end(f: &mut Focus, u: &Used) -> Result<(), Refusal>
    ensures refusal { number_in result ≡ (ended_of f.old u.now).refusal }
    ensures focus { f.new ≡ (ended_of f.old u.now).focus }
{
    let used = u.lent()?;
    let end = focus_end::end_pass(f.nav, &mut f.ids, &mut f.rects, f.count, used, USED)?;
    f.nav = end.nav;
    f.count = end.count;
    Ok(())
}

// ---- the same by value: the record goes in and comes back, as it was where the call is refused,
// and beside it what the call answered. Inside a Result it would be copied once or twice more, so
// C and the forms that borrow the record go through these.

pub fn after_begin(mut f: Focus, e: Events) -> (Focus, Result<(), Refusal>)
    ensures focus { result.0 ≡ (begun_of f e).focus }
    ensures refusal { number_in result.1 ≡ (begun_of f e).refusal }
{
    let answer = begin(&mut f, &e);
    (f, answer)
}

pub fn after_interest(mut f: Focus, id: u64) -> (Focus, Result<(), Refusal>)
    ensures focus { result.0 ≡ (interested_of f id).focus }
    ensures refusal { number_in result.1 ≡ (interested_of f id).refusal }
{
    let answer = interest(&mut f, id);
    (f, answer)
}

pub fn after_end(mut f: Focus, u: Used) -> (Focus, Result<(), Refusal>)
    ensures focus { result.0 ≡ (ended_of f u).focus }
    ensures refusal { number_in result.1 ≡ (ended_of f u).refusal }
{
    let answer = end(&mut f, &u);
    (f, answer)
}

// ---- the same where only a call that is taken has a record

pub fn begun(f: Focus, e: Events) -> Result<Focus, Refusal>
    ensures refusal { number_in result ≡ (begun_of f e).refusal }
    ensures focus { IfOk result (λ g. g ≡ (begun_of f e).focus) }
{
    let (focus, answer) = after_begin(f, e);
    answer?;
    Ok(focus)
}

pub fn interested(f: Focus, id: u64) -> Result<Focus, Refusal>
    ensures refusal { number_in result ≡ (interested_of f id).refusal }
    ensures focus { IfOk result (λ g. g ≡ (interested_of f id).focus) }
{
    let (focus, answer) = after_interest(f, id);
    answer?;
    Ok(focus)
}

pub fn ended(f: Focus, u: Used) -> Result<Focus, Refusal>
    ensures refusal { number_in result ≡ (ended_of f u).refusal }
    ensures focus { IfOk result (λ g. g ≡ (ended_of f u).focus) }
{
    let (focus, answer) = after_end(f, u);
    answer?;
    Ok(focus)
}

// ---- their thin forms, each over the function by value

pub fn focus_begin_pass(f: &mut Focus, e: Events) -> Result<(), Refusal>
    ensures refusal { number_in result ≡ (begun_of f.old e).refusal }
    ensures focus { f.new ≡ (begun_of f.old e).focus }
{
    let (after, answer) = after_begin(*f, e);
    *f = after;
    answer
}

pub fn focus_interested_in_focus(f: &mut Focus, id: u64) -> Result<(), Refusal>
    ensures refusal { number_in result ≡ (interested_of f.old id).refusal }
    ensures focus { f.new ≡ (interested_of f.old id).focus }
{
    let (after, answer) = after_interest(*f, id);
    *f = after;
    answer
}

pub fn focus_end_pass(f: &mut Focus, u: Used) -> Result<(), Refusal>
    ensures refusal { number_in result ≡ (ended_of f.old u).refusal }
    ensures focus { f.new ≡ (ended_of f.old u).focus }
{
    let (after, answer) = after_end(*f, u);
    *f = after;
    answer
}

// ---- the other methods

impl Focus {
    #[tactic(auto, unfolding(crate::specs::Focus::new_focus))]
    pub fn new() -> Focus
        ensures { result ≡ new_focus }
    {
        Focus {
            nav: focus_calls::new(),
            ids: [0; CACHED],
            rects: [0.0; 4 * CACHED],
            count: 0,
            slot: 0,
        }
    }

    pub fn focused(self) -> Option<u64>
        ensures { result ≡ id_or_nothing self.nav.focused }
    {
        focus_calls::focused(self.nav)
    }

    pub fn focus_direction(self) -> u64
        ensures { result ≡ self.nav.focus_direction }
    {
        self.nav.focus_direction
    }

    pub fn had_focus_last_frame(self, id: u64) -> Result<bool, Refusal>
        ensures { result ≡ answer (id_refusal id) (eqb self.nav.id_previous_frame id) }
    {
        focus_calls::had_focus_last_frame(self.nav, id)
    }

    pub fn top_modal_layer(self) -> Option<LayerId>
        ensures { result ≡ layer_or_nothing self.nav.top_modal_layer }
    {
        focus_calls::top_modal_layer(self.nav)
    }

    #[tactic(auto, unfolding(crate::specs::Focus::modal_set))]
    pub fn set_modal_layer(self, layer: LayerId) -> Result<Focus, Refusal>
        ensures refusal { number_in result ≡ (modal_set self layer).refusal }
        ensures focus { IfOk result (λ f. f ≡ (modal_set self layer).focus) }
    {
        let nav = focus_calls::set_modal_layer(self.nav, layer)?;
        Ok(Focus { nav, ..self })
    }

    #[tactic(auto, unfolding(crate::specs::Focus::requested))]
    pub fn request_focus(self, id: u64) -> Result<Focus, Refusal>
        ensures refusal { number_in result ≡ (requested self id).refusal }
        ensures focus { IfOk result (λ f. f ≡ (requested self id).focus) }
    {
        let nav = focus_calls::request_focus(self.nav, id)?;
        Ok(Focus { nav, ..self })
    }

    #[tactic(auto, unfolding(crate::specs::Focus::requested_next))]
    pub fn request_focus_next_frame(self, id: u64) -> Result<Focus, Refusal>
        ensures refusal { number_in result ≡ (requested_next self id).refusal }
        ensures focus { IfOk result (λ f. f ≡ (requested_next self id).focus) }
    {
        let nav = focus_calls::request_focus_next_frame(self.nav, id)?;
        Ok(Focus { nav, ..self })
    }

    #[tactic(auto, unfolding(crate::specs::Focus::surrendered))]
    pub fn surrender_focus(self, id: u64) -> Result<Focus, Refusal>
        ensures refusal { number_in result ≡ (surrendered self id).refusal }
        ensures focus { IfOk result (λ f. f ≡ (surrendered self id).focus) }
    {
        let nav = focus_calls::surrender_focus(self.nav, id)?;
        Ok(Focus { nav, ..self })
    }

    #[tactic(auto, unfolding(crate::specs::Focus::filter_set))]
    pub fn set_focus_lock_filter(self, id: u64, filter: EventFilter) -> Result<Focus, Refusal>
        ensures refusal { number_in result ≡ (filter_set self id filter).refusal }
        ensures focus { IfOk result (λ f. f ≡ (filter_set self id filter).focus) }
    {
        let nav = focus_calls::set_focus_lock_filter(self.nav, id, filter)?;
        Ok(Focus { nav, ..self })
    }

    #[tactic(auto, unfolding(crate::specs::Focus::moved))]
    pub fn move_focus(self, direction: u64) -> Result<Focus, Refusal>
        ensures refusal { number_in result ≡ (moved self direction).refusal }
        ensures focus { IfOk result (λ f. f ≡ (moved self direction).focus) }
    {
        let nav = focus_calls::move_focus(self.nav, direction)?;
        Ok(Focus { nav, ..self })
    }

    #[tactic(auto, unfolding(crate::specs::Focus::ignored_of))]
    pub fn ignore_focus(mut self, id: u64) -> Result<Focus, Refusal>
        ensures refusal { number_in result ≡ (ignored_of self id).refusal }
        ensures focus { IfOk result (λ f. f ≡ (ignored_of self id).focus) }
    {
        let left = focus_pass::ignore_focus(
            self.nav,
            &mut self.ids,
            &mut self.rects,
            self.count,
            id,
        )?;
        Ok(Focus {
            nav: left.nav,
            count: left.count,
            ..self
        })
    }
}
