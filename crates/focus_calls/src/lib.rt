// The focus's calls outside of a pass's begin, interest and end, most of them `Memory`'s in memory/mod.rs, on the fields by value. Id 0 is none.
// Three calls that set one field write it in a copy of all: by a struct update each field is copied
// on its own, which takes an export 1.4 times as long.
#![tactic(auto)]

ghost use Rattle.std.specs.Prelude.{◌≡◌, eqb, IfOk};
ghost use Rattle.refusal.specs.Refusal.{number_in, answer, id_refusal, code_refusal};
ghost use Rattle.refusal.specs.Limits.{last_direction};
ghost use Rattle.layers.specs.Layers.{layer_refusal};
ghost use Rattle.focus_rules.specs.Rules.{new_nav, focus_on, id_or_nothing, layer_or_nothing, with_modals, with_next, let_go, filtered_of, with_direction};

use focus_rules::{NO_DIRECTION, Nav};
use input::EventFilter;
use layers::{LayerId, NO_LAYER};
use refusal::{LAST_DIRECTION, Refusal};

pub fn new() -> Nav
    ensures { result ≡ new_nav }
{
    Nav {
        focused: 0,
        filter: EventFilter::new(),
        id_previous_frame: 0,
        id_two_frames_ago: 0,
        id_next_frame: 0,
        give_to_next: false,
        last_interested: 0,
        focus_direction: NO_DIRECTION,
        top_modal_layer: NO_LAYER,
        top_modal_layer_current_frame: NO_LAYER,
    }
}

pub fn focused(nav: Nav) -> Option<u64>
    ensures { result ≡ id_or_nothing nav.focused }
{
    navigation::focused_widget(nav).map(|w| w.id)
}

pub fn had_focus_last_frame(nav: Nav, id: u64) -> Result<bool, Refusal>
    ensures { result ≡ answer (id_refusal id) (eqb nav.id_previous_frame id) }
{
    refusal::check_id(id)?;
    Ok(nav.id_previous_frame == id)
}

pub fn top_modal_layer(nav: Nav) -> Option<LayerId>
    ensures { result ≡ layer_or_nothing nav.top_modal_layer }
{
    let layer = nav.top_modal_layer;
    (layer.id != 0).then_some(layer)
}

// Focus::set_modal_layer.
pub fn set_modal_layer(nav: Nav, layer: LayerId) -> Result<Nav, Refusal>
    ensures refusal { number_in result ≡ layer_refusal layer }
    ensures nav { IfOk result (λ n. n ≡ with_modals nav nav.top_modal_layer layer) }
{
    layer.check()?;
    let mut next = nav;
    next.top_modal_layer_current_frame = layer;
    Ok(next)
}

pub fn request_focus(nav: Nav, id: u64) -> Result<Nav, Refusal>
    ensures refusal { number_in result ≡ id_refusal id }
    ensures nav { IfOk result (λ n. n ≡ focus_on nav id) }
{
    refusal::check_id(id)?;
    Ok(navigation::focus_on(nav, id))
}

pub fn request_focus_next_frame(nav: Nav, id: u64) -> Result<Nav, Refusal>
    ensures refusal { number_in result ≡ id_refusal id }
    ensures nav { IfOk result (λ n. n ≡ with_next nav id) }
{
    refusal::check_id(id)?;
    let mut next = nav;
    next.id_next_frame = id;
    Ok(next)
}

// Lets the focus go, if it is on this id.
#[tactic(auto, unfolding(focus_rules::specs::Rules::let_go))]
pub fn let_go(nav: Nav, id: u64) -> Nav
    ensures { result ≡ let_go nav id }
{
    if nav.focused == id {
        navigation::focus_on(nav, 0)
    } else {
        nav
    }
}

pub fn surrender_focus(nav: Nav, id: u64) -> Result<Nav, Refusal>
    ensures refusal { number_in result ≡ id_refusal id }
    ensures nav { IfOk result (λ n. n ≡ let_go nav id) }
{
    refusal::check_id(id)?;
    Ok(let_go(nav, id))
}

#[tactic(auto, unfolding(focus_rules::specs::Rules::filtered_of))]
pub fn set_focus_lock_filter(nav: Nav, id: u64, filter: EventFilter) -> Result<Nav, Refusal>
    ensures refusal { number_in result ≡ id_refusal id }
    ensures nav { IfOk result (λ n. n ≡ filtered_of nav id filter) }
{
    refusal::check_id(id)?;
    if nav.id_previous_frame == id && nav.focused == id {
        Ok(Nav { filter, ..nav })
    } else {
        Ok(nav)
    }
}

pub fn move_focus(nav: Nav, direction: u64) -> Result<Nav, Refusal>
    ensures refusal { number_in result ≡ code_refusal direction last_direction }
    ensures nav { IfOk result (λ n. n ≡ with_direction nav direction) }
{
    refusal::check_code(direction, LAST_DIRECTION)?;
    let mut next = nav;
    next.focus_direction = direction;
    Ok(next)
}
