// What begin, interest and end of a pass do to the fields of `Focus` of memory/mod.rs, its cache apart: each rule by value. Id 0 is none.
#![tactic(auto)]

ghost use Rattle.std.specs.Prelude.{◌≡◌};
ghost use Rattle.focus_rules.specs.Rules.{focused_widget, filter_of, focus_on, started_of, heard_of, turned_by, begun_of, gives, is_idle, interested_of, found_of, ended_of};

use focus_rules::{FocusWidget, Heard, NO_DIRECTION, Nav};
use input::{Event, EventFilter, NEXT, Navigation, PREVIOUS};
use layers::NO_LAYER;

// A pressed key that the filter lets through.
fn turned(so_far: Heard, navigation: Navigation) -> Heard
    ensures { result ≡ turned_by so_far navigation }
{
    match navigation {
        Navigation::Unchanged => so_far,
        Navigation::Direction(direction) => Heard {
            direction,
            ..so_far
        },
        Navigation::Escape => Heard {
            escaped: 1,
            direction: NO_DIRECTION,
            ..so_far
        },
    }
}

// One event of `begin_pass`.
pub fn heard(so_far: Heard, filter: EventFilter, event: Event) -> Heard
    ensures { result ≡ heard_of filter so_far event }
{
    match event {
        Event::Key {
            key,
            pressed: true,
            modifiers,
            ..
        } if !filter.matches_key(key) => turned(so_far, input::navigate(key, modifiers)),
        Event::AccessKitFocus(id) => Heard {
            asked: id,
            ..so_far
        },
        _ => so_far,
    }
}

pub fn focused_widget(nav: Nav) -> Option<FocusWidget>
    ensures { result ≡ focused_widget nav }
{
    (nav.focused != 0).then_some(FocusWidget {
        id: nav.focused,
        filter: nav.filter,
    })
}

// The focused widget's filter, or the default.
#[tactic(auto, unfolding(focus_rules::specs::Rules::filter_of))]
pub fn event_filter(nav: Nav) -> EventFilter
    ensures { result ≡ filter_of nav }
{
    let Some(widget) = focused_widget(nav) else {
        return EventFilter::new();
    };
    widget.filter
}

// Focuses an id, with the default filter; 0 focuses none.
pub fn focus_on(nav: Nav, id: u64) -> Nav
    ensures { result ≡ focus_on nav id }
{
    Nav {
        focused: id,
        filter: EventFilter::new(),
        ..nav
    }
}

// ---- `begin_pass`: up to the events, and what they come to

#[tactic(auto, unfolding(focus_rules::specs::Rules::started_of))]
pub fn started(nav: Nav) -> Nav
    ensures { result ≡ started_of nav }
{
    let out = Nav {
        id_two_frames_ago: nav.id_previous_frame,
        id_previous_frame: nav.focused,
        id_next_frame: 0,
        focus_direction: NO_DIRECTION,
        ..nav
    };
    if nav.id_next_frame == 0 {
        out
    } else {
        focus_on(out, nav.id_next_frame)
    }
}

// `cached`: the id asked for is in the cache.
#[tactic(auto, unfolding(focus_rules::specs::Rules::begun_of))]
pub fn begun(nav: Nav, heard: Heard, cached: bool) -> Nav
    ensures { result ≡ begun_of nav heard cached }
{
    let out = Nav {
        focus_direction: heard.direction,
        ..nav
    };
    if cached {
        Nav {
            give_to_next: false,
            focus_direction: NO_DIRECTION,
            ..focus_on(nav, heard.asked)
        }
    } else if heard.escaped != 0 {
        focus_on(out, 0)
    } else {
        out
    }
}

// ---- `interested_in_focus`: the first rule that fits

// A Tab hand-over waits, and the id was not focused when the pass began.
fn gives_to(nav: Nav, id: u64) -> bool
    ensures { result ≡ gives nav id }
{
    nav.give_to_next && nav.id_previous_frame != id
}

// None is focused, and no Tab hand-over waits.
fn is_idle(nav: Nav) -> bool
    ensures { result ≡ is_idle nav }
{
    nav.focused == 0 && !nav.give_to_next
}

#[tactic(auto, unfolding(focus_rules::specs::Rules::interested_of))]
pub fn interested(nav: Nav, id: u64) -> Nav
    ensures { result ≡ interested_of nav id }
{
    let out = Nav {
        last_interested: id,
        ..nav
    };
    let turned = Nav {
        focus_direction: NO_DIRECTION,
        ..out
    };
    if gives_to(nav, id) {
        Nav {
            give_to_next: false,
            ..focus_on(out, id)
        }
    } else if nav.focused == id {
        match nav.focus_direction {
            NEXT => Nav {
                give_to_next: true,
                ..focus_on(turned, 0)
            },
            PREVIOUS => Nav {
                id_next_frame: nav.last_interested,
                ..turned
            },
            _ => out,
        }
    } else if is_idle(nav) {
        match nav.focus_direction {
            NEXT => focus_on(turned, id),
            PREVIOUS => focus_on(turned, nav.last_interested),
            _ => out,
        }
    } else {
        out
    }
}

// ---- `end_pass`: what an arrow found, then the drop of a focus that is not used, and the modal hand-over

#[tactic(auto, unfolding(focus_rules::specs::Rules::found_of))]
pub fn found(nav: Nav, id: u64) -> Nav
    ensures { result ≡ found_of nav id }
{
    if id == 0 { nav } else { focus_on(nav, id) }
}

// `used`: the focused id is among the used entries.
#[tactic(auto, unfolding(focus_rules::specs::Rules::ended_of))]
pub fn ended(nav: Nav, used: bool) -> Nav
    ensures { result ≡ ended_of nav used }
{
    let out = Nav {
        top_modal_layer: nav.top_modal_layer_current_frame,
        top_modal_layer_current_frame: NO_LAYER,
        ..nav
    };
    if nav.id_previous_frame == nav.focused && !used {
        focus_on(out, 0)
    } else {
        out
    }
}
