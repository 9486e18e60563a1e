// The panel's input: egui's data/input (events, modifiers, the event filter), its key numbers, and what a key does to the focus.
// Keys, modifiers and directions are codes, as document 01 has all kinds: any number may come; a match on a key has six single ones and a range, as document 01's list of forms has it. `matches` and `Event::check` refuse codes past the last of their kind; the functions on numbers below them are leaves, total for any number.
#![tactic(auto)]

ghost use Rattle.std.specs.Prelude.{◌≡◌, cond};
ghost use Rattle.refusal.specs.Refusal.{number_in, answer};
ghost use Rattle.input.specs.Event.{event_refusal};
ghost use Rattle.input.specs.EventFilter.{default_filter, matches_key, matches_of};
ghost use Rattle.input.specs.FocusDirection.{previous, next, is_cardinal, navigation_of};
ghost use Rattle.input.specs.Modifiers.{any_of, shift_only};

use refusal::{LAST_KEY, LAST_MODIFIERS, Refusal};

// FocusDirection, as declared in memory/mod.rs. A code, as all kinds are in document 01, which says what a code past the last is refused by.
pub const UP: u64 = 0;

pub const RIGHT: u64 = 1;

pub const DOWN: u64 = 2;

pub const LEFT: u64 = 3;

pub const PREVIOUS: u64 = 4;

pub const NEXT: u64 = 5;

#[derive(Clone, Copy)]
pub enum Event {
    Key {
        key: u64,
        pressed: bool,
        repeat: bool,
        modifiers: u64,
    },
    // AccessKitActionRequest: focus the node of this id in the root tree.
    AccessKitFocus(u64),
    Pointer(f32, f32),
    Zoom(f32),
    Other,
}

// Which keys the focused widget keeps for itself.
#[derive(Clone, Copy)]
#[repr(C)]
pub struct EventFilter {
    pub tab: bool,
    pub horizontal_arrows: bool,
    pub vertical_arrows: bool,
    pub escape: bool,
}

// What a pressed key does to the focus.
#[derive(Clone, Copy)]
pub enum Navigation {
    Unchanged,
    Direction(u64),
    Escape,
}

// Modifiers::any, on the bits alt 1, ctrl 2, shift 4, mac_cmd 8, command 16.
pub fn any(modifiers: u64) -> bool
    ensures { result ≡ any_of modifiers }
{
    modifiers % 32 != 0
}

// Modifiers::shift_only.
#[tactic(auto, unfolding(crate::specs::Modifiers::shift_only))]
pub fn shift_only(modifiers: u64) -> bool
    ensures { result ≡ shift_only modifiers }
{
    modifiers / 4 % 2 == 1 && modifiers % 2 != 1 && modifiers / 16 % 2 != 1
}

// FocusDirection::is_cardinal: an arrow's direction.
#[tactic(auto, unfolding(crate::specs::FocusDirection::is_cardinal))]
pub fn is_cardinal(direction: u64) -> bool
    ensures { result ≡ is_cardinal direction }
{
    matches!(direction, UP | RIGHT | DOWN | LEFT)
}

// A key that counts only with every modifier off.
fn plain(modifiers: u64, res: Navigation) -> Navigation
    ensures { result ≡ cond (any_of modifiers) Navigation.Unchanged res }
{
    if any(modifiers) {
        Navigation::Unchanged
    } else {
        res
    }
}

fn tab(modifiers: u64) -> Navigation
    ensures { result ≡ cond (any_of modifiers) (cond (shift_only modifiers) (Navigation.Direction previous) Navigation.Unchanged)
        (Navigation.Direction next) }
{
    if !any(modifiers) {
        Navigation::Direction(NEXT)
    } else if shift_only(modifiers) {
        Navigation::Direction(PREVIOUS)
    } else {
        Navigation::Unchanged
    }
}

// The match on a pressed key in Focus::begin_pass.
pub fn navigate(key: u64, modifiers: u64) -> Navigation
    ensures { result ≡ navigation_of key modifiers }
{
    match key {
        0 => plain(modifiers, Navigation::Direction(DOWN)),
        1 => plain(modifiers, Navigation::Direction(LEFT)),
        2 => plain(modifiers, Navigation::Direction(RIGHT)),
        3 => plain(modifiers, Navigation::Direction(UP)),
        4 => plain(modifiers, Navigation::Escape),
        5 => tab(modifiers),
        6..=144 => Navigation::Unchanged,
        _ => Navigation::Unchanged,
    }
}

impl Event {
    pub fn check(self) -> Result<(), Refusal>
        ensures { number_in result ≡ event_refusal self }
    {
        match self {
            Event::Key { key, modifiers, .. } => refusal::both(
                refusal::check_code(key, LAST_KEY),
                refusal::check_code(modifiers, LAST_MODIFIERS),
            ),
            Event::AccessKitFocus(id) => refusal::check_id(id),
            Event::Pointer(..) | Event::Zoom(_) | Event::Other => Ok(()),
        }
    }
}

impl EventFilter {
    pub fn new() -> EventFilter
        ensures { result ≡ default_filter }
    {
        EventFilter {
            tab: false,
            horizontal_arrows: false,
            vertical_arrows: false,
            escape: false,
        }
    }

    // Whether a key event matches, for a key of any number.
    pub fn matches_key(self, key: u64) -> bool
        ensures { result ≡ matches_key self key }
    {
        match key {
            0 => self.vertical_arrows,
            1 => self.horizontal_arrows,
            2 => self.horizontal_arrows,
            3 => self.vertical_arrows,
            4 => self.escape,
            5 => self.tab,
            6..=144 => true,
            _ => true,
        }
    }

    fn matches_any(self, event: Event) -> bool
        ensures { result ≡ matches_of self event }
    {
        match event {
            Event::Key { key, .. } => self.matches_key(key),
            Event::AccessKitFocus(_) | Event::Pointer(..) | Event::Zoom(_) | Event::Other => true,
        }
    }

    pub fn matches(self, event: Event) -> Result<bool, Refusal>
        ensures { result ≡ answer (event_refusal event) (matches_of self event) }
    {
        event.check()?;
        Ok(self.matches_any(event))
    }
}
