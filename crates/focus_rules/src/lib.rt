// `Focus` of memory/mod.rs without its cache: its fields as numbers and flags by value, in specs/ the rules by which a call changes them, and the laws of a whole page of interest calls. Id 0 is none.
// There is nothing to run.
#![tactic(auto)]

ghost use Rattle.std.specs.Prelude.{◌≡◌, true, false, List, [], ◌∷◌, ◌++◌, ℕ};
ghost use Rattle.input.specs.FocusDirection.{previous, next, no_direction};
ghost use Rattle.focus_rules.specs.declared.Nav.{Nav};
ghost use Rattle.focus_rules.specs.Rules.{focus_on, with_next, with_give, with_last, with_frames, reset_focus, started_of};
ghost use Rattle.focus_rules.specs.Page.{wanted_all, last_of, NoneOf, Turning};

use input::EventFilter;
use layers::LayerId;

// FocusDirection::None.
pub const NO_DIRECTION: u64 = 6;

// C programs hold it, so no field is an option: 0 is no id, and a layer of id 0 is none.
#[derive(Clone, Copy)]
#[repr(C)]
pub struct Nav {
    // The focused widget with its filter, which counts only where there is one.
    pub focused: u64,
    pub filter: EventFilter,
    pub give_to_next: bool,
    pub id_previous_frame: u64,
    pub id_two_frames_ago: u64,
    pub id_next_frame: u64,
    pub last_interested: u64,
    pub focus_direction: u64,
    pub top_modal_layer: LayerId,
    pub top_modal_layer_current_frame: LayerId,
}

#[derive(Clone, Copy)]
pub struct FocusWidget {
    pub id: u64,
    pub filter: EventFilter,
}

// The fields after a call that may change the cache, and how many entries it then holds.
#[derive(Clone, Copy)]
pub struct After {
    pub nav: Nav,
    pub count: usize,
}

// What the events of a pass come to: 1 where Escape lets the focus go, the direction, and the id last asked for. Three numbers: the bytes that a flag would leave unused
// cost more than the rest of the loop over the events.
#[derive(Clone, Copy)]
pub struct Heard {
    pub escaped: u64,
    pub direction: u64,
    pub asked: u64,
}

// With no key and nothing to hand over, a page changes only the id that was last interested. There is nothing to run.
pub fn no_key_moves_nothing()
    ensures { (n : Nav) (ids : List ℕ) → n.give_to_next ≡ false → n.focus_direction ≡ no_direction →
        wanted_all n ids ≡ with_last n (last_of n.last_interested ids) }
{}

// After Tab the focus goes to the field after the focused one, with the default filter, and nothing waits; from the last field it goes to none, and the hand-over waits. There is nothing to run.
pub fn tab_moves_on()
    ensures { ((n : Nav) (f : ℕ) (xs : List ℕ) → NoneOf xs f → (y : ℕ) (ys : List ℕ) → (y ≡ f → ⊥) → Turning n f next →
        wanted_all n (xs ++ (f ∷ y ∷ ys)) ≡ with_last (reset_focus (with_give (focus_on n y) false)) (last_of y ys))
        × ((n : Nav) (f : ℕ) (xs : List ℕ) → NoneOf xs f → Turning n f next →
        wanted_all n (xs ++ (f ∷ [])) ≡ with_last (reset_focus (with_give (focus_on n 0) true)) f) }
{}

// A hand-over that waits goes to the first field of the page, unless that one was focused when the pass began; it gets the default filter, and nothing waits any more. There is nothing to run.
pub fn hand_over_is_taken()
    ensures { (n : Nav) (y : ℕ) (ys : List ℕ) → n.give_to_next ≡ true → (n.id_previous_frame ≡ y → ⊥) → n.focus_direction ≡ no_direction →
        wanted_all n (y ∷ ys) ≡ with_last (with_give (focus_on n y) false) (last_of y ys) }
{}

// After Shift+Tab the focus stays, and the next frame's id is the field before it, or where it is the first of the page, the id that was last interested before the page. There is nothing to run.
pub fn shift_tab_moves_back()
    ensures { (n : Nav) (f : ℕ) (xs : List ℕ) → NoneOf xs f → (ys : List ℕ) → Turning n f previous →
        wanted_all n (xs ++ (f ∷ ys)) ≡ with_last (reset_focus (with_next n (last_of n.last_interested xs))) (last_of f ys) }
{}

// The begin of a pass focuses the next frame's id, with the default filter, and none waits any more. There is nothing to run.
pub fn begin_hands_over()
    ensures { (n : Nav) → (n.id_next_frame ≡ 0 → ⊥) →
        started_of n ≡ reset_focus (focus_on (with_next (with_frames n n.focused n.id_previous_frame) 0) n.id_next_frame) }
{}
