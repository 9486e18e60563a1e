// `Memory` of memory/mod.rs: its types and, in specs/, what each of its calls does. The functions are in crates `memory_core`, in place, and `memory`, by value: there is nothing to run here.
#![tactic(auto)]

ghost use Rattle.std.specs.Prelude.{◌≡◌, ◌≤◌};
ghost use Rattle.refusal.specs.Refusal.{bad_family};
ghost use Rattle.memory_rules.specs.declared.Memory.{Memory};
ghost use Rattle.memory_rules.specs.Calls.{Call, done_by};

use areas::Areas;
use emath::Pos2;
use focus::Focus;
use focus_rules::Nav;

// OpenPopup, where its id is not 0: its position, and whether it was opened or kept in this pass. Id 0 is none, as everywhere: an Option would have a second none, an open popup of id 0, which
// egui cannot have.
#[derive(Clone, Copy)]
#[repr(C)]
pub struct Popup {
    pub id: u64,
    pub pos: Option<Pos2>,
    pub open_this_frame: bool,
}

// What one viewport has of its own.
#[derive(Clone, Copy)]
pub struct Viewport {
    pub areas: Areas,
    pub focus: Focus,
    pub popup: Popup,
}

#[derive(Clone, Copy)]
pub struct Memory {
    pub viewport: Viewport,
    pub requested_interrupt_ime: bool,
    pub everything_is_visible: bool,
}

// All of it but the tables: the focus's fields, how many ids are cached and where an interest call looks first; how many layers there are, how many of them have a place, and how many areas
// have a state; the popup and the flags.
#[derive(Clone, Copy)]
#[repr(C)]
pub struct Fields {
    pub nav: Nav,
    pub cached: usize,
    pub slot: usize,
    pub layers: usize,
    pub placed: usize,
    pub states: usize,
    pub popup: Popup,
    pub requested_interrupt_ime: bool,
    pub everything_is_visible: bool,
}

// A call that is refused leaves the memory as it was, every number of it. There is nothing to run.
pub fn refused_changes_nothing()
    ensures { (m : Memory) (call : Call) → ((done_by call m).refusal ≡ 0 → ⊥) → (done_by call m).memory ≡ m }
{}

// A call is taken, or refused by one of document 01's numbers, 1 to 9: so `answer` tells it (`refusal::answer_tells_number`). There is nothing to run.
pub fn refusals_are_numbered()
    ensures { (m : Memory) (call : Call) → (done_by call m).refusal ≤ bad_family }
{}
