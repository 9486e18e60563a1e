// The calls of `Memory` (memory/mod.rs) that need none of its tables: the fields go in and come back by value. What the tables are is left open in each contract.
// A direction is a code, as document 01 has all kinds: any number may come, and one past the last is refused by 2.
#![tactic(auto)]

ghost use Rattle.std.specs.Prelude.{◌≡◌, true, List, ℕ};
ghost use Rattle.area_table.specs.Table.{Table};
ghost use Rattle.focus_cache.specs.Cache.{Cache};
ghost use Rattle.focus_rules.specs.Rules.{id_or_nothing, layer_or_nothing};
ghost use Rattle.memory_rules.specs.State.{memory_of, done_of, with_ime, with_everything, nav_of};
ghost use Rattle.memory_rules.specs.Memory.{of_id, had_focus, has_focus, lost_focus, gained_focus, filter_set, requested, requested_next, surrendered, moved, text_stopped, areas_reset};

use focus_rules::Nav;
use input::EventFilter;
use layers::LayerId;
use memory_rules::Fields;
use refusal::Refusal;

// ---- queries

pub fn focused(fields: Fields) -> Option<u64>
    ensures { (rows : List ℕ) (map : Table) (cache : Cache) → result ≡ id_or_nothing (nav_of (memory_of fields rows map cache)).focused }
{
    focus_calls::focused(fields.nav)
}

pub fn had_focus_last_frame(fields: Fields, id: u64) -> Result<bool, Refusal>
    ensures { (rows : List ℕ) (map : Table) (cache : Cache) → result ≡ of_id had_focus (memory_of fields rows map cache) id }
{
    focus_calls::had_focus_last_frame(fields.nav, id)
}

pub fn has_focus(fields: Fields, id: u64) -> Result<bool, Refusal>
    ensures { (rows : List ℕ) (map : Table) (cache : Cache) → result ≡ of_id has_focus (memory_of fields rows map cache) id }
{
    refusal::check_id(id)?;
    Ok(fields.nav.focused == id)
}

pub fn lost_focus(fields: Fields, id: u64) -> Result<bool, Refusal>
    ensures { (rows : List ℕ) (map : Table) (cache : Cache) → result ≡ of_id lost_focus (memory_of fields rows map cache) id }
{
    refusal::check_id(id)?;
    let had = fields.nav.id_previous_frame == id || fields.nav.id_two_frames_ago == id;
    Ok(had && fields.nav.focused != id)
}

pub fn gained_focus(fields: Fields, id: u64) -> Result<bool, Refusal>
    ensures { (rows : List ℕ) (map : Table) (cache : Cache) → result ≡ of_id gained_focus (memory_of fields rows map cache) id }
{
    refusal::check_id(id)?;
    Ok(fields.nav.id_previous_frame != id && fields.nav.focused == id)
}

pub fn top_modal_layer(fields: Fields) -> Option<LayerId>
    ensures { (rows : List ℕ) (map : Table) (cache : Cache) → result ≡ layer_or_nothing (nav_of (memory_of fields rows map cache)).top_modal_layer }
{
    focus_calls::top_modal_layer(fields.nav)
}

// ---- calls that change the focus's fields

#[tactic(auto, unfolding(memory_rules::specs::Memory::filter_set, focus::specs::Focus::filter_set))]
pub fn set_focus_lock_filter(
    fields: Fields,
    id: u64,
    filter: EventFilter,
) -> Result<Fields, Refusal>
    ensures { (rows : List ℕ) (map : Table) (cache : Cache) → done_of fields result rows map cache ≡ filter_set (memory_of fields rows map cache) id filter }
{
    let nav = focus_calls::set_focus_lock_filter(fields.nav, id, filter)?;
    Ok(Fields { nav, ..fields })
}

#[tactic(auto, unfolding(memory_rules::specs::Memory::surrendered, focus::specs::Focus::surrendered))]
pub fn surrender_focus(fields: Fields, id: u64) -> Result<Fields, Refusal>
    ensures { (rows : List ℕ) (map : Table) (cache : Cache) → done_of fields result rows map cache ≡ surrendered (memory_of fields rows map cache) id }
{
    let nav = focus_calls::surrender_focus(fields.nav, id)?;
    Ok(Fields { nav, ..fields })
}

#[tactic(auto, unfolding(memory_rules::specs::Memory::moved, focus::specs::Focus::moved))]
pub fn move_focus(fields: Fields, direction: u64) -> Result<Fields, Refusal>
    ensures { (rows : List ℕ) (map : Table) (cache : Cache) → done_of fields result rows map cache ≡ moved (memory_of fields rows map cache) direction }
{
    let nav = focus_calls::move_focus(fields.nav, direction)?;
    Ok(Fields { nav, ..fields })
}

// A request that is taken interrupts the input method.
fn interrupting(fields: Fields, nav: Nav) -> Fields
    ensures { result ≡ record { nav = nav; cached = fields.cached; slot = fields.slot; layers = fields.layers; placed = fields.placed; states = fields.states; popup = fields.popup; requested_interrupt_ime = true; everything_is_visible = fields.everything_is_visible } }
{
    Fields {
        nav,
        requested_interrupt_ime: true,
        ..fields
    }
}

#[tactic(auto, unfolding(memory_rules::specs::Memory::requested, focus::specs::Focus::requested))]
pub fn request_focus(fields: Fields, id: u64) -> Result<Fields, Refusal>
    ensures { (rows : List ℕ) (map : Table) (cache : Cache) → done_of fields result rows map cache ≡ requested (memory_of fields rows map cache) id }
{
    let nav = focus_calls::request_focus(fields.nav, id)?;
    Ok(interrupting(fields, nav))
}

#[tactic(auto, unfolding(memory_rules::specs::Memory::requested_next, focus::specs::Focus::requested_next))]
pub fn request_focus_next_frame(fields: Fields, id: u64) -> Result<Fields, Refusal>
    ensures { (rows : List ℕ) (map : Table) (cache : Cache) → done_of fields result rows map cache ≡ requested_next (memory_of fields rows map cache) id }
{
    let nav = focus_calls::request_focus_next_frame(fields.nav, id)?;
    Ok(interrupting(fields, nav))
}

#[tactic(auto, unfolding(memory_rules::specs::Memory::text_stopped))]
pub fn stop_text_input(fields: Fields) -> Fields
    ensures { (rows : List ℕ) (map : Table) (cache : Cache) → memory_of result rows map cache ≡ text_stopped (memory_of fields rows map cache) }
{
    Fields {
        nav: navigation::focus_on(fields.nav, 0),
        ..fields
    }
}

// ---- the other fields

// No layer and no state is held any more; the tables stay as they are.
pub fn reset_areas(fields: Fields) -> Fields
    ensures { (rows : List ℕ) (map : Table) (cache : Cache) → memory_of result rows map cache ≡ areas_reset (memory_of fields rows map cache) }
{
    Fields {
        layers: 0,
        placed: 0,
        states: 0,
        ..fields
    }
}

pub fn interrupt_ime(fields: Fields) -> Fields
    ensures { (rows : List ℕ) (map : Table) (cache : Cache) → memory_of result rows map cache ≡ with_ime (memory_of fields rows map cache) true }
{
    interrupting(fields, fields.nav)
}

pub fn set_everything_is_visible(fields: Fields, value: bool) -> Fields
    ensures { (rows : List ℕ) (map : Table) (cache : Cache) → memory_of result rows map cache ≡ with_everything (memory_of fields rows map cache) value }
{
    Fields {
        everything_is_visible: value,
        ..fields
    }
}
