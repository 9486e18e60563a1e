// The popup of `Memory` (memory/mod.rs), over its fields by value: at most one is open, and id 0 is none. What the tables are is left open in each contract.
#![tactic(auto)]

ghost use Rattle.std.specs.Prelude.{◌≡◌, ◌||◌, cond, List, eqb, ℕ};
ghost use Rattle.refusal.specs.Refusal.{id_refusal, answer};
ghost use Rattle.area_table.specs.Table.{Table};
ghost use Rattle.focus_cache.specs.Cache.{Cache};
ghost use Rattle.memory_rules.specs.State.{no_popup, memory_of, done_of};
ghost use Rattle.memory_rules.specs.Memory.{popup_ended, popup_at, is_popup_open, any_popup_open, opened, opened_at, kept_open, popup_kept, position_in, position_answer, all_closed, closed, toggled};

use emath::Pos2;
use memory_rules::{Fields, Popup};
use refusal::Refusal;

pub fn no_popup() -> Popup
    ensures { result ≡ no_popup }
{
    Popup {
        id: 0,
        pos: None,
        open_this_frame: false,
    }
}

// At the end of a pass one that was not opened or kept in it is gone.
pub fn ended(popup: Popup) -> Popup
    ensures { result ≡ popup_ended popup }
{
    if popup.open_this_frame {
        Popup {
            open_this_frame: false,
            ..popup
        }
    } else {
        no_popup()
    }
}

// OpenPopup::new.
fn opened_at(id: u64, pos: Option<Pos2>) -> Popup
    ensures { result ≡ popup_at id pos }
{
    Popup {
        id,
        pos,
        open_this_frame: true,
    }
}

// ---- queries

fn is_open(fields: Fields, id: u64) -> bool
    ensures { result ≡ (eqb fields.popup.id id || fields.everything_is_visible) }
{
    fields.popup.id == id || fields.everything_is_visible
}

#[tactic(auto, unfolding(memory_rules::specs::Memory::is_popup_open))]
pub fn is_popup_open(fields: Fields, id: u64) -> Result<bool, Refusal>
    ensures { (rows : List ℕ) (map : Table) (cache : Cache) → result ≡ answer (id_refusal id) (is_popup_open (memory_of fields rows map cache) id) }
{
    refusal::check_id(id)?;
    Ok(is_open(fields, id))
}

pub fn any_popup_open(fields: Fields) -> bool
    ensures { (rows : List ℕ) (map : Table) (cache : Cache) → result ≡ any_popup_open (memory_of fields rows map cache) }
{
    fields.popup.id != 0 || fields.everything_is_visible
}

// Both arms are options, so `then_some` does not fit.
fn position(popup: Popup, id: u64) -> Option<Pos2>
    ensures { result ≡ position_in popup id }
{
    if popup.id == id { popup.pos } else { None }
}

pub fn popup_position(fields: Fields, id: u64) -> Result<Option<Pos2>, Refusal>
    ensures { (rows : List ℕ) (map : Table) (cache : Cache) → result ≡ position_answer (memory_of fields rows map cache) id }
{
    refusal::check_id(id)?;
    Ok(position(fields.popup, id))
}

// ---- calls that change it

pub fn open_popup_at(fields: Fields, id: u64, pos: Option<Pos2>) -> Result<Fields, Refusal>
    ensures { (rows : List ℕ) (map : Table) (cache : Cache) → done_of fields result rows map cache ≡ opened_at (memory_of fields rows map cache) id pos }
{
    refusal::check_id(id)?;
    Ok(Fields {
        popup: opened_at(id, pos),
        ..fields
    })
}

pub fn open_popup(fields: Fields, id: u64) -> Result<Fields, Refusal>
    ensures { (rows : List ℕ) (map : Table) (cache : Cache) → done_of fields result rows map cache ≡ opened (memory_of fields rows map cache) id }
{
    open_popup_at(fields, id, None)
}

// The popup is opened or kept in this pass, if it is of this id.
fn marked(popup: Popup, id: u64) -> Popup
    ensures { result ≡ cond (eqb popup.id id) (kept_open popup) popup }
{
    Popup {
        open_this_frame: popup.open_this_frame || popup.id == id,
        ..popup
    }
}

#[tactic(auto, unfolding(memory_rules::specs::Memory::popup_kept))]
pub fn keep_popup_open(fields: Fields, id: u64) -> Result<Fields, Refusal>
    ensures { (rows : List ℕ) (map : Table) (cache : Cache) → done_of fields result rows map cache ≡ popup_kept (memory_of fields rows map cache) id }
{
    refusal::check_id(id)?;
    Ok(Fields {
        popup: marked(fields.popup, id),
        ..fields
    })
}

pub fn close_all_popups(fields: Fields) -> Fields
    ensures { (rows : List ℕ) (map : Table) (cache : Cache) → memory_of result rows map cache ≡ all_closed (memory_of fields rows map cache) }
{
    Fields {
        popup: no_popup(),
        ..fields
    }
}

#[tactic(auto, unfolding(memory_rules::specs::Memory::closed, memory_rules::specs::Memory::is_popup_open))]
pub fn close_popup(fields: Fields, id: u64) -> Result<Fields, Refusal>
    ensures { (rows : List ℕ) (map : Table) (cache : Cache) → done_of fields result rows map cache ≡ closed (memory_of fields rows map cache) id }
{
    refusal::check_id(id)?;
    let popup = if is_open(fields, id) {
        no_popup()
    } else {
        fields.popup
    };
    Ok(Fields { popup, ..fields })
}

#[tactic(auto, unfolding(memory_rules::specs::Memory::toggled, memory_rules::specs::Memory::closed, memory_rules::specs::Memory::is_popup_open))]
pub fn toggle_popup(fields: Fields, id: u64) -> Result<Fields, Refusal>
    ensures { (rows : List ℕ) (map : Table) (cache : Cache) → done_of fields result rows map cache ≡ toggled (memory_of fields rows map cache) id }
{
    if is_open(fields, id) {
        close_popup(fields, id)
    } else {
        open_popup(fields, id)
    }
}
