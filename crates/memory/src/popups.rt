// The popup of `Memory`, over the functions on its fields.
ghost use Rattle.std.specs.Prelude.{◌≡◌};
ghost use Rattle.refusal.specs.Refusal.{id_refusal, answer};
ghost use Rattle.memory_rules.specs.State.{done};
ghost use Rattle.memory_rules.specs.Memory.{is_popup_open, any_popup_open, opened, opened_at, popup_kept, position_answer, all_closed, closed, toggled};

use crate::{done, fields_of, with_fields};
use emath::Pos2;
use memory_rules::Memory;
use refusal::Refusal;

pub fn is_popup_open(m: Memory, id: u64) -> Result<bool, Refusal>
    ensures { result ≡ answer (id_refusal id) (is_popup_open m id) }
{
    memory_popups::is_popup_open(fields_of(m), id)
}

pub fn any_popup_open(m: Memory) -> bool
    ensures { result ≡ any_popup_open m }
{
    memory_popups::any_popup_open(fields_of(m))
}

pub fn open_popup(m: Memory, id: u64) -> Result<Memory, Refusal>
    ensures { done m result ≡ opened m id }
{
    done(m, memory_popups::open_popup(fields_of(m), id))
}

pub fn open_popup_at(m: Memory, id: u64, pos: Option<Pos2>) -> Result<Memory, Refusal>
    ensures { done m result ≡ opened_at m id pos }
{
    done(m, memory_popups::open_popup_at(fields_of(m), id, pos))
}

pub fn keep_popup_open(m: Memory, id: u64) -> Result<Memory, Refusal>
    ensures { done m result ≡ popup_kept m id }
{
    done(m, memory_popups::keep_popup_open(fields_of(m), id))
}

pub fn popup_position(m: Memory, id: u64) -> Result<Option<Pos2>, Refusal>
    ensures { result ≡ position_answer m id }
{
    memory_popups::popup_position(fields_of(m), id)
}

pub fn close_all_popups(m: Memory) -> Memory
    ensures { result ≡ all_closed m }
{
    with_fields(m, memory_popups::close_all_popups(fields_of(m)))
}

pub fn close_popup(m: Memory, id: u64) -> Result<Memory, Refusal>
    ensures { done m result ≡ closed m id }
{
    done(m, memory_popups::close_popup(fields_of(m), id))
}

pub fn toggle_popup(m: Memory, id: u64) -> Result<Memory, Refusal>
    ensures { done m result ≡ toggled m id }
{
    done(m, memory_popups::toggle_popup(fields_of(m), id))
}
