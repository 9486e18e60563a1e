// `Memory` of memory/mod.rs as a record by value, over the functions in place (crates `memory_core`, `memory_fields`, `memory_popups`): its passes, its focus and its flags. Crate `memory_areas`
// has the calls on its layers and areas. Directions and Orders are codes, as document 01 has all kinds. A call that is refused hands back no record: the caller's is as it was.
// Each passes on, in a line, what the call in place of its name answers at the record's own fields and tables.
#![tactic(auto)]

ghost use Rattle.std.specs.Prelude.{◌≡◌, true};
ghost use Rattle.area_table.specs.Table.{table_in};
ghost use Rattle.focus_cache.specs.Cache.{cache_in};
ghost use Rattle.focus_rules.specs.Rules.{id_or_nothing, layer_or_nothing};
ghost use Rattle.focus.specs.Focus.{events_of};
ghost use Rattle.memory_rules.specs.State.{areas_of, focus_of, nav_of, with_ime, with_everything, new_memory, memory_of, fields_of, done, done_of};
ghost use Rattle.memory_rules.specs.Memory.{begun_of, ended_of, used_in, interested_of, ignored_of, above_answer, allows_answer, modal_set, of_id, had_focus, has_focus, lost_focus, gained_focus, filter_set, requested, requested_next, surrendered, moved, text_stopped};

pub mod popups;

use areas::Areas;
use focus::{Events, Focus, Used};
use input::EventFilter;
use layers::LayerId;
use memory_rules::{Fields, Memory, Viewport};
use refusal::Refusal;

pub fn new() -> Memory
    ensures { result ≡ new_memory }
{
    Memory {
        viewport: Viewport {
            areas: Areas::new(),
            focus: Focus::new(),
            popup: memory_popups::no_popup(),
        },
        requested_interrupt_ime: false,
        everything_is_visible: false,
    }
}

// ---- the record and its parts

pub fn fields_of(m: Memory) -> Fields
    ensures { result ≡ fields_of m }
{
    Fields {
        nav: m.viewport.focus.nav,
        cached: m.viewport.focus.count,
        slot: m.viewport.focus.slot,
        layers: m.viewport.areas.count,
        placed: m.viewport.areas.placed,
        states: m.viewport.areas.states,
        popup: m.viewport.popup,
        requested_interrupt_ime: m.requested_interrupt_ime,
        everything_is_visible: m.everything_is_visible,
    }
}

// With other fields over the same tables.
pub fn with_fields(m: Memory, fields: Fields) -> Memory
    ensures { result ≡ memory_of fields (areas_of m).rows (table_in (areas_of m).ids (areas_of m).codes (areas_of m).floats) (cache_in (focus_of m).ids (focus_of m).rects) }
{
    let areas = Areas {
        count: fields.layers,
        placed: fields.placed,
        states: fields.states,
        ..m.viewport.areas
    };
    let focus = Focus {
        nav: fields.nav,
        count: fields.cached,
        slot: fields.slot,
        ..m.viewport.focus
    };
    Memory {
        viewport: Viewport {
            areas,
            focus,
            popup: fields.popup,
        },
        requested_interrupt_ime: fields.requested_interrupt_ime,
        everything_is_visible: fields.everything_is_visible,
    }
}

// What a call on the fields leaves.
pub fn done(m: Memory, called: Result<Fields, Refusal>) -> Result<Memory, Refusal>
    ensures { done m result ≡ done_of (fields_of m) called (areas_of m).rows (table_in (areas_of m).ids (areas_of m).codes (areas_of m).floats) (cache_in (focus_of m).ids (focus_of m).rects) }
{
    Ok(with_fields(m, called?))
}

// ---- a pass

pub fn begin_pass(m: Memory, e: Events) -> Result<Memory, Refusal>
    ensures { done m result ≡ begun_of m (events_of e) }
{
    let events = e.lent()?;
    let focus = &m.viewport.focus;
    done(
        m,
        memory_core::begin_pass(fields_of(m), &focus.ids, &focus.rects, events),
    )
}

pub fn interested_in_focus(mut m: Memory, id: u64, layer: LayerId) -> Result<Memory, Refusal>
    ensures { done m result ≡ interested_of m id layer }
{
    let fields = fields_of(m);
    let viewport = &mut m.viewport;
    let interested = memory_core::interested_in_focus(
        fields,
        &viewport.areas.rows,
        &mut viewport.focus.ids,
        &mut viewport.focus.rects,
        id,
        layer,
    );
    done(m, interested)
}

pub fn ignore_focus(mut m: Memory, id: u64) -> Result<Memory, Refusal>
    ensures { done m result ≡ ignored_of m id }
{
    let ignored = memory_core::ignore_focus(
        fields_of(m),
        &mut m.viewport.focus.ids,
        &mut m.viewport.focus.rects,
        id,
    );
    done(m, ignored)
}

pub fn end_pass(mut m: Memory, u: Used) -> Result<Memory, Refusal>
    ensures { done m result ≡ ended_of m (used_in u) }
{
    let used = u.lent()?;
    let ended = memory_core::end_pass(
        fields_of(m),
        &mut m.viewport.areas.rows,
        &mut m.viewport.focus.ids,
        &mut m.viewport.focus.rects,
        used,
    );
    done(m, ended)
}

// ---- modal layers

pub fn is_above_modal_layer(m: Memory, layer: LayerId) -> Result<bool, Refusal>
    ensures { result ≡ above_answer m layer }
{
    memory_core::is_above_modal_layer(fields_of(m), &m.viewport.areas.rows, layer)
}

pub fn allows_interaction(m: Memory, layer: LayerId) -> Result<bool, Refusal>
    ensures { result ≡ allows_answer m layer }
{
    memory_core::allows_interaction(fields_of(m), &m.viewport.areas.rows, layer)
}

pub fn set_modal_layer(m: Memory, layer: LayerId) -> Result<Memory, Refusal>
    ensures { done m result ≡ modal_set m layer }
{
    let rows = &m.viewport.areas.rows;
    done(m, memory_core::set_modal_layer(fields_of(m), rows, layer))
}

pub fn top_modal_layer(m: Memory) -> Option<LayerId>
    ensures { result ≡ layer_or_nothing (nav_of m).top_modal_layer }
{
    memory_fields::top_modal_layer(fields_of(m))
}

// ---- the focus

pub fn focused(m: Memory) -> Option<u64>
    ensures { result ≡ id_or_nothing (nav_of m).focused }
{
    memory_fields::focused(fields_of(m))
}

pub fn had_focus_last_frame(m: Memory, id: u64) -> Result<bool, Refusal>
    ensures { result ≡ of_id had_focus m id }
{
    memory_fields::had_focus_last_frame(fields_of(m), id)
}

pub fn lost_focus(m: Memory, id: u64) -> Result<bool, Refusal>
    ensures { result ≡ of_id lost_focus m id }
{
    memory_fields::lost_focus(fields_of(m), id)
}

pub fn gained_focus(m: Memory, id: u64) -> Result<bool, Refusal>
    ensures { result ≡ of_id gained_focus m id }
{
    memory_fields::gained_focus(fields_of(m), id)
}

pub fn has_focus(m: Memory, id: u64) -> Result<bool, Refusal>
    ensures { result ≡ of_id has_focus m id }
{
    memory_fields::has_focus(fields_of(m), id)
}

pub fn owns_ime_events(m: Memory, id: u64) -> Result<bool, Refusal>
    ensures { result ≡ of_id has_focus m id }
{
    has_focus(m, id)
}

pub fn focus_direction(m: Memory) -> u64
    ensures { result ≡ (nav_of m).focus_direction }
{
    m.viewport.focus.nav.focus_direction
}

pub fn set_focus_lock_filter(m: Memory, id: u64, filter: EventFilter) -> Result<Memory, Refusal>
    ensures { done m result ≡ filter_set m id filter }
{
    done(
        m,
        memory_fields::set_focus_lock_filter(fields_of(m), id, filter),
    )
}

pub fn request_focus(m: Memory, id: u64) -> Result<Memory, Refusal>
    ensures { done m result ≡ requested m id }
{
    done(m, memory_fields::request_focus(fields_of(m), id))
}

pub fn request_focus_next_frame(m: Memory, id: u64) -> Result<Memory, Refusal>
    ensures { done m result ≡ requested_next m id }
{
    done(m, memory_fields::request_focus_next_frame(fields_of(m), id))
}

pub fn surrender_focus(m: Memory, id: u64) -> Result<Memory, Refusal>
    ensures { done m result ≡ surrendered m id }
{
    done(m, memory_fields::surrender_focus(fields_of(m), id))
}

pub fn move_focus(m: Memory, direction: u64) -> Result<Memory, Refusal>
    ensures { done m result ≡ moved m direction }
{
    done(m, memory_fields::move_focus(fields_of(m), direction))
}

pub fn stop_text_input(m: Memory) -> Memory
    ensures { result ≡ text_stopped m }
{
    with_fields(m, memory_fields::stop_text_input(fields_of(m)))
}

// ---- flags: a flag is set in a copy of the record, since to go through its fields would copy the
// tables more than once

pub fn interrupt_ime(m: Memory) -> Memory
    ensures { result ≡ with_ime m true }
{
    Memory {
        requested_interrupt_ime: true,
        ..m
    }
}

pub fn should_interrupt_ime(m: Memory) -> bool
    ensures { result ≡ m.requested_interrupt_ime }
{
    m.requested_interrupt_ime
}

pub fn everything_is_visible(m: Memory) -> bool
    ensures { result ≡ m.everything_is_visible }
{
    m.everything_is_visible
}

pub fn set_everything_is_visible(m: Memory, value: bool) -> Memory
    ensures { result ≡ with_everything m value }
{
    Memory {
        everything_is_visible: value,
        ..m
    }
}
