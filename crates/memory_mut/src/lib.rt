// `Memory` of memory/mod.rs by `&mut`, as egui has it: the calls that a session makes. Each passes the record's own tables on to the function that works on lent tables, so that none is copied, and a call that
// changes the memory puts the fields back. One that is refused changes nothing.
#![tactic(auto)]

ghost use Rattle.std.specs.Prelude.{◌≡◌};
ghost use Rattle.area_table.specs.Table.{table_in};
ghost use Rattle.areas.specs.Areas.{state_set, to_top_of, sublayer_set};
ghost use Rattle.focus_cache.specs.Cache.{cache_in};
ghost use Rattle.focus_pass.specs.Events.{events_in};
ghost use Rattle.focus_rules.specs.Rules.{id_or_nothing};
ghost use Rattle.used.specs.Used.{lent as used_lent};
ghost use Rattle.memory_rules.specs.State.{areas_of, focus_of, nav_of, fields_of, memory_of, done_of};
ghost use Rattle.memory_rules.specs.Memory.{begun_of, ended_of, interested_of, modal_set, layer_id_at};
ghost use Rattle.memory_rules.specs.Calls.{with_stack};
ghost use Rattle.memory_mut.specs.Left.{left};

use area::AreaState;
use emath::Pos2;
use layers::LayerId;
use memory_rules::{Fields, Memory};
use refusal::Refusal;
use used::UsedEntries;

// ---- the record and its parts

fn fields_of(m: &Memory) -> Fields
    ensures { result ≡ fields_of m.now }
{
    let focus = &m.viewport.focus;
    let areas = &m.viewport.areas;
    Fields {
        nav: focus.nav,
        cached: focus.count,
        slot: focus.slot,
        layers: areas.count,
        placed: areas.placed,
        states: areas.states,
        popup: m.viewport.popup,
        requested_interrupt_ime: m.requested_interrupt_ime,
        everything_is_visible: m.everything_is_visible,
    }
}

// Other fields over the same tables.
fn set_fields(m: &mut Memory, fields: Fields)
    ensures { m.new ≡ memory_of fields (areas_of m.old).rows (table_in (areas_of m.old).ids (areas_of m.old).codes (areas_of m.old).floats) (cache_in (focus_of m.old).ids (focus_of m.old).rects) }
{
    let focus = &mut m.viewport.focus;
    focus.nav = fields.nav;
    focus.count = fields.cached;
    focus.slot = fields.slot;
    let areas = &mut m.viewport.areas;
    areas.count = fields.layers;
    areas.placed = fields.placed;
    areas.states = fields.states;
    m.viewport.popup = fields.popup;
    m.requested_interrupt_ime = fields.requested_interrupt_ime;
    m.everything_is_visible = fields.everything_is_visible;
}

// What a call on the fields leaves.
fn done(m: &mut Memory, called: Result<Fields, Refusal>) -> Result<(), Refusal>
    ensures { left m.new result ≡ done_of (fields_of m.old) called (areas_of m.old).rows (table_in (areas_of m.old).ids (areas_of m.old).codes (areas_of m.old).floats) (cache_in (focus_of m.old).ids (focus_of m.old).rects) }
{
    set_fields(m, called?);
    Ok(())
}

// ---- a pass

pub fn begin_pass(m: &mut Memory, events: &[u64]) -> Result<(), Refusal>
    ensures { left m.new result ≡ begun_of m.old (events_in events.now) }
{
    let focus = &m.viewport.focus;
    let begun = memory_core::begin_pass(fields_of(m), &focus.ids, &focus.rects, events);
    done(m, begun)
}

pub fn interested_in_focus(m: &mut Memory, id: u64, layer: LayerId) -> Result<(), Refusal>
    ensures { left m.new result ≡ interested_of m.old id layer }
{
    let fields = fields_of(m);
    let viewport = &mut m.viewport;
    let interested = memory_core::interested_in_focus(
        fields,
        &viewport.areas.rows,
        &mut viewport.focus.ids,
        &mut viewport.focus.rects,
        id,
        layer,
    );
    done(m, interested)
}

pub fn end_pass(m: &mut Memory, used: UsedEntries) -> Result<(), Refusal>
    ensures { left m.new result ≡ ended_of m.old (used_lent used.entry) }
{
    let fields = fields_of(m);
    let viewport = &mut m.viewport;
    let ended = memory_core::end_pass(
        fields,
        &mut viewport.areas.rows,
        &mut viewport.focus.ids,
        &mut viewport.focus.rects,
        used,
    );
    done(m, ended)
}

// ---- layers and areas

pub fn set_modal_layer(m: &mut Memory, layer: LayerId) -> Result<(), Refusal>
    ensures { left m.new result ≡ modal_set m.old layer }
{
    let rows = &m.viewport.areas.rows;
    let set = memory_core::set_modal_layer(fields_of(m), rows, layer);
    done(m, set)
}

pub fn set_state(m: &mut Memory, layer: LayerId, state: AreaState) -> Result<(), Refusal>
    ensures { left m.new result ≡ with_stack m.old (state_set (areas_of m.old) layer state) }
{
    let fields = fields_of(m);
    let areas = &mut m.viewport.areas;
    let shown = memory_stack::set_state(
        fields,
        &mut areas.rows,
        &mut areas.ids,
        &mut areas.codes,
        &mut areas.floats,
        layer,
        state,
    );
    done(m, shown)
}

pub fn move_to_top(m: &mut Memory, layer: LayerId) -> Result<(), Refusal>
    ensures { left m.new result ≡ with_stack m.old (to_top_of (areas_of m.old) layer) }
{
    let fields = fields_of(m);
    let raised = memory_stack::move_to_top(fields, &mut m.viewport.areas.rows, layer);
    done(m, raised)
}

pub fn set_sublayer(m: &mut Memory, parent: LayerId, child: LayerId) -> Result<(), Refusal>
    ensures { left m.new result ≡ with_stack m.old (sublayer_set (areas_of m.old) parent child) }
{
    let fields = fields_of(m);
    let rows = &mut m.viewport.areas.rows;
    let paired = memory_stack::set_sublayer(fields, rows, parent, child);
    done(m, paired)
}

// ---- queries

pub fn layer_id_at(m: &Memory, pos: Pos2) -> Option<LayerId>
    ensures { result ≡ layer_id_at m.now pos }
{
    let areas = &m.viewport.areas;
    memory_stack::layer_id_at(
        fields_of(m),
        &areas.rows,
        &areas.ids,
        &areas.codes,
        &areas.floats,
        pos,
    )
}

pub fn focused(m: &Memory) -> Option<u64>
    ensures { result ≡ id_or_nothing (nav_of m.now).focused }
{
    focus_calls::focused(m.viewport.focus.nav)
}
