// `Memory` of memory/mod.rs as a record by value: the calls on its layers and areas, over the functions in place (crate `memory_stack`), and the queries of `Areas`, passed on in a line each:
// egui's callers reach them through `Memory` too.
// An Order is a code, as document 01 has all kinds: any number may come, and one past the last is refused by 2.
#![tactic(auto)]

ghost use Rattle.std.specs.Prelude.{◌≡◌, IfOk};
ghost use Rattle.std.specs.Ordering.{ordering_index};
ghost use Rattle.refusal.specs.Refusal.{number_in, lowest, id_refusal, code_refusal, answer};
ghost use Rattle.refusal.specs.Limits.{last_order};
ghost use Rattle.layers.specs.Layers.{layer_refusal};
ghost use Rattle.area_table.specs.Table.{held_in, held_of};
ghost use Rattle.layer_rows.specs.Rows.{held_rows, row_of};
ghost use Rattle.layer_queries.specs.Queries.{is_top_row, shown_last, is_visible_row, is_sublayer_row, compared_by, parent_in, last_of};
ghost use Rattle.layer_queries.specs.declared.Listing.TheVariants.{All, Visible};
ghost use Rattle.area_stack.specs.Stack.{is_interactable};
ghost use Rattle.areas.specs.Areas.{areas_in, stack_of, state_set, to_top_of, sublayer_set, layers_of, listed, children_answer, windows_of, windows_listed};
ghost use Rattle.memory_rules.specs.State.{areas_of, done};
ghost use Rattle.memory_rules.specs.Memory.{layer_id_at, area_rect, areas_reset};
ghost use Rattle.memory_rules.specs.Calls.{with_stack};

use area::AreaState;
use areas::{Layers, Windows};
use emath::{Pos2, Rect};
use layers::LayerId;
use memory_rules::Memory;
use refusal::Refusal;
use std::cmp::Ordering;

// ---- calls that change them

pub fn set_state(mut m: Memory, layer: LayerId, state: AreaState) -> Result<Memory, Refusal>
    ensures { done m result ≡ with_stack m (state_set (areas_of m) layer state) }
{
    let fields = memory::fields_of(m);
    let areas = &mut m.viewport.areas;
    let shown = memory_stack::set_state(
        fields,
        &mut areas.rows,
        &mut areas.ids,
        &mut areas.codes,
        &mut areas.floats,
        layer,
        state,
    );
    memory::done(m, shown)
}

pub fn move_to_top(mut m: Memory, layer: LayerId) -> Result<Memory, Refusal>
    ensures { done m result ≡ with_stack m (to_top_of (areas_of m) layer) }
{
    let raised = memory_stack::move_to_top(memory::fields_of(m), &mut m.viewport.areas.rows, layer);
    memory::done(m, raised)
}

pub fn set_sublayer(mut m: Memory, parent: LayerId, child: LayerId) -> Result<Memory, Refusal>
    ensures { done m result ≡ with_stack m (sublayer_set (areas_of m) parent child) }
{
    let paired = memory_stack::set_sublayer(
        memory::fields_of(m),
        &mut m.viewport.areas.rows,
        parent,
        child,
    );
    memory::done(m, paired)
}

pub fn reset_areas(m: Memory) -> Memory
    ensures { result ≡ areas_reset m }
{
    memory::with_fields(m, memory_fields::reset_areas(memory::fields_of(m)))
}

// ---- queries

pub fn layer_id_at(m: Memory, pos: Pos2) -> Option<LayerId>
    ensures { result ≡ layer_id_at m pos }
{
    let areas = &m.viewport.areas;
    memory_stack::layer_id_at(
        memory::fields_of(m),
        &areas.rows,
        &areas.ids,
        &areas.codes,
        &areas.floats,
        pos,
    )
}

pub fn area_rect(m: Memory, id: u64) -> Result<Option<Rect>, Refusal>
    ensures { result ≡ area_rect m id }
{
    let areas = &m.viewport.areas;
    memory_stack::area_rect(
        memory::fields_of(m),
        &areas.ids,
        &areas.codes,
        &areas.floats,
        id,
    )
}

pub fn layer_ids(m: Memory) -> Layers
    ensures { result ≡ listed (layers_of (areas_of m) All) }
{
    m.viewport.areas.order()
}

pub fn count(m: Memory) -> usize
    ensures { result ≡ held_in (areas_of m).states (areas_in (areas_of m)) }
{
    m.viewport.areas.count()
}

pub fn get(m: Memory, id: u64) -> Result<Option<AreaState>, Refusal>
    ensures { result ≡ answer (id_refusal id) (held_of (areas_in (areas_of m)) (areas_of m).states 0 id) }
{
    m.viewport.areas.get(id)
}

pub fn is_interactable(m: Memory, layer: LayerId) -> Result<bool, Refusal>
    ensures { result ≡ answer (layer_refusal layer) (is_interactable (held_of (areas_in (areas_of m)) (areas_of m).states 0 layer.id)) }
{
    m.viewport.areas.is_interactable(layer)
}

pub fn compare_order(m: Memory, a: LayerId, b: LayerId) -> Result<Ordering, Refusal>
    ensures refusal { number_in result ≡ lowest (layer_refusal a) (layer_refusal b) }
    ensures order { IfOk result (λ o. ordering_index o ≡ compared_by (held_rows (areas_of m).placed (areas_of m).rows) a b) }
{
    m.viewport.areas.compare_order(a, b)
}

pub fn visible_last_frame(m: Memory, layer: LayerId) -> Result<bool, Refusal>
    ensures { result ≡ answer (layer_refusal layer) (shown_last (row_of (stack_of (areas_of m)) layer)) }
{
    m.viewport.areas.visible_last_frame(layer)
}

pub fn is_visible(m: Memory, layer: LayerId) -> Result<bool, Refusal>
    ensures { result ≡ answer (layer_refusal layer) (is_visible_row (row_of (stack_of (areas_of m)) layer)) }
{
    m.viewport.areas.is_visible(layer)
}

pub fn is_sublayer(m: Memory, layer: LayerId) -> Result<bool, Refusal>
    ensures { result ≡ answer (layer_refusal layer) (is_sublayer_row (row_of (stack_of (areas_of m)) layer)) }
{
    m.viewport.areas.is_sublayer(layer)
}

pub fn parent_layer(m: Memory, layer: LayerId) -> Result<Option<LayerId>, Refusal>
    ensures { result ≡ answer (layer_refusal layer) (parent_in (row_of (stack_of (areas_of m)) layer)) }
{
    m.viewport.areas.parent_layer(layer)
}

pub fn top_layer_id(m: Memory, order: u64) -> Result<Option<LayerId>, Refusal>
    ensures { result ≡ answer (code_refusal order last_order) (last_of (is_top_row order) (stack_of (areas_of m))) }
{
    m.viewport.areas.top_layer_id(order)
}

pub fn visible_layer_ids(m: Memory) -> Layers
    ensures { result ≡ listed (layers_of (areas_of m) Visible) }
{
    m.viewport.areas.visible_layer_ids()
}

pub fn child_layers(m: Memory, layer: LayerId) -> Result<Layers, Refusal>
    ensures { result ≡ children_answer (areas_of m) layer }
{
    m.viewport.areas.child_layers(layer)
}

pub fn visible_windows(m: Memory) -> Windows
    ensures { result ≡ windows_listed (windows_of (areas_of m)) }
{
    m.viewport.areas.visible_windows()
}
