// `Memory` of memory/mod.rs in place: the calls on its layers and areas. Its fields go by value; the rows of the layers and the map of the area states are lent tables of any length. A
// contract leaves open what the tables are that its function does not get. The tables are lent bare, since their counts are among the fields.
#![tactic(auto)]

ghost use Rattle.std.specs.Prelude.{◌≡◌, Some, List, ℕ};
ghost use Rattle.area_table.specs.Table.{Table, table_in};
ghost use Rattle.areas.specs.Areas.{state_set, to_top_of, sublayer_set};
ghost use Rattle.focus_cache.specs.Cache.{Cache};
ghost use Rattle.memory_rules.specs.State.{memory_of, done_of, areas_of};
ghost use Rattle.memory_rules.specs.Memory.{unless_below, layer_id_at, area_rect};
ghost use Rattle.memory_rules.specs.Calls.{with_stack};

use area::AreaState;
use area_table::AreaTable;
use emath::{Pos2, Rect};
use layer_rows::LayerRows;
use layers::LayerId;
use memory_rules::Fields;
use refusal::Refusal;

// What the hit layer is answered by, where it is below the modal layer.
#[tactic(auto, unfolding(memory_rules::specs::Memory::is_above))]
fn unless_below(fields: Fields, rows: &[u64], layer: LayerId) -> Option<LayerId>
    ensures { (map : Table) (cache : Cache) → result ≡ unless_below (memory_of fields rows.now map cache) (Some layer) }
{
    let modal = fields.nav.top_modal_layer;
    if memory_core::is_above(memory_core::placed(fields, rows), modal, layer) {
        Some(layer)
    } else {
        focus_calls::top_modal_layer(fields.nav)
    }
}

#[tactic(auto, unfolding(memory_rules::specs::Memory::layer_id_at))]
pub fn layer_id_at(
    fields: Fields,
    rows: &[u64],
    ids: &[u64],
    codes: &[u64],
    floats: &[f32],
    pos: Pos2,
) -> Option<LayerId>
    ensures { (cache : Cache) → result ≡ layer_id_at (memory_of fields rows.now (table_in ids.now codes.now floats.now) cache) pos }
{
    let stack = LayerRows {
        count: fields.layers,
        words: rows,
    };
    let areas = AreaTable {
        count: fields.states,
        ids,
        codes,
        floats,
    };
    let layer = area_stack::layer_id_at(stack, areas, pos)?;
    unless_below(fields, rows, layer)
}

#[tactic(auto, unfolding(memory_rules::specs::Memory::area_rect))]
pub fn area_rect(
    fields: Fields,
    ids: &[u64],
    codes: &[u64],
    floats: &[f32],
    id: u64,
) -> Result<Option<Rect>, Refusal>
    ensures { (rows : List ℕ) (cache : Cache) → result ≡ area_rect (memory_of fields rows (table_in ids.now codes.now floats.now) cache) id }
{
    refusal::check_id(id)?;
    let areas = AreaTable {
        count: fields.states,
        ids,
        codes,
        floats,
    };
    Ok(areas.get(0, id).map(|s| s.rect_unchecked()))
}

#[tactic(auto, unfolding(areas::specs::Areas::state_set))]
pub fn set_state(
    fields: Fields,
    rows: &mut [u64],
    ids: &mut [u64],
    codes: &mut [u64],
    floats: &mut [f32],
    layer: LayerId,
    state: AreaState,
) -> Result<Fields, Refusal>
    ensures { (cache : Cache) → done_of fields result rows.new (table_in ids.new codes.new floats.new) cache ≡ with_stack (memory_of fields rows.old (table_in ids.old codes.old floats.old) cache) (state_set (areas_of (memory_of fields rows.old (table_in ids.old codes.old floats.old) cache)) layer state) }
{
    let counts = area_stack::set_state(
        rows,
        ids,
        codes,
        floats,
        fields.layers,
        fields.states,
        layer,
        state,
    )?;
    Ok(Fields {
        layers: counts.count,
        states: counts.states,
        ..fields
    })
}

#[tactic(auto, unfolding(areas::specs::Areas::to_top_of))]
pub fn move_to_top(fields: Fields, rows: &mut [u64], layer: LayerId) -> Result<Fields, Refusal>
    ensures { (map : Table) (cache : Cache) → done_of fields result rows.new map cache ≡ with_stack (memory_of fields rows.old map cache) (to_top_of (areas_of (memory_of fields rows.old map cache)) layer) }
{
    let layers = layer_table::move_to_top(rows, fields.layers, layer)?;
    Ok(Fields { layers, ..fields })
}

#[tactic(auto, unfolding(areas::specs::Areas::sublayer_set))]
pub fn set_sublayer(
    fields: Fields,
    rows: &mut [u64],
    parent: LayerId,
    child: LayerId,
) -> Result<Fields, Refusal>
    ensures { (map : Table) (cache : Cache) → done_of fields result rows.new map cache ≡ with_stack (memory_of fields rows.old map cache) (sublayer_set (areas_of (memory_of fields rows.old map cache)) parent child) }
{
    let layers = layer_table::set_sublayer(rows, fields.layers, parent, child)?;
    Ok(Fields { layers, ..fields })
}
