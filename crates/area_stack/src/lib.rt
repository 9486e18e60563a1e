// The calls that need the layers and the states of their areas, in place on lent tables of any length: the rows of crate `layer_rows` and the map of crate
// `area_table`. How many rows and states are held goes along by value; `set_state` is lent the tables themselves, as C lends them.
#![tactic(auto)]

ghost use Rattle.std.specs.Prelude.{◌≡◌, drop, IfOk};
ghost use Rattle.refusal.specs.Refusal.{number_in, id_refusal, answer};
ghost use Rattle.layers.specs.Layers.{layer_refusal};
ghost use Rattle.area_table.specs.Table.{lent as areas_lent, held_of};
ghost use Rattle.layer_rows.specs.Rows.{lent as rows_lent};
ghost use Rattle.area_stack.specs.Stack.{tables_in, tables_lent, shown_row, room_refusal, set_state_refusal, set_state_of, is_interactable, hit_by, hit_row, layer_id_at, next_layer, window_state, next_window};

use area::AreaState;
use area_table::AreaTable;
use emath::Pos2;
use layer_queries::Listing;
use layer_rows::{LayerRows, Row};
use layers::{LayerId, NO_LAYER};
use refusal::Refusal;

// ---- `set_state`

// How many rows and states are held.
#[derive(Clone, Copy)]
pub struct Counts {
    pub count: usize,
    pub states: usize,
}

// Whether there is room at place k.
fn check_room(k: usize, room: usize) -> Result<(), Refusal>
    ensures { number_in result ≡ room_refusal k room }
{
    refusal::check(k < room, Refusal::Full)
}

fn shown(r: Row, area: u64) -> Row
    ensures { result ≡ shown_row area r }
{
    Row {
        shown: 1,
        area,
        ..r
    }
}

pub fn set_state(
    rows: &mut [u64],
    ids: &mut [u64],
    codes: &mut [u64],
    floats: &mut [f32],
    count: usize,
    states: usize,
    layer: LayerId,
    state: AreaState,
) -> Result<Counts, Refusal>
    ensures refusal { number_in result ≡ set_state_refusal (tables_in count states rows.old ids.old codes.old floats.old) layer state }
    ensures counts { IfOk result (λ n. (n.count ≡ (set_state_of (tables_in count states rows.old ids.old codes.old floats.old) layer state).count) × (n.states ≡ (set_state_of (tables_in count states rows.old ids.old codes.old floats.old) layer state).states)) }
    ensures tables { tables_in (set_state_of (tables_in count states rows.old ids.old codes.old floats.old) layer state).count (set_state_of (tables_in count states rows.old ids.old codes.old floats.old) layer state).states rows.new ids.new codes.new floats.new ≡ set_state_of (tables_in count states rows.old ids.old codes.old floats.old) layer state }
{
    let stack = LayerRows { count, words: rows };
    let areas = AreaTable {
        count: states,
        ids,
        codes,
        floats,
    };
    let k = stack.spot(layer);
    let r = stack.row_at(k, layer);
    let a = areas.spot(r.area as usize, layer.id);
    let room = refusal::both(check_room(k, stack.room()), check_room(a, areas.room()));
    refusal::both(refusal::both(layer.check(), state.check()), room)?;
    let counts = Counts {
        count: stack.held().max(k + 1),
        states: areas.held().max(a + 1),
    };
    area_table::put(ids, codes, floats, a, layer.id, state);
    layer_rows::put_row(rows, k, shown(r, a as u64 + 1));
    Ok(counts)
}

// ---- the queries

pub fn get(areas: AreaTable, id: u64) -> Result<Option<AreaState>, Refusal>
    ensures { result ≡ answer (id_refusal id) (held_of (areas_lent areas.entry) areas.entry.count 0 id) }
{
    refusal::check_id(id)?;
    Ok(areas.get(0, id))
}

// A layer without a state is interactable.
fn lets_interact(held: Option<AreaState>) -> bool
    ensures { result ≡ is_interactable held }
{
    held.is_none_or(|s| s.interactable)
}

pub fn is_interactable(areas: AreaTable, layer: LayerId) -> Result<bool, Refusal>
    ensures { result ≡ answer (layer_refusal layer) (is_interactable (held_of (areas_lent areas.entry) areas.entry.count 0 layer.id)) }
{
    layer.check()?;
    Ok(lets_interact(areas.get(0, layer.id)))
}

// Whether the point is in an interactable area.
fn hit_by(pos: Pos2, held: Option<AreaState>) -> bool
    ensures { result ≡ hit_by pos held }
{
    held.is_some_and(|s| s.interactable && s.contains_unchecked(pos))
}

// Whether the point hits the layer of a row.
fn hit_row(areas: AreaTable, pos: Pos2, r: Row) -> bool
    ensures { result ≡ hit_row (areas_lent areas.entry) areas.entry.count pos r }
{
    layer_queries::is_visible_row(r) && hit_by(pos, areas.get(r.area as usize, r.layer.id))
}

// The layer on top that the point hits.
pub fn layer_id_at(rows: LayerRows, areas: AreaTable, pos: Pos2) -> Option<LayerId>
    ensures { result ≡ layer_id_at (tables_lent rows.entry areas.entry) pos }
{
    for k in (0..rows.held()).rev() {
        let r = rows.row_at(k, NO_LAYER);
        if hit_row(areas, pos, r) {
            return Some(r.layer);
        }
    }
    None
}

// ---- listings, in stack order: the two loops differ in what they give of a row. One loop that is handed it as a closure would need a definition of its own, and laws that it is these two.

// The first layer of a listing that stands at a row or after it, and the row after it. It refuses no layer: the caller asks for that.
pub fn next_layer(rows: LayerRows, from: usize, listing: Listing) -> Option<(usize, LayerId)>
    ensures { result ≡ next_layer listing from (drop from (rows_lent rows.entry)) }
{
    for k in from..rows.held() {
        let r = rows.row_at(k, NO_LAYER);
        if layer_queries::is_listed(listing, r) {
            return Some((k + 1, r.layer));
        }
    }
    None
}

// The state of the row's area, if the row is a window. Both arms are options, so `then_some` does not fit.
fn window_state(areas: AreaTable, r: Row) -> Option<AreaState>
    ensures { result ≡ window_state (areas_lent areas.entry) areas.entry.count r }
{
    if layer_queries::is_window(r) {
        areas.get(r.area as usize, r.layer.id)
    } else {
        None
    }
}

// The first of egui's windows, which have a state, that stands at a row or after it, and the row after it.
pub fn next_window(
    rows: LayerRows,
    areas: AreaTable,
    from: usize,
) -> Option<(usize, LayerId, AreaState)>
    ensures { result ≡ next_window (areas_lent areas.entry) areas.entry.count from (drop from (rows_lent rows.entry)) }
{
    for k in from..rows.held() {
        let r = rows.row_at(k, NO_LAYER);
        if let Some(s) = window_state(areas, r) {
            return Some((k + 1, r.layer, s));
        }
    }
    None
}
