// What a C or Rust program on the board links against: numbers and slices in, a number out. A slice is two arguments in C, where it
// starts and how many elements it has; kinds are codes, as document 01 has them. Each function gives what the one that it calls gives.
#![tactic(auto)]

ghost use Rattle.std.specs.Prelude.{◌≡◌, ℕ, ◌/◌, min, length, IfOk};
ghost use Rattle.widget_rows.specs.Rows.{table_in};
ghost use Rattle.widget_table.specs.Table.{refusal_of, insert_of, cleared_cells};
ghost use Rattle.search.specs.Search.{table_of, find_of};
ghost use Rattle.layer_rows.specs.Rows.{held_rows, rows_on};
ghost use Rattle.layer_sort.specs.Sort.{end_rows};
ghost use Rattle.refusal.specs.Refusal.{number_in, kept};
ghost use Rattle.layer_table.specs.Layers.{room_in, to_top, top_refusal, with_sublayer, sublayer_refusal};
ghost use Rattle.area_stack.specs.Stack.{tables_in, set_state_refusal, set_state_of, layer_id_at};
ghost use Rattle.board.specs.Board.{area_of, layer_of};

use area::{Align2, AreaState, PivotPos};
use area_stack::Counts;
use area_table::AreaTable;
use emath::{Pos2, Rect, Vec2};
use layer_rows::LayerRows;
use layers::{LayerId, NO_LAYER};
use refusal::Refusal;
use widget_rect::WidgetRect;

// `search::find` from the rectangle left, top, right, bottom.
#[unsafe(no_mangle)]
pub extern "C" fn jaturemi_find(
    ids: &[u64],
    rects: &[f32],
    focused: u64,
    left: f32,
    top: f32,
    right: f32,
    bottom: f32,
    direction: u64,
) -> u64
    ensures { result ≡ find_of (table_of ids.now rects.now) focused
        (record { min = record { x = left; y = top }; max = record { x = right; y = bottom } }) direction }
{
    let current = Rect::from([left, top, right, bottom]);
    search::find(ids, rects, focused, current, direction)
}

// By what number a call is refused, 0 for none, and how many widgets or rows are then held: a record for C, which has no Result.
#[derive(Clone, Copy)]
#[repr(C)]
pub struct Held {
    pub refusal: u64,
    pub count: usize,
}

// A refused call leaves how many were held.
fn to_c(taken: Result<usize, Refusal>, count: usize) -> Held
    ensures refusal { result.refusal ≡ number_in taken }
    ensures count { (n : ℕ) → IfOk taken (λ k. k ≡ n) → result.count ≡ kept (number_in taken) count n }
{
    Held {
        refusal: refusal::number(&taken),
        count: taken.unwrap_or(count),
    }
}

// `widget_table::insert`.
#[tactic(auto, unfolding(widget_table::specs::Table::insert_of))]
#[unsafe(no_mangle)]
pub extern "C" fn jaturemi_insert(
    cells: &mut [u64],
    ids: &mut [u64],
    words: &mut [u64],
    rects: &mut [f32],
    count: usize,
    layer: LayerId,
    new: WidgetRect,
    move_to_top: bool,
) -> Held
    ensures { (result.refusal ≡ refusal_of (table_in count cells.old ids.old words.old rects.old) layer new) × (table_in result.count cells.new ids.new words.new rects.new ≡ insert_of (table_in count cells.old ids.old words.old rects.old) layer new move_to_top) }
{
    let taken = widget_table::insert(cells, ids, words, rects, count, layer, new, move_to_top);
    to_c(taken, count)
}

// `widget_table::clear`.
#[unsafe(no_mangle)]
pub extern "C" fn jaturemi_clear(cells: &mut [u64]) -> usize
    ensures { (result ≡ 0) × (cells.new ≡ cleared_cells cells.old) }
{
    widget_table::clear(cells)
}

// ---- the layer stack

fn area(x: f32, y: f32, width: f32, height: f32, interactable: bool) -> AreaState
    ensures { result ≡ area_of x y width height interactable }
{
    AreaState {
        pivot_pos: PivotPos::At(x, y),
        pivot: Align2 { x: 0, y: 0 },
        size: Some(Vec2 {
            x: width,
            y: height,
        }),
        interactable,
    }
}

// By what number a state is refused, 0 for none, and how many rows and states are then held: a record for C, which has no Result.
#[derive(Clone, Copy)]
#[repr(C)]
pub struct Changed {
    pub refusal: u64,
    pub count: usize,
    pub states: usize,
}

// `area_stack::set_state` of an area by its left top corner and its size.
#[tactic(auto, unfolding(area_stack::specs::Stack::set_state_of))]
#[unsafe(no_mangle)]
pub extern "C" fn jaturemi_set_state(
    rows: &mut [u64],
    ids: &mut [u64],
    codes: &mut [u64],
    floats: &mut [f32],
    count: usize,
    states: usize,
    layer: LayerId,
    x: f32,
    y: f32,
    width: f32,
    height: f32,
    interactable: bool,
) -> Changed
    ensures { (result.refusal ≡ set_state_refusal (tables_in count states rows.old ids.old codes.old floats.old) layer (area_of x y width height interactable)) × (tables_in result.count result.states rows.new ids.new codes.new floats.new ≡ set_state_of (tables_in count states rows.old ids.old codes.old floats.old) layer (area_of x y width height interactable)) }
{
    let state = area(x, y, width, height, interactable);
    let held = area_stack::set_state(rows, ids, codes, floats, count, states, layer, state);
    let refusal = refusal::number(&held);
    let Counts { count, states } = held.unwrap_or(Counts { count, states });
    Changed {
        refusal,
        count,
        states,
    }
}

// `layer_table::move_to_top`.
#[unsafe(no_mangle)]
pub extern "C" fn jaturemi_move_to_top(rows: &mut [u64], count: usize, layer: LayerId) -> Held
    ensures { (result.refusal ≡ top_refusal (room_in rows.old) (held_rows count rows.old) layer) × (result.count ≡ kept result.refusal count (length (to_top (held_rows count rows.old) layer))) × (rows.new ≡ kept result.refusal rows.old (rows_on rows.old (to_top (held_rows count rows.old) layer))) }
{
    to_c(layer_table::move_to_top(rows, count, layer), count)
}

// `layer_table::set_sublayer`.
#[unsafe(no_mangle)]
pub extern "C" fn jaturemi_set_sublayer(
    rows: &mut [u64],
    count: usize,
    parent: LayerId,
    child: LayerId,
) -> Held
    ensures { (result.refusal ≡ sublayer_refusal (room_in rows.old) (held_rows count rows.old) parent child) × (result.count ≡ kept result.refusal count (length (with_sublayer (held_rows count rows.old) parent child))) × (rows.new ≡ kept result.refusal rows.old (rows_on rows.old (with_sublayer (held_rows count rows.old) parent child))) }
{
    let taken = layer_table::set_sublayer(rows, count, parent, child);
    to_c(taken, count)
}

// `layer_sort::end_pass`.
#[unsafe(no_mangle)]
pub extern "C" fn jaturemi_end_pass(rows: &mut [u64], count: usize) -> usize
    ensures { (result ≡ min count (length rows.old / 8)) × (rows.new ≡ rows_on rows.old (end_rows (held_rows count rows.old))) }
{
    layer_sort::end_pass(rows, count)
}

// `area_stack::layer_id_at`: the layer, of id 0 where there is none.
#[unsafe(no_mangle)]
pub extern "C" fn jaturemi_layer_id_at(
    rows: &[u64],
    ids: &[u64],
    codes: &[u64],
    floats: &[f32],
    count: usize,
    states: usize,
    x: f32,
    y: f32,
) -> LayerId
    ensures { result ≡ layer_of (layer_id_at (tables_in count states rows.now ids.now codes.now floats.now) (record { x = x; y = y })) }
{
    let stack = LayerRows { count, words: rows };
    let areas = AreaTable {
        count: states,
        ids,
        codes,
        floats,
    };
    area_stack::layer_id_at(stack, areas, Pos2 { x, y }).unwrap_or(NO_LAYER)
}
