// WidgetRects of widget_rect.rs, changed in place on lent tables of any length: `insert` and `clear`. Crate `widget_rows` says what stands in the tables, and
// reads them. How many rows are held goes along by value. The tables go to each function as they are lent: with a struct of tables that change each
// function would have to promise that they stay the ones that were lent, and how many rows fit would still stand in each contract.
#![tactic(auto)]

ghost use Rattle.std.specs.Prelude.{◌≡◌, ◌+◌, ◌-◌, ◌*◌, ◌≤◌, ◌<◌, length, IfOk};
ghost use Rattle.refusal.specs.Refusal.{number_in};
ghost use Rattle.tables.specs.Tables.{put_at};
ghost use Rattle.widget_rows.specs.Rows.{rows_in, table_in};
ghost use Rattle.widget_table.specs.Table.{full_refusal, edges_of, look_of, shared_of, push_of, remove_of, update_of, row_after, refusal_of, insert_of, cleared_cells};

use layers::LayerId;
use refusal::Refusal;
use widget_rect::WidgetRect;
use widget_rows::WidgetTable;

// ---- the numbers of a row

// Puts what the halves of row k do not share. The half is a number, 0 or 1, as it is a factor of the place in the row. The rows are written at places in
// the tables, since std's `as_chunks_mut` says nothing of what the slice ends as.
fn put_half(words: &mut [u64], rects: &mut [f32], k: usize, half: usize, w: WidgetRect)
    requires { (10 * k + 10 ≤ length words.old) × (16 * k + 16 ≤ length rects.old) × (half ≤ 1) }
    ensures { (words.new ≡ put_at words.old (10 * k + 4 + 3 * half) (look_of w)) × (rects.new ≡ put_at rects.old (16 * k + 8 * half) (edges_of w)) }
{
    let look = [w.sense, u64::from(w.enabled), u64::from(w.visible)];
    tables::put(words, 10 * k + 4 + 3 * half, &look);
    let edges = [w.rect, w.interact_rect].map(<[f32; 4]>::from);
    tables::put(rects, 16 * k + 8 * half, edges.as_flattened());
}

// Puts what they share, apart from the id.
fn put_shared(words: &mut [u64], k: usize, w: WidgetRect, index: u64)
    requires { 10 * k + 10 ≤ length words.old }
    ensures { words.new ≡ put_at words.old (10 * k) (shared_of w index) }
{
    let shared = [w.parent_id, w.layer_id.order, w.layer_id.id, index];
    tables::put(words, 10 * k, &shared);
}

// ---- a row more, and a row less

// Puts a widget after the first n rows.
#[tactic(auto, unfolding(crate::specs::Table::push_of, crate::specs::Table::push_words, crate::specs::Table::push_rects))]
fn push(ids: &mut [u64], words: &mut [u64], rects: &mut [f32], n: usize, w: WidgetRect)
    requires { (n < length ids.old) × (10 * n + 10 ≤ length words.old) × (16 * n + 16 ≤ length rects.old) }
    ensures { rows_in ids.new words.new rects.new ≡ push_of (rows_in ids.old words.old rects.old) n w }
{
    let index = widget_rows::next_index(words, n, w.layer_id);
    ids[n] = w.id;
    put_shared(words, n, w, index);
    put_half(words, rects, n, 0, w);
    put_half(words, rects, n, 1, w);
}

// Takes row k, which is of the layer, out of the first n: those after it move down, and its layer's list is numbered anew from its place on.
fn remove(ids: &mut [u64], words: &mut [u64], rects: &mut [f32], n: usize, k: usize, layer: LayerId)
    requires { (k ≤ n) × (n ≤ length ids.old) × (10 * n ≤ length words.old) × (16 * n ≤ length rects.old) }
    ensures { rows_in ids.new words.new rects.new ≡ remove_of (rows_in ids.old words.old rects.old) n k layer }
{
    tables::close(&mut ids[k..n], 1);
    widget_rows::take_out(&mut words[10 * k..10 * n], layer);
    tables::close(&mut rects[16 * k..16 * n], 16);
}

fn check_room(found: Option<usize>, n: usize, room: usize) -> Result<(), Refusal>
    ensures { number_in result ≡ full_refusal found n room }
{
    refusal::check(found.is_some() || n < room, Refusal::Full)
}

// ---- the calls

// A known widget, whose record joined with the new one is w; the row where it then stands.
#[tactic(auto, unfolding(crate::specs::Table::row_after, crate::specs::Table::put_half, layers::specs::Layers::is_layer))]
fn update(
    ids: &mut [u64],
    words: &mut [u64],
    rects: &mut [f32],
    n: usize,
    k: usize,
    w: WidgetRect,
    new: WidgetRect,
    move_to_top: bool,
) -> usize
    requires { (k < n) × (n ≤ length ids.old) × (10 * n ≤ length words.old) × (16 * n ≤ length rects.old) }
    ensures { (result ≡ row_after n k w new move_to_top) × (rows_in ids.new words.new rects.new ≡ update_of (rows_in ids.old words.old rects.old) n k w new move_to_top) }
{
    let in_its_list = w.layer_id == new.layer_id;
    if in_its_list && move_to_top {
        remove(ids, words, rects, n, k, w.layer_id);
        push(ids, words, rects, n - 1, w);
        return n - 1;
    }
    put_half(words, rects, k, 0, w);
    if in_its_list {
        put_half(words, rects, k, 1, w);
    }
    k
}

// How many rows are then held.
#[tactic(auto, unfolding(crate::specs::Table::refusal_of, crate::specs::Table::insert_of, crate::specs::Table::joined_at))]
pub fn insert(
    cells: &mut [u64],
    ids: &mut [u64],
    words: &mut [u64],
    rects: &mut [f32],
    count: usize,
    layer: LayerId,
    new: WidgetRect,
    move_to_top: bool,
) -> Result<usize, Refusal>
    ensures refusal { number_in result ≡ refusal_of (table_in count cells.old ids.old words.old rects.old) layer new }
    ensures count { IfOk result (λ n. n ≡ (insert_of (table_in count cells.old ids.old words.old rects.old) layer new move_to_top).count) }
    ensures table { table_in (insert_of (table_in count cells.old ids.old words.old rects.old) layer new move_to_top).count cells.new ids.new words.new rects.new ≡ insert_of (table_in count cells.old ids.old words.old rects.old) layer new move_to_top }
{
    let table = WidgetTable {
        count,
        cells,
        ids,
        words,
        rects,
    };
    let room = table.room();
    let n = table.held();
    let found = table.find(new.id);
    refusal::both(new.check_insert(layer), check_room(found, n, room))?;
    let home = widget_rows::home(cells, new.id);
    match found {
        Some(k) => {
            let w = table.record_or(k, new).joined(new);
            let row = update(ids, words, rects, n, k, w, new, move_to_top);
            tables::put_one(cells, home, row as u64 + 1);
            Ok(n)
        }
        None => {
            push(ids, words, rects, n, new);
            tables::put_one(cells, home, n as u64 + 1);
            Ok(n + 1)
        }
    }
}

// How many rows are then held: none. The rows keep their numbers, which no call reads any more.
pub fn clear(cells: &mut [u64]) -> usize
    ensures { (result ≡ 0) × (cells.new ≡ cleared_cells cells.old) }
{
    cells.fill(0);
    0
}
