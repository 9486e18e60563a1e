// The rows of WidgetRects of widget_rect.rs on lent tables of any length, read and numbered: `by_id` and `by_layer` are one table, a row for each widget, the rows
// of a layer in the order of its list. How many rows are held goes along by value.
//     cells: for ids that share a home, the row after the one where the last of them was inserted; 0 where none was
//     ids:   the id
//     words: ten numbers: parent id, Order, layer's id, index, and twice sense, enabled, visible
//     rects: sixteen numbers: twice rect, interact_rect
// The record stands in a row twice, since egui holds it twice: half 0 is the one held by id, half 1 the one in the list of its layer.
#![tactic(auto)]

ghost use Rattle.std.specs.Prelude.{◌≡◌, ◌+◌, ◌-◌, ◌*◌, ◌/◌, min, ◌≤◌, ◌<◌, length, take};
ghost use Rattle.tables.specs.Tables.{closed};
ghost use Rattle.widget_rows.specs.Rows.{rows_in, lent, home_of, place_of, room_of, held_of, found_in, layer_at, is_in, index_at, record_at, record_or, next_index, lowered_at, renumbered, entry_of, listed_in};

use emath::Rect;
use layers::LayerId;
use widget_rect::WidgetRect;

// ---- rows

fn layer(row: &[u64; 10]) -> LayerId
    ensures { result ≡ layer_at row.now 0 }
{
    LayerId {
        order: row[1],
        id: row[2],
    }
}

#[tactic(auto, unfolding(crate::specs::Rows::is_in, layers::specs::Layers::is_layer))]
fn is_in(row: &[u64; 10], layer_id: LayerId) -> bool
    ensures { result ≡ is_in row.now 0 layer_id }
{
    layer(row) == layer_id
}

#[tactic(auto, unfolding(crate::specs::Rows::index_at))]
fn index(row: &[u64; 10]) -> u64
    ensures { result ≡ index_at row.now 0 }
{
    row[3]
}

// A half of row k as a record. The half is a number, 0 or 1, and no kind of its own, as it is a factor of the place in the row.
fn read_half(ids: &[u64], words: &[u64], rects: &[f32], k: usize, half: usize) -> WidgetRect
    requires { (k < length ids.now) × (10 * k + 10 ≤ length words.now) × (16 * k + 16 ≤ length rects.now) × (half ≤ 1) }
    ensures { result ≡ record_at (rows_in ids.now words.now rects.now) k half }
{
    let row = &words.as_chunks::<10>().0[k];
    let look = 4 + 3 * half;
    let (rects, _) = rects.as_chunks::<4>();
    let at = 4 * k + 2 * half;
    WidgetRect {
        id: ids[k],
        parent_id: row[0],
        layer_id: layer(row),
        rect: Rect::from(rects[at]),
        interact_rect: Rect::from(rects[at + 1]),
        sense: row[look],
        enabled: row[look + 1] != 0,
        visible: row[look + 2] != 0,
    }
}

// ---- the lists of the layers

// The index after the last of the layer's list, among the first n rows, or among all where they are fewer. The rows are numbered: over the slice's own iterator, backwards,
// the loop is no plainer, since its proof has to speak of what the iterator has left.
#[tactic(auto, using(crate::proofs::Lists::next_hit, crate::proofs::Lists::next_miss, crate::proofs::Chunked::chunk_in, crate::proofs::Chunked::chunk_index), unfolding(crate::specs::Rows::next_index))]
pub fn next_index(words: &[u64], n: usize, layer: LayerId) -> u64
    ensures { result ≡ next_index words.now (min n (length words.now / 10)) layer }
{
    let (rows, _) = words.as_chunks::<10>();
    for k in (0..n.min(rows.len())).rev() {
        let row = &rows[k];
        if is_in(row, layer) {
            return index(row).saturating_add(1);
        }
    }
    0
}

// The index of row k is one less, if the row is of the layer. It is written at its place in the tail, since std's `as_chunks_mut` says nothing of what the slice ends as.
#[tactic(auto, using(crate::proofs::Chunked::chunk_in, crate::proofs::Chunked::chunk_index), unfolding(crate::specs::Rows::lowered_at))]
fn lower(tail: &mut [u64], k: usize, layer: LayerId)
    requires { 10 * k + 10 ≤ length tail.old }
    ensures { tail.new ≡ lowered_at tail.old k layer }
{
    let row = &tail.as_chunks::<10>().0[k];
    if is_in(row, layer) {
        tail[10 * k + 3] = index(row).saturating_sub(1);
    }
}

// The places of the layer's list in a tail of the rows are one less each.
#[tactic(auto, using(crate::proofs::Lists::renumber_more, crate::proofs::Lists::lowered_length, crate::proofs::Lists::renumber_end), unfolding(crate::specs::Rows::renumbered))]
fn renumber(tail: &mut [u64], layer: LayerId)
    ensures { tail.new ≡ renumbered layer tail.old }
{
    for k in 0..tail.len() / 10 {
        lower(tail, k, layer);
    }
}

// Takes the first row, which is of the layer, out of a tail of the rows.
pub fn take_out(tail: &mut [u64], layer: LayerId)
    ensures { tail.new ≡ renumbered layer (closed 10 tail.old) }
{
    tables::close(tail, 10);
    renumber(tail, layer);
}

// ---- where an id stands

// The cell that leads to the row of an id; other ids may share it.
pub fn home(cells: &[u64], id: u64) -> usize
    ensures { result ≡ home_of cells.now id }
{
    ((cells.len() as u64).saturating_sub(1) & id) as usize
}

// The row of an id among the first n, or among all where they are fewer. Where the cell of its home is 0, it has none; else it is the row before the cell's,
// or a little below, since rows that move go down.
#[tactic(auto, using(crate::proofs::Places::by_cell), unfolding(crate::specs::Rows::place_of, crate::specs::Rows::place_by))]
pub fn place(cells: &[u64], ids: &[u64], n: usize, id: u64) -> Option<usize>
    ensures { result ≡ place_of cells.now (take n ids.now) id }
{
    let cell = cells.get(home(cells, id)).copied().unwrap_or(1);
    if cell == 0 {
        return None;
    }
    tables::find(&ids[..n.min(ids.len())], cell as usize, id)
}

// ---- what is held

// The tables, lent to be read, and how many rows are held.
#[derive(Clone, Copy)]
pub struct WidgetTable<'a> {
    pub count: usize,
    pub cells: &'a [u64],
    pub ids: &'a [u64],
    pub words: &'a [u64],
    pub rects: &'a [f32],
}

impl WidgetTable<'_> {
    // How many whole rows the tables have.
    #[tactic(auto, unfolding(crate::specs::Rows::room_of))]
    pub fn room(self) -> usize
        ensures { result ≡ room_of (lent self.entry).rows }
    {
        self.ids
            .len()
            .min(self.words.len() / 10)
            .min(self.rects.len() / 16)
    }

    // How many rows are held: never more than there is room for.
    #[tactic(auto, unfolding(crate::specs::Rows::held_in))]
    pub fn held(self) -> usize
        ensures { result ≡ held_of (lent self.entry) }
    {
        self.count.min(self.room())
    }

    // The row of an id.
    #[tactic(auto, unfolding(crate::specs::Rows::found_in))]
    pub fn find(self, id: u64) -> Option<usize>
        ensures { result ≡ found_in (lent self.entry) id }
    {
        place(self.cells, self.ids, self.held(), id)
    }

    // The record held by id at row k, or d past the room, so that no caller has to be asked for a row that is there.
    #[tactic(auto, unfolding(crate::specs::Rows::record_or, crate::specs::Rows::room_of))]
    pub fn record_or(self, k: usize, d: WidgetRect) -> WidgetRect
        ensures { result ≡ record_or (lent self.entry).rows k d }
    {
        if k < self.room() {
            read_half(self.ids, self.words, self.rects, k, 0)
        } else {
            d
        }
    }

    // by_id.get: the index in the list of its layer, and the record.
    #[tactic(auto, using(crate::proofs::Places::found_fits, crate::proofs::Chunked::chunk_index), unfolding(crate::specs::Rows::entry_of))]
    pub fn get(self, id: u64) -> Option<(u64, WidgetRect)>
        ensures { result ≡ entry_of (lent self.entry) id }
    {
        let k = self.find(id)?;
        Some((
            index(&self.words.as_chunks::<10>().0[k]),
            read_half(self.ids, self.words, self.rects, k, 0),
        ))
    }

    // The first widget of the layer's list that stands at a row or after it, with the row after its own, for which the rows are numbered.
    #[tactic(auto, using(crate::proofs::Lists::listed_hit, crate::proofs::Lists::listed_miss, crate::proofs::Lists::listed_end, crate::proofs::Chunked::chunk_in), unfolding(crate::specs::Rows::held_in, crate::specs::Rows::room_of))]
    pub fn next_in_layer(self, from: usize, layer: LayerId) -> Option<(usize, WidgetRect)>
        ensures { result ≡ listed_in (lent self.entry).rows layer (held_of (lent self.entry) - from) from }
    {
        let (rows, _) = self.words.as_chunks::<10>();
        for k in from..self.held() {
            if is_in(&rows[k], layer) {
                return Some((k + 1, read_half(self.ids, self.words, self.rects, k, 1)));
            }
        }
        None
    }
}
