// The layers of `Areas` (memory/mod.rs) as rows of a lent table of any length: the stack, a row for each layer, the lowest first. How many rows are held stands
// beside the words in `LayerRows`, which reads them; a call that changes the rows is lent the words themselves, as C lends them. A row is eight numbers:
//     Order and id; whether it was shown this pass, shown the last pass, raised this pass; the id of its parent this pass, which has its Order, or 0;
//     where its area's state is looked for first; a key, while rows are sorted
// The table is the caller's and may hold any words, so the flags stay numbers: every word but 0 says yes, and a row that is put back keeps its word.
#![tactic(auto)]

ghost use Rattle.std.specs.Prelude.{◌≡◌, ◌+◌, ◌*◌, ◌≤◌, min, ◌/◌, length, get_or};
ghost use Rattle.tables.specs.Tables.{put_at};
ghost use Rattle.layer_rows.specs.Rows.{row_in, words_of, new_row, lent, spot_in, row_of};

use layers::LayerId;

#[derive(Clone, Copy)]
pub struct Row {
    pub layer: LayerId,
    pub shown: u64,
    pub last: u64,
    pub raised: u64,
    pub parent: u64,
    pub area: u64,
    pub key: u64,
}

// A row of a layer of which nothing is known.
pub fn new_row(layer: LayerId) -> Row
    ensures { result ≡ new_row layer }
{
    Row {
        layer,
        shown: 0,
        last: 0,
        raised: 0,
        parent: 0,
        area: 0,
        key: 0,
    }
}

// A row and its eight numbers are made from each other in one place each, here and in `put_row`.
fn read(rows: &[u64], k: usize) -> Row
    requires { 8 * k + 8 ≤ length rows.now }
    ensures { result ≡ row_in rows.now k }
{
    let (rows, _) = rows.as_chunks::<8>();
    let [order, id, shown, last, raised, parent, area, key] = rows[k];
    Row {
        layer: LayerId { order, id },
        shown,
        last,
        raised,
        parent,
        area,
        key,
    }
}

// The table, lent to be read, and how many rows are held.
#[derive(Clone, Copy)]
pub struct LayerRows<'a> {
    pub count: usize,
    pub words: &'a [u64],
}

impl LayerRows<'_> {
    // How many whole rows the table has.
    pub fn room(self) -> usize
        ensures { result ≡ length self.entry.words.now / 8 }
    {
        self.words.len() / 8
    }

    // How many rows are held: never more than there is room for.
    pub fn held(self) -> usize
        ensures { result ≡ min self.entry.count (length self.entry.words.now / 8) }
    {
        self.count.min(self.room())
    }

    // Row k of those held, and past them a new one of the layer.
    #[tactic(auto, using(crate::proofs::Rows::held_get, crate::proofs::Rows::held_past))]
    pub fn row_at(self, k: usize, layer: LayerId) -> Row
        ensures { result ≡ get_or (lent self.entry) k (new_row layer) }
    {
        if k < self.held() {
            read(self.words, k)
        } else {
            new_row(layer)
        }
    }

    // The place of a layer's row, or the one at which it would be put: after those that are held.
    #[tactic(auto, using(crate::proofs::Rows::spot_over, crate::proofs::Rows::spot_found), unfolding(layers::specs::Layers::is_layer))]
    pub fn spot(self, layer: LayerId) -> usize
        ensures place { result ≡ spot_in (lent self.entry) layer }
        ensures room { result ≤ length self.entry.words.now / 8 }
    {
        let n = self.held();
        for k in 0..n {
            if read(self.words, k).layer == layer {
                return k;
            }
        }
        n
    }

    // What is held of a layer.
    #[tactic(auto, unfolding(crate::specs::Rows::row_of))]
    pub fn row_of(self, layer: LayerId) -> Row
        ensures { result ≡ row_of (lent self.entry) layer }
    {
        self.row_at(self.spot(layer), layer)
    }
}

// Puts row k; past the room it changes nothing.
#[tactic(auto, using(crate::proofs::Rows::put_past))]
pub fn put_row(rows: &mut [u64], k: usize, r: Row)
    ensures { rows.new ≡ put_at rows.old (8 * k) (words_of r) }
{
    if k < rows.len() / 8 {
        let words = [
            r.layer.order,
            r.layer.id,
            r.shown,
            r.last,
            r.raised,
            r.parent,
            r.area,
            r.key,
        ];
        tables::put(rows, 8 * k, &words);
    }
}
