// The calls of `Areas` (memory/mod.rs) that change only the layers, `move_to_top` and `set_sublayer`, in place on the rows of crate `layer_rows`.
#![tactic(auto)]

ghost use Rattle.std.specs.Prelude.{◌≡◌, ◌+◌, max, ◌<◌, length, IfOk};
ghost use Rattle.refusal.specs.Refusal.{number_in, kept};
ghost use Rattle.stacking.specs.Lists.{some};
ghost use Rattle.layer_rows.specs.declared.Row.{Row};
ghost use Rattle.layer_rows.specs.Rows.{lent, held_rows, rows_on, spot_in, marked};
ghost use Rattle.layer_queries.specs.Queries.{is_child_row};
ghost use Rattle.layer_table.specs.Layers.{room_in, raised_row, full_refusal, to_top, top_refusal, with_sublayer, pair_refusal, other_parent, family_refusal, sublayer_refusal};

use layer_rows::{LayerRows, Row};
use layers::LayerId;
use refusal::Refusal;

// ---- a layer's row

// How many rows there are once row k is put, of those held or the next.
fn with_row(n: usize, k: usize) -> usize
    requires { k < 18446744073709551615 }
    ensures { result ≡ max n (k + 1) }
{
    n.max(k + 1)
}

// Whether there is room for so many rows.
pub fn check_room(rows: LayerRows, n: usize) -> Result<(), Refusal>
    ensures { number_in result ≡ full_refusal (room_in rows.entry.words.now) n }
{
    refusal::check(n <= rows.room(), Refusal::Full)
}

// Changes the row of a layer, which is row k, or makes it there where it has none. How many rows
// are then held.
fn mark_at<F: FnOnce(Row) -> Row>(
    rows: &mut [u64],
    count: usize,
    k: usize,
    layer: LayerId,
    change: F,
) -> usize
    requires callable { F.IsAlwaysCallable change }
    requires place { k ≡ spot_in (held_rows count rows.old) layer }
    requires room { k < room_in rows.old }
    ensures { (f : Row → Row) → ((r s : Row) → F.post change r s → s ≡ f r) →
        (result ≡ length (marked f (held_rows count rows.old) layer)) × (rows.new ≡ rows_on rows.old (marked f (held_rows count rows.old) layer)) }
{
    let table = LayerRows { count, words: rows };
    let n = with_row(table.held(), k);
    let r = change(table.row_at(k, layer));
    layer_rows::put_row(rows, k, r);
    n
}

// The same of a layer whose place is not known yet.
fn mark<F: FnOnce(Row) -> Row>(rows: &mut [u64], count: usize, layer: LayerId, change: F) -> usize
    requires callable { F.IsAlwaysCallable change }
    requires room { spot_in (held_rows count rows.old) layer < room_in rows.old }
    ensures { (f : Row → Row) → ((r s : Row) → F.post change r s → s ≡ f r) →
        (result ≡ length (marked f (held_rows count rows.old) layer)) × (rows.new ≡ rows_on rows.old (marked f (held_rows count rows.old) layer)) }
{
    let k = LayerRows { count, words: rows }.spot(layer);
    mark_at(rows, count, k, layer, change)
}

// ---- `move_to_top`

fn raised(r: Row) -> Row
    ensures { result ≡ raised_row r }
{
    Row {
        shown: 1,
        raised: 1,
        ..r
    }
}

// Answers the place of the layer's row, so that it is looked for once.
#[tactic(auto, using(crate::proofs::Changes::top_number))]
fn check_top(rows: LayerRows, layer: LayerId) -> Result<usize, Refusal>
    ensures refusal { number_in result ≡ top_refusal (room_in rows.entry.words.now) (lent rows.entry) layer }
    ensures place { IfOk result (λ k. k ≡ spot_in (lent rows.entry) layer) }
{
    let k = rows.spot(layer);
    let n = with_row(rows.held(), k);
    refusal::both(layer.check(), check_room(rows, n))?;
    Ok(k)
}

// How many rows are then held.
pub fn move_to_top(rows: &mut [u64], count: usize, layer: LayerId) -> Result<usize, Refusal>
    ensures refusal { number_in result ≡ top_refusal (room_in rows.old) (held_rows count rows.old) layer }
    ensures count { IfOk result (λ n. n ≡ length (to_top (held_rows count rows.old) layer)) }
    ensures rows { rows.new ≡ kept (top_refusal (room_in rows.old) (held_rows count rows.old) layer) rows.old (rows_on rows.old (to_top (held_rows count rows.old) layer)) }
{
    let k = check_top(LayerRows { count, words: rows }, layer)?;
    Ok(mark_at(rows, count, k, layer, raised))
}

// ---- `set_sublayer`

// Whether some row's layer is a child of the layer. Rows are read by their place, so `any` would be handed the places as the `for` is, and be no shorter.
fn some_child(rows: LayerRows, layer: LayerId) -> bool
    ensures { result ≡ some (is_child_row layer) (lent rows.entry) }
{
    for k in 0..rows.held() {
        if layer_queries::is_child(rows.row_at(k, layer), layer) {
            return true;
        }
    }
    false
}

fn check_pair(parent: LayerId, child: LayerId) -> Result<(), Refusal>
    ensures { number_in result ≡ pair_refusal parent child }
{
    let are_pair = parent.order == child.order && parent.id != child.id;
    refusal::check(are_pair, Refusal::BadPair)
}

// Whether a row has another parent.
fn other_parent(r: Row, parent: u64) -> bool
    ensures { result ≡ other_parent r parent }
{
    r.parent != 0 && r.parent != parent
}

#[tactic(auto, unfolding(crate::specs::Layers::family_refusal))]
fn check_family(rows: LayerRows, parent: LayerId, child: LayerId) -> Result<(), Refusal>
    ensures { number_in result ≡ family_refusal (lent rows.entry) parent child }
{
    let fits = !other_parent(rows.row_of(child), parent.id)
        && !some_child(rows, child)
        && rows.row_of(parent).parent == 0;
    refusal::check(fits, Refusal::BadFamily)
}

// How many rows there are once both layers have one.
#[tactic(auto, using(crate::proofs::Counts::both_one, crate::proofs::Counts::both_two), unfolding(layers::specs::Layers::is_layer))]
fn with_both(rows: LayerRows, parent: LayerId, child: LayerId) -> usize
    ensures { result ≡ length (with_sublayer (lent rows.entry) parent child) }
{
    let n = rows.held();
    let with_parent = with_row(n, rows.spot(parent));
    if parent == child {
        with_parent
    } else {
        with_parent + (with_row(n, rows.spot(child)) - n)
    }
}

#[tactic(auto, unfolding(crate::specs::Layers::sublayer_refusal))]
fn check_sublayer(rows: LayerRows, parent: LayerId, child: LayerId) -> Result<(), Refusal>
    ensures { number_in result ≡ sublayer_refusal (room_in rows.entry.words.now) (lent rows.entry) parent child }
{
    let layers = refusal::both(parent.check(), child.check());
    let room = check_room(rows, with_both(rows, parent, child));
    let family = check_family(rows, parent, child);
    let pair = refusal::both(check_pair(parent, child), family);
    refusal::both(layers, refusal::both(room, pair))
}

// How many rows are then held.
pub fn set_sublayer(
    rows: &mut [u64],
    count: usize,
    parent: LayerId,
    child: LayerId,
) -> Result<usize, Refusal>
    ensures refusal { number_in result ≡ sublayer_refusal (room_in rows.old) (held_rows count rows.old) parent child }
    ensures count { IfOk result (λ n. n ≡ length (with_sublayer (held_rows count rows.old) parent child)) }
    ensures rows { rows.new ≡ kept (sublayer_refusal (room_in rows.old) (held_rows count rows.old) parent child) rows.old (rows_on rows.old (with_sublayer (held_rows count rows.old) parent child)) }
{
    check_sublayer(LayerRows { count, words: rows }, parent, child)?;
    let n = mark(rows, count, parent, |r| r);
    let adopted = |r| Row {
        parent: parent.id,
        ..r
    };
    Ok(mark(rows, n, child, adopted))
}
