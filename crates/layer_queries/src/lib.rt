// The queries of `Areas` (memory/mod.rs) that ask only the layers, on the rows of crate `layer_rows`.
// Orders are codes, as document 01 has all kinds: any number may come, and one past the last is refused by 2.
#![tactic(auto)]

ghost use Rattle.std.specs.Prelude.{◌≡◌, IfOk};
ghost use Rattle.std.specs.Ordering.{ordering_index};
ghost use Rattle.refusal.specs.Refusal.{lowest, code_refusal, number_in, answer};
ghost use Rattle.refusal.specs.Limits.{last_order};
ghost use Rattle.layers.specs.Layers.{layer_refusal};
ghost use Rattle.layer_rows.specs.Rows.{lent, row_of};
ghost use Rattle.layer_queries.specs.Ranks.{rank_of};
ghost use Rattle.layer_queries.specs.Queries.{is_child_row, is_window_row, is_listed, is_top_row, rank_in, compared_by, shown_last, is_visible_row, is_sublayer_row, parent_in, last_of};

use layer_rows::{LayerRows, Row};
use layers::{LayerId, NO_LAYER};
use refusal::{LAST_ORDER, Refusal};
use std::cmp::Ordering;

// Which layers a listing has. A public call is not handed the test itself, since it would have to ask its callers that the test can be called.
#[derive(Clone, Copy)]
pub enum Listing {
    All,
    Visible,
    Children(LayerId),
}

// ---- what a row says

pub fn is_visible_row(r: Row) -> bool
    ensures { result ≡ is_visible_row r }
{
    r.last != 0 || r.shown != 0
}

// Whether the row's layer is a child of a layer.
pub fn is_child(r: Row, parent: LayerId) -> bool
    ensures { result ≡ is_child_row parent r }
{
    r.parent != 0 && r.parent == parent.id && r.layer.order == parent.order
}

// Whether it is a layer of an Order, and no sublayer.
pub fn is_top(order: u64, r: Row) -> bool
    ensures { result ≡ is_top_row order r }
{
    r.layer.order == order && r.parent == 0
}

// egui's windows are the visible layers of Order Middle that are no sublayers.
pub fn is_window(r: Row) -> bool
    ensures { result ≡ is_window_row r }
{
    is_top(1, r) && is_visible_row(r)
}

pub fn is_listed(listing: Listing, r: Row) -> bool
    ensures { result ≡ is_listed listing r }
{
    match listing {
        Listing::All => true,
        Listing::Visible => is_visible_row(r),
        Listing::Children(parent) => is_child(r, parent),
    }
}

// ---- the queries

pub fn visible_last_frame(rows: LayerRows, layer: LayerId) -> Result<bool, Refusal>
    ensures { result ≡ answer (layer_refusal layer) (shown_last (row_of (lent rows.entry) layer)) }
{
    layer.check()?;
    Ok(rows.row_of(layer).last != 0)
}

pub fn is_visible(rows: LayerRows, layer: LayerId) -> Result<bool, Refusal>
    ensures { result ≡ answer (layer_refusal layer) (is_visible_row (row_of (lent rows.entry) layer)) }
{
    layer.check()?;
    Ok(is_visible_row(rows.row_of(layer)))
}

pub fn is_sublayer(rows: LayerRows, layer: LayerId) -> Result<bool, Refusal>
    ensures { result ≡ answer (layer_refusal layer) (is_sublayer_row (row_of (lent rows.entry) layer)) }
{
    layer.check()?;
    Ok(rows.row_of(layer).parent != 0)
}

// The parent of a row's layer has its Order.
fn parent_of(r: Row) -> Option<LayerId>
    ensures { result ≡ parent_in r }
{
    (r.parent != 0).then_some(LayerId {
        order: r.layer.order,
        id: r.parent,
    })
}

pub fn parent_layer(rows: LayerRows, layer: LayerId) -> Result<Option<LayerId>, Refusal>
    ensures { result ≡ answer (layer_refusal layer) (parent_in (row_of (lent rows.entry) layer)) }
{
    layer.check()?;
    Ok(parent_of(rows.row_of(layer)))
}

// The last layer of an Order that is no sublayer. `area_stack::layer_id_at` is the same search by another test: a function for both would be public, and it is not handed the test, as at `Listing`.
#[tactic(auto, using(crate::proofs::Tops::none_left))]
fn top(rows: LayerRows, order: u64) -> Option<LayerId>
    ensures { result ≡ last_of (is_top_row order) (lent rows.entry) }
{
    for k in (0..rows.held()).rev() {
        let r = rows.row_at(k, NO_LAYER);
        if is_top(order, r) {
            return Some(r.layer);
        }
    }
    None
}

pub fn top_layer_id(rows: LayerRows, order: u64) -> Result<Option<LayerId>, Refusal>
    ensures { result ≡ answer (code_refusal order last_order) (last_of (is_top_row order) (lent rows.entry)) }
{
    refusal::check_code(order, LAST_ORDER)?;
    Ok(top(rows, order))
}

// The place of a layer that has one.
#[tactic(auto, using(crate::proofs::Ranks::has_place, crate::proofs::Ranks::no_place))]
fn place(rows: LayerRows, layer: LayerId) -> Option<usize>
    ensures { rank_of result ≡ rank_in (lent rows.entry) layer }
{
    let k = rows.spot(layer);
    (k < rows.held()).then_some(k)
}

// `compare_order` of any two layers: it refuses none.
pub fn by_place(rows: LayerRows, a: LayerId, b: LayerId) -> Ordering
    ensures { ordering_index result ≡ compared_by (lent rows.entry) a b }
{
    let by_place = || place(rows, a).cmp(&place(rows, b));
    a.order.cmp(&b.order).then_with(by_place)
}

// The rows that have a place are the first so many.
pub fn compare_order(rows: LayerRows, a: LayerId, b: LayerId) -> Result<Ordering, Refusal>
    ensures refusal { number_in result ≡ lowest (layer_refusal a) (layer_refusal b) }
    ensures order { IfOk result (λ o. ordering_index o ≡ compared_by (lent rows.entry) a b) }
{
    refusal::both(a.check(), b.check())?;
    Ok(by_place(rows, a, b))
}
