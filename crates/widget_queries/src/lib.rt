// The queries over lent tables: of an id, with the refusal of id 0, and the focusable widgets of a layer.
#![tactic(auto)]

ghost use Rattle.std.specs.Prelude.{◌≡◌, cond, ◌+◌, ◌<◌, length, set};
ghost use Rattle.tables.specs.Tables.{written_on};
ghost use Rattle.widget_rect.specs.WidgetRect.{is_focusable};
ghost use Rattle.widget_rows.specs.Rows.{lent, list_of};
ghost use Rattle.widget_queries.specs.Queries.{order_answer, widget_answer, contains_answer, focusable_ids};

use layers::LayerId;
use refusal::Refusal;
use widget_rect::WidgetRect;
use widget_rows::WidgetTable;

// In which layer, and at which place of its list.
#[tactic(auto, unfolding(crate::specs::Queries::order_answer))]
pub fn order(table: WidgetTable, id: u64) -> Result<Option<(LayerId, u64)>, Refusal>
    ensures { result ≡ order_answer (lent table.entry) id }
{
    refusal::check_id(id)?;
    Ok(table.get(id).map(|(index, w)| (w.layer_id, index)))
}

// egui's `get`.
#[tactic(auto, unfolding(crate::specs::Queries::widget_answer))]
pub fn widget(table: WidgetTable, id: u64) -> Result<Option<WidgetRect>, Refusal>
    ensures { result ≡ widget_answer (lent table.entry) id }
{
    refusal::check_id(id)?;
    Ok(table.get(id).map(|(_, w)| w))
}

#[tactic(auto, unfolding(crate::specs::Queries::contains_answer))]
pub fn contains(table: WidgetTable, id: u64) -> Result<bool, Refusal>
    ensures { result ≡ contains_answer (lent table.entry) id }
{
    refusal::check_id(id)?;
    Ok(table.get(id).is_some())
}

// Puts the widget's id at place n, if it is focusable; the place after it.
fn put_focusable(out: &mut [u64], n: usize, w: WidgetRect) -> usize
    requires { n < 18446744073709551615 }
    ensures { (result ≡ cond (is_focusable w) (n + 1) n) × (out.new ≡ cond (is_focusable w) (set out.old n w.id) out.old) }
{
    if w.is_focusable() {
        tables::put_one(out, n, w.id);
        n + 1
    } else {
        n
    }
}

// The ids of the focusable widgets of a layer, in the order of its list, on the first places of `out`, as far as they fit; how many they are. It refuses no
// layer: the caller asks for that. A layer's widgets are found one after the other; those that are listed are fewer, so they are counted apart.
pub fn focusable_widgets(table: WidgetTable, layer: LayerId, out: &mut [u64]) -> usize
    ensures { (result ≡ length (focusable_ids (list_of (lent table.entry) layer))) × (out.new ≡ written_on out.old (focusable_ids (list_of (lent table.entry) layer))) }
{
    let mut n: usize = 0;
    let mut from: usize = 0;
    while let Some((next, w)) = table.next_in_layer(from, layer) {
        n = put_focusable(out, n, w);
        from = next;
    }
    n
}
