// WidgetRects of widget_rect.rs as a record by value, over the tables in place of crates `widget_rows` and `widget_table` and the queries of crate `widget_queries`.
#![tactic(auto)]

ghost use Rattle.std.specs.Prelude.{◌≡◌, IfOk};
ghost use Rattle.refusal.specs.Refusal.{number_in};
ghost use Rattle.widget_rows.specs.Rows.{lent, list_of};
ghost use Rattle.widget_queries.specs.Queries.{order_answer, widget_answer, contains_answer};
ghost use Rattle.widget_rects.specs.WidgetRects.{table_of, new_rects, inserted_of, cleared_rects, blank_widget, listing, list_answer, ids_answer};

use emath::Rect;
use layers::{LayerId, NO_LAYER};
use refusal::{Refusal, WIDGETS};
use widget_rect::WidgetRect;
use widget_rows::WidgetTable;

// How many widgets are held, and the tables of crate `widget_rows`. There is no heap: arrays with a count, which the functions in place are lent.
#[derive(Clone, Copy)]
pub struct WidgetRects {
    pub count: usize,
    pub cells: [u64; 2 * WIDGETS],
    pub ids: [u64; WIDGETS],
    pub words: [u64; 10 * WIDGETS],
    pub rects: [f32; 16 * WIDGETS],
}

// The widgets of a list, in its order, and how many they are; the places after them are blank. There is no heap: an array with a count.
#[derive(Clone, Copy)]
pub struct Listing {
    pub count: usize,
    pub widgets: [WidgetRect; WIDGETS],
}

// There is no heap: an array with a count.
#[derive(Clone, Copy)]
pub struct Ids {
    pub count: usize,
    pub ids: [u64; WIDGETS],
}

fn blank() -> WidgetRect
    ensures { result ≡ blank_widget }
{
    let rect = Rect::from([0.0; 4]);
    WidgetRect {
        id: 0,
        parent_id: 0,
        layer_id: NO_LAYER,
        rect,
        interact_rect: rect,
        sense: 0,
        enabled: false,
        visible: false,
    }
}

impl WidgetRects {
    #[tactic(auto, unfolding(crate::specs::WidgetRects::new_rects, widget_table::specs::Table::new_table))]
    pub fn new() -> WidgetRects
        ensures { result ≡ new_rects }
    {
        WidgetRects {
            count: 0,
            cells: [0; 2 * WIDGETS],
            ids: [0; WIDGETS],
            words: [0; 10 * WIDGETS],
            rects: [0.0; 16 * WIDGETS],
        }
    }

    #[tactic(auto, unfolding(crate::specs::WidgetRects::inserted_of))]
    pub fn insert(
        mut self,
        layer: LayerId,
        new: WidgetRect,
        move_to_top: bool,
    ) -> Result<WidgetRects, Refusal>
        ensures refusal { number_in result ≡ (inserted_of self layer new move_to_top).refusal }
        ensures widgets { IfOk result (λ w. w ≡ (inserted_of self layer new move_to_top).widgets) }
    {
        self.count = widget_table::insert(
            &mut self.cells,
            &mut self.ids,
            &mut self.words,
            &mut self.rects,
            self.count,
            layer,
            new,
            move_to_top,
        )?;
        Ok(self)
    }

    #[tactic(auto, unfolding(crate::specs::WidgetRects::cleared_rects, widget_table::specs::Table::clear_of))]
    pub fn clear(mut self) -> WidgetRects
        ensures { result ≡ cleared_rects self }
    {
        self.count = widget_table::clear(&mut self.cells);
        self
    }

    fn table(&self) -> WidgetTable<'_>
        ensures { lent result ≡ table_of self.now }
    {
        WidgetTable {
            count: self.count,
            cells: &self.cells,
            ids: &self.ids,
            words: &self.words,
            rects: &self.rects,
        }
    }

    pub fn order(&self, id: u64) -> Result<Option<(LayerId, u64)>, Refusal>
        ensures { result ≡ order_answer (table_of self.now) id }
    {
        widget_queries::order(self.table(), id)
    }

    pub fn get(&self, id: u64) -> Result<Option<WidgetRect>, Refusal>
        ensures { result ≡ widget_answer (table_of self.now) id }
    {
        widget_queries::widget(self.table(), id)
    }

    pub fn contains(&self, id: u64) -> Result<bool, Refusal>
        ensures { result ≡ contains_answer (table_of self.now) id }
    {
        widget_queries::contains(self.table(), id)
    }

    // The widgets of a layer that is not refused. Each is looked for from a place, and counted, as the answer says how many they are: a `for` would have the count beside it too; one loop for
    // these and the listings of `areas` would be handed the next as a closure, and be no shorter.
    fn list(&self, layer: LayerId) -> Listing
        ensures { result ≡ listing (list_of (table_of self.now) layer) }
    {
        let mut widgets = [blank(); WIDGETS];
        let mut count: usize = 0;
        let mut from: usize = 0;
        let table = self.table();
        while let Some((next, w)) = table.next_in_layer(from, layer) {
            widgets[count] = w;
            count += 1;
            from = next;
        }
        Listing { count, widgets }
    }

    #[tactic(auto, unfolding(crate::specs::WidgetRects::list_answer))]
    pub fn get_layer(&self, layer: LayerId) -> Result<Listing, Refusal>
        ensures { result ≡ list_answer (table_of self.now) layer }
    {
        layer.check()?;
        Ok(self.list(layer))
    }

    #[tactic(auto, unfolding(crate::specs::WidgetRects::ids_answer, widget_rows::specs::Rows::list_of))]
    pub fn focusable_widgets_in_layer(&self, layer: LayerId) -> Result<Ids, Refusal>
        ensures { result ≡ ids_answer (table_of self.now) layer }
    {
        layer.check()?;
        let mut ids = [0; WIDGETS];
        let count = widget_queries::focusable_widgets(self.table(), layer, &mut ids);
        Ok(Ids { count, ids })
    }
}
