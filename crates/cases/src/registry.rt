// The registry at its limit of 256 widgets, by value: what each insert answers, and how many a layer then lists.
use crate::outcome::{last, say_list};
use emath::Rect;
use layers::LayerId;
use refusal::{Refusal, WIDGETS};
use std::io;
use widget_rect::WidgetRect;
use widget_rects::WidgetRects;

const LAYER: LayerId = LayerId { order: 1, id: 7 };

fn widget(id: u64) -> WidgetRect {
    let rect = Rect::from([0.0; 4]);
    WidgetRect {
        id,
        parent_id: 9,
        layer_id: LAYER,
        rect,
        interact_rect: rect,
        sense: 4,
        enabled: true,
        visible: true,
    }
}

// `move_to_top` is a parameter of egui's own `insert`. A record of 43 KB is copied wherever it is
// handed on, so what the insert answers is put where the record came from.
fn insert(widgets: &mut WidgetRects, id: u64, move_to_top: bool) -> Result<(), Refusal> {
    *widgets = widgets.insert(LAYER, widget(id), move_to_top)?;
    Ok(())
}

// Inserts the ids from 1 to 256.
fn fill(widgets: &mut WidgetRects) -> Result<(), Refusal> {
    for id in 1..=WIDGETS as u64 {
        insert(widgets, id, false)?;
    }
    Ok(())
}

// What an insert answered, and how many widgets the layer then lists.
fn tell(
    rt: &impl Print,
    text: &str,
    widgets: &WidgetRects,
    inserted: Result<(), Refusal>,
) -> io::Result<()> {
    let Ok(list) = widgets.focusable_widgets_in_layer(LAYER) else {
        return Ok(());
    };
    let last = last(&list.ids, list.count).unwrap_or(0);
    say_list(rt, text, inserted, list.count, "listed", last)
}

// The same of an insert into a copy.
fn tell_one(
    rt: &impl Print,
    text: &str,
    before: &WidgetRects,
    id: u64,
    move_to_top: bool,
) -> io::Result<()> {
    let mut widgets = *before;
    let inserted = insert(&mut widgets, id, move_to_top);
    tell(rt, text, &widgets, inserted)
}

pub fn registry(rt: &impl Print) -> io::Result<()> {
    let mut widgets = WidgetRects::new();
    let filled = fill(&mut widgets);
    tell(rt, "the 256th widget", &widgets, filled)?;
    tell_one(rt, "a 257th", &widgets, 257, false)?;
    tell_one(rt, "the first once more", &widgets, 1, false)?;
    tell_one(rt, "the first to the top", &widgets, 1, true)?;
    widgets = widgets.clear();
    tell_one(rt, "after clear, a new one", &widgets, 257, false)?;
    let filled = fill(&mut widgets);
    tell(rt, "and 256 of them", &widgets, filled)
}
