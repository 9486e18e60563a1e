// What the registry of crates `widget_rows`, `widget_table`, `widget_queries` and `widget_rects` means: the maps and lists of egui's WidgetRects. There is nothing to run.
#![tactic(auto)]

ghost use Rattle.std.specs.Prelude.{◌≡◌, Bool, ℕ, ◌<◌};
ghost use Rattle.refusal.specs.Limits.{widgets};
ghost use Rattle.layers.specs.declared.LayerId.{LayerId};
ghost use Rattle.widget_rect.specs.declared.WidgetRect.{WidgetRect};
ghost use Rattle.widget_rows.specs.Rows.{Table, room_of, entry_of, list_of};
ghost use Rattle.widget_table.specs.Table.{refusal_of};
ghost use Rattle.widget_queries.specs.Queries.{order_of, widget_of, contains_of, order_answer, widget_answer, contains_answer};
ghost use Rattle.widget_rects.specs.WidgetRects.{table_of, inserted_of, layer_of, focusable_of, list_answer, ids_answer};
ghost use Rattle.widget_maps.specs.Egui.{refusal};
ghost use Rattle.widget_maps.specs.Calls.{Calls, table, egui};
ghost use Rattle.widget_maps.specs.Record.{record_after};

// After any list of calls, refused ones among them, the table says of every id and of every layer what egui's maps and lists do after the same calls,
// and refuses what document 01 does over these, the limit being the table's room. It starts with no row held, and with any numbers in its slices, of any length.
pub fn table_holds_the_maps()
    ensures { (start : Table) → start.count ≡ 0 → room_of start.rows < 18446744073709551615 → (calls : Calls) →
        ((id : ℕ) → entry_of (table start calls) id ≡ (egui (room_of start.rows) calls).by_id id)
        × ((layer : LayerId) → list_of (table start calls) layer ≡ (egui (room_of start.rows) calls).by_layer layer)
        × ((layer : LayerId) (widget : WidgetRect) → refusal_of (table start calls) layer widget ≡ refusal (room_of start.rows) (egui (room_of start.rows) calls) layer widget) }
{}

// After any list of calls, refused ones among them, the record by value answers every query, for every argument, as egui does from its maps and lists, and refuses
// the next insert exactly where document 01 says so.
pub fn record_answers_as_egui()
    ensures { (calls : Calls) →
        ((id : ℕ) → order_answer (table_of (record_after calls)) id ≡ order_of id ((egui widgets calls).by_id id))
        × ((id : ℕ) → widget_answer (table_of (record_after calls)) id ≡ widget_of id ((egui widgets calls).by_id id))
        × ((id : ℕ) → contains_answer (table_of (record_after calls)) id ≡ contains_of id ((egui widgets calls).by_id id))
        × ((layer : LayerId) → list_answer (table_of (record_after calls)) layer ≡ layer_of layer ((egui widgets calls).by_layer layer))
        × ((layer : LayerId) → ids_answer (table_of (record_after calls)) layer ≡ focusable_of layer ((egui widgets calls).by_layer layer))
        × ((layer : LayerId) (widget : WidgetRect) (move-to-top : Bool) → (inserted_of (record_after calls) layer widget move-to-top).refusal ≡ refusal widgets (egui widgets calls) layer widget) }
{}
