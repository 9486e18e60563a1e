// What the focus record means in egui's own terms, its options and its map: theorems only, nothing to run.
#![tactic(auto)]

ghost use Rattle.std.specs.Prelude.{◌≡◌, false, ℕ, eqb};
ghost use Rattle.refusal.specs.Limits.{cached};
ghost use Rattle.refusal.specs.Refusal.{answer, id_refusal};
ghost use Rattle.focus_rules.specs.Rules.{id_or_nothing, layer_or_nothing};
ghost use Rattle.used.specs.Used.{ids_of, repeated};
ghost use Rattle.focus_maps.specs.Egui as Egui;
ghost use Rattle.focus.specs.declared.Focus.{Focus};
ghost use Rattle.focus_cache.specs.Cache.{room_in};
ghost use Rattle.focus_maps.specs.Calls.{Call, Calls, meaning_of, done_by, refusal_of, egui_step, record_after, egui_after};

// From every value of the record: what a call leaves means what egui's method leaves of what the record meant, or the same where document 01 refuses the call. There is nothing to run.
pub fn call_means_egui()
    ensures { (f : Focus) (call : Call) → meaning_of (done_by call f).focus ≡ egui_step (room_in f.ids f.rects) call (meaning_of f) }
{}

// And it is refused exactly where document 01 says, by its number; a call that is refused leaves the record as it was. There is nothing to run.
pub fn refuses_as_the_table_says()
    ensures { ((f : Focus) (call : Call) → (done_by call f).refusal ≡ refusal_of (room_in f.ids f.rects) call (meaning_of f))
        × ((f : Focus) (call : Call) → ((done_by call f).refusal ≡ 0 → ⊥) → (done_by call f).focus ≡ f) }
{}

// After any list of calls, refused ones among them, the record holds what egui's `Focus` does after the same calls, with 256 ids for the limit of the cache and ties of the search as document 01 has them.
// There is nothing to run.
pub fn record_means_egui()
    ensures { (calls : Calls) → meaning_of (record_after calls) ≡ egui_after cached calls }
{}

// After any list of calls no id stands twice in egui's cache: the list of its entries is a map. There is nothing to run.
pub fn cache_is_a_map()
    ensures { (calls : Calls) → repeated (ids_of (egui_after cached calls).focus_widgets_cache) ≡ false }
{}

// From every value of the record, the queries answer what egui's functions give of what the record means, 1 for an id that is none. There is nothing to run.
pub fn answers_as_egui()
    ensures { ((f : Focus) → id_or_nothing f.nav.focused ≡ Egui.focused (meaning_of f))
        × ((f : Focus) (id : ℕ) → answer (id_refusal id) (eqb f.nav.id_previous_frame id) ≡ answer (id_refusal id) (Egui.had_focus_last_frame (meaning_of f) id))
        × ((f : Focus) → layer_or_nothing f.nav.top_modal_layer ≡ (meaning_of f).top_modal_layer) }
{}
