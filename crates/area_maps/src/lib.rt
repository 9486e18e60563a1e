//! What the record of crate `areas` means: the maps, sets and lists of egui's Areas. Theorems
//! only, nothing to run. In them a record is any value of its type: its tables are of any length.
#![tactic(auto)]

ghost use Rattle.std.specs.Prelude.{◌≡◌, ℕ};
ghost use Rattle.refusal.specs.Limits.{layers};
ghost use Rattle.layer_queries.specs.declared.Listing.TheVariants.{All};
ghost use Rattle.areas.specs.declared.Areas.{Areas};
ghost use Rattle.areas.specs.Areas.{new_areas, layers_of};
ghost use Rattle.area_maps.specs.Egui as Egui;
ghost use Rattle.stacking.specs.Stacking.{Distinct, Orders, Pairs};
ghost use Rattle.area_maps.specs.Meaning.{meaning_of};
ghost use Rattle.area_maps.specs.Calls.{Calls, record_from, egui_from, record_after, egui_after};
ghost use Rattle.area_maps.specs.Fits.{HasRoom, Fits, Blank, Empties};
ghost use Rattle.area_maps.specs.Answers.{LayerAnswers, AreaAnswers, Refusals, Agrees};

/// From any record that fits its tables, with any limit: after any list of calls, refused ones
/// among them, it agrees with what egui's Areas are after the same calls from what it meant. It
/// fits again, so more calls may follow. A reset may be any that leaves nothing held.
pub fn any_record_agrees()
    ensures { (limit : ℕ) (reset : Areas → Areas) (start : Areas) →
        Empties limit reset → Fits limit start → (calls : Calls) →
        Agrees limit (record_from reset start calls) (egui_from limit (meaning_of start) calls) }
{}

/// A record that holds nothing fits, whatever stands in its tables, and means egui's empty Areas.
pub fn blank_record_fits()
    ensures { (limit : ℕ) (a : Areas) → HasRoom limit a → Blank a →
        Fits limit a × (meaning_of a ≡ Egui.empty) }
{}

/// A new record fits and holds nothing. To make one is a way to reset; and with any limit it is one
/// to put the counts to 0 and leave the tables.
pub fn premises_can_be_met()
    ensures { Fits layers new_areas × Blank new_areas × Empties layers (λ a. new_areas)
        × ((limit : ℕ) → Empties limit (λ a. record a { count = 0; placed = 0; states = 0 })) }
{}

/// So from a new record, where a reset makes a new one: after any list of calls, refused ones among
/// them, the record holds what egui does after the same calls, all of its maps, sets and lists.
pub fn record_means_egui()
    ensures { (calls : Calls) → meaning_of (record_after calls) ≡ egui_after layers calls }
{}

/// And that stack is one to which the laws of crate `stacking` apply.
pub fn stack_obeys_the_laws()
    ensures { (calls : Calls) →
        (Distinct (egui_after layers calls).order
        × Orders (egui_after layers calls).order
        × Pairs (egui_after layers calls).order (egui_after layers calls).sublayers)
        × (layers_of (record_after calls) All ≡ (egui_after layers calls).order) }
{}

/// So, after any list of calls, the record answers every query about layers, for every argument, as
/// egui does from its sets and lists.
pub fn layers_answer_as_egui()
    ensures { (calls : Calls) → LayerAnswers (record_after calls) (egui_after layers calls) }
{}

/// The same of every query about areas: how many have a state, the state of an id, whether a layer
/// is interactable, the layer that a point hits, the windows.
pub fn areas_answer_as_egui()
    ensures { (calls : Calls) → AreaAnswers (record_after calls) (egui_after layers calls) }
{}

/// And the record refuses the next call exactly where specs/Egui.antt says so, by its number.
pub fn refuses_as_the_table_says()
    ensures { (calls : Calls) → Refusals layers (record_after calls) (egui_after layers calls) }
{}
