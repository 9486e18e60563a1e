//! What the record `Memory` means in egui's own terms: theorems only, nothing to run. In them a
//! record is any value of its type: its tables are of any length.
#![tactic(auto)]

ghost use Rattle.std.specs.Prelude.{◌≡◌, ℕ, []};
ghost use Rattle.refusal.specs.Limits.{layers, cached};
ghost use Rattle.area_maps.specs.Egui as EguiAreas;
ghost use Rattle.memory_rules.specs.declared.Memory.{Memory};
ghost use Rattle.memory_rules.specs.State.{new_memory};
ghost use Rattle.memory_rules.specs.Calls.{Call, done_by};
ghost use Rattle.memory_maps.specs.Egui as Egui;
ghost use Rattle.memory_maps.specs.Calls.{Calls, meaning_of, refusal_of, record_from, egui_from};
ghost use Rattle.memory_maps.specs.Calls.{record_after, egui_after};
ghost use Rattle.memory_maps.specs.Fits.{HasRoom, Fits, Blank};
ghost use Rattle.memory_maps.specs.Answers.{FocusAnswers, LayerAnswers, AreasAnswers, PopupAnswers};
ghost use Rattle.memory_maps.specs.Answers.{Agrees, AreMaps};

/// From any record that fits its tables, with any limits: after any list of calls, refused ones
/// among them, it agrees with what egui's Memory is after the same calls from what it meant. It
/// fits again, so more calls may follow.
pub fn any_record_agrees()
    ensures { (layer_limit cache_limit : ℕ) (start : Memory) →
        Fits layer_limit cache_limit start → (calls : Calls) →
        Agrees layer_limit cache_limit (record_from start calls)
        (egui_from layer_limit cache_limit (meaning_of start) calls) }
{}

/// And egui's lists of entries are maps: no id has two states, and none is cached twice.
pub fn tables_are_maps()
    ensures { (layer_limit cache_limit : ℕ) (start : Memory) →
        Fits layer_limit cache_limit start → (calls : Calls) →
        AreMaps (egui_from layer_limit cache_limit (meaning_of start) calls) }
{}

/// A record that holds nothing fits, whatever stands in its tables; its areas mean egui's empty
/// Areas, and its cache no entry.
pub fn blank_record_fits()
    ensures { (layer_limit cache_limit : ℕ) (m : Memory) →
        HasRoom layer_limit cache_limit m → Blank m →
        Fits layer_limit cache_limit m
        × ((meaning_of m).areas ≡ EguiAreas.empty)
        × ((meaning_of m).focus.focus_widgets_cache ≡ []) }
{}

/// A new record fits and holds nothing, and means egui's new Memory.
pub fn premises_can_be_met()
    ensures { Fits layers cached new_memory × Blank new_memory
        × (meaning_of new_memory ≡ Egui.empty) }
{}

/// So from a new record: after any list of calls, refused ones among them, it holds what egui's
/// Memory does after the same calls: its areas, its focus, its popup and its flags.
pub fn record_means_egui()
    ensures { (calls : Calls) → meaning_of (record_after calls) ≡ egui_after layers cached calls }
{}

/// And the next call, whatever it is, is refused exactly where `refusal_of` says, by its number.
pub fn refuses_as_the_table_says()
    ensures { (calls : Calls) (call : Call) →
        (done_by call (record_after calls)).refusal
        ≡ refusal_of layers cached call (egui_after layers cached calls) }
{}

/// And every query is answered as egui's Memory does, for every argument: those about the focus,
/// about layers, those of its areas, and about the popup, with the two flags.
pub fn answers_as_egui()
    ensures { (calls : Calls) →
        FocusAnswers (record_after calls) (egui_after layers cached calls)
        × LayerAnswers (record_after calls) (egui_after layers cached calls)
        × AreasAnswers (record_after calls) (egui_after layers cached calls)
        × PopupAnswers (record_after calls) (egui_after layers cached calls) }
{}
