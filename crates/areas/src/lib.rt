// `Areas` of memory/mod.rs as a record by value, over the functions on lent tables (crate `area_stack` and those below it).
// Orders are codes, as document 01 has all kinds: any number may come, and one past the last is refused by 2.
#![tactic(auto)]

ghost use Rattle.std.specs.Prelude.{◌≡◌, IfOk};
ghost use Rattle.std.specs.Ordering.{ordering_index};
ghost use Rattle.refusal.specs.Refusal.{lowest, number_in, id_refusal, code_refusal, answer};
ghost use Rattle.refusal.specs.Limits.{last_order};
ghost use Rattle.layers.specs.Layers.{layer_refusal};
ghost use Rattle.area_table.specs.Table.{lent as areas_lent, held_in, held_of};
ghost use Rattle.layer_rows.specs.Rows.{held_rows, row_of};
ghost use Rattle.layer_queries.specs.Queries.{is_top_row, shown_last, is_visible_row, is_sublayer_row, compared_by, parent_in, last_of};
ghost use Rattle.layer_queries.specs.declared.Listing.TheVariants.{All, Visible};
ghost use Rattle.area_stack.specs.Stack.{is_interactable, layer_id_at};
ghost use Rattle.areas.specs.Areas.{areas_in, new_areas, tables_of, stack_of, state_set, to_top_of, sublayer_set, pass_ended, layers_of, listed, children_answer, windows_of, windows_listed};

use area::AreaState;
use area_stack::Counts;
use area_table::AreaTable;
use emath::Pos2;
use layer_queries::Listing;
use layer_rows::LayerRows;
use layers::{LayerId, NO_LAYER};
use refusal::{LAYERS, Refusal};
use std::cmp::Ordering;

// How many layers are held, how many of them had a place at the last end of a pass, and how many areas have a state; the rows of the layers, and of the states. There is no heap: arrays with a count, which the functions in place are lent.
#[derive(Clone, Copy)]
pub struct Areas {
    pub count: usize,
    pub placed: usize,
    pub states: usize,
    pub rows: [u64; 8 * LAYERS],
    pub ids: [u64; LAYERS],
    pub codes: [u64; 5 * LAYERS],
    pub floats: [f32; 4 * LAYERS],
}

// Layers in stack order, and how many they are; the places after them are blank. There is no heap: an array with a count.
#[derive(Clone, Copy)]
pub struct Layers {
    pub count: usize,
    pub layers: [LayerId; LAYERS],
}

// A window of egui: its layer and the state of its area.
#[derive(Clone, Copy)]
pub struct Window {
    pub layer: LayerId,
    pub state: AreaState,
}

// There is no heap: an array with a count.
#[derive(Clone, Copy)]
pub struct Windows {
    pub count: usize,
    pub windows: [Window; LAYERS],
}

impl Areas {
    #[tactic(auto, unfolding(crate::specs::Areas::new_areas))]
    pub fn new() -> Areas
        ensures { result ≡ new_areas }
    {
        Areas {
            count: 0,
            placed: 0,
            states: 0,
            rows: [0; 8 * LAYERS],
            ids: [0; LAYERS],
            codes: [0; 5 * LAYERS],
            floats: [0.0; 4 * LAYERS],
        }
    }

    #[tactic(auto, unfolding(crate::specs::Areas::state_set))]
    pub fn set_state(mut self, layer: LayerId, state: AreaState) -> Result<Areas, Refusal>
        ensures refusal { number_in result ≡ (state_set self layer state).refusal }
        ensures areas { IfOk result (λ a. a ≡ (state_set self layer state).areas) }
    {
        let Counts { count, states } = area_stack::set_state(
            &mut self.rows,
            &mut self.ids,
            &mut self.codes,
            &mut self.floats,
            self.count,
            self.states,
            layer,
            state,
        )?;
        Ok(Areas {
            count,
            states,
            ..self
        })
    }

    #[tactic(auto, unfolding(crate::specs::Areas::to_top_of))]
    pub fn move_to_top(mut self, layer: LayerId) -> Result<Areas, Refusal>
        ensures refusal { number_in result ≡ (to_top_of self layer).refusal }
        ensures areas { IfOk result (λ a. a ≡ (to_top_of self layer).areas) }
    {
        // Read before the rows are lent, here and below: taken in the call itself, the proof of the loan did not close.
        let count = self.count;
        let count = layer_table::move_to_top(&mut self.rows, count, layer)?;
        Ok(Areas { count, ..self })
    }

    #[tactic(auto, unfolding(crate::specs::Areas::sublayer_set))]
    pub fn set_sublayer(mut self, parent: LayerId, child: LayerId) -> Result<Areas, Refusal>
        ensures refusal { number_in result ≡ (sublayer_set self parent child).refusal }
        ensures areas { IfOk result (λ a. a ≡ (sublayer_set self parent child).areas) }
    {
        let count = self.count;
        let count = layer_table::set_sublayer(&mut self.rows, count, parent, child)?;
        Ok(Areas { count, ..self })
    }

    #[tactic(auto, using(crate::proofs::Stacks::ended_is))]
    pub fn end_pass(mut self) -> Areas
        ensures { result ≡ pass_ended self }
    {
        let count = self.count;
        let n = layer_sort::end_pass(&mut self.rows, count);
        Areas {
            count: n,
            placed: n,
            ..self
        }
    }

    // Forgets everything, as `Memory::reset_areas` makes each viewport's `Areas` anew.
    pub fn reset(self) -> Areas
        ensures { result ≡ new_areas }
    {
        Areas::new()
    }

    // ---- the queries

    fn stack(&self) -> LayerRows<'_>
        ensures { (result.count ≡ self.now.count) × (result.words.now ≡ self.now.rows) }
    {
        LayerRows {
            count: self.count,
            words: &self.rows,
        }
    }

    fn table(&self) -> AreaTable<'_>
        ensures { (result.count ≡ self.now.states) × (areas_lent result ≡ areas_in self.now) }
    {
        AreaTable {
            count: self.states,
            ids: &self.ids,
            codes: &self.codes,
            floats: &self.floats,
        }
    }

    // egui's `count`: how many areas have a state. (The field `count` is the number of layers.)
    pub fn count(&self) -> usize
        ensures { result ≡ held_in self.now.states (areas_in self.now) }
    {
        self.table().held()
    }

    pub fn get(&self, id: u64) -> Result<Option<AreaState>, Refusal>
        ensures { result ≡ answer (id_refusal id) (held_of (areas_in self.now) self.now.states 0 id) }
    {
        area_stack::get(self.table(), id)
    }

    pub fn is_interactable(&self, layer: LayerId) -> Result<bool, Refusal>
        ensures { result ≡ answer (layer_refusal layer) (is_interactable (held_of (areas_in self.now) self.now.states 0 layer.id)) }
    {
        area_stack::is_interactable(self.table(), layer)
    }

    pub fn compare_order(&self, a: LayerId, b: LayerId) -> Result<Ordering, Refusal>
        ensures refusal { number_in result ≡ lowest (layer_refusal a) (layer_refusal b) }
        ensures order { IfOk result (λ o. ordering_index o ≡ compared_by (held_rows self.now.placed self.now.rows) a b) }
    {
        let with_a_place = LayerRows {
            count: self.placed,
            words: &self.rows,
        };
        layer_queries::compare_order(with_a_place, a, b)
    }

    // `to_global` is empty.
    pub fn layer_id_at(&self, pos: Pos2) -> Option<LayerId>
        ensures { result ≡ layer_id_at (tables_of self.now) pos }
    {
        area_stack::layer_id_at(self.stack(), self.table(), pos)
    }

    pub fn visible_last_frame(&self, layer: LayerId) -> Result<bool, Refusal>
        ensures { result ≡ answer (layer_refusal layer) (shown_last (row_of (stack_of self.now) layer)) }
    {
        layer_queries::visible_last_frame(self.stack(), layer)
    }

    pub fn is_visible(&self, layer: LayerId) -> Result<bool, Refusal>
        ensures { result ≡ answer (layer_refusal layer) (is_visible_row (row_of (stack_of self.now) layer)) }
    {
        layer_queries::is_visible(self.stack(), layer)
    }

    pub fn is_sublayer(&self, layer: LayerId) -> Result<bool, Refusal>
        ensures { result ≡ answer (layer_refusal layer) (is_sublayer_row (row_of (stack_of self.now) layer)) }
    {
        layer_queries::is_sublayer(self.stack(), layer)
    }

    pub fn parent_layer(&self, layer: LayerId) -> Result<Option<LayerId>, Refusal>
        ensures { result ≡ answer (layer_refusal layer) (parent_in (row_of (stack_of self.now) layer)) }
    {
        layer_queries::parent_layer(self.stack(), layer)
    }

    pub fn top_layer_id(&self, order: u64) -> Result<Option<LayerId>, Refusal>
        ensures { result ≡ answer (code_refusal order last_order) (last_of (is_top_row order) (stack_of self.now)) }
    {
        layer_queries::top_layer_id(self.stack(), order)
    }

    // ---- listings, in stack order: each looks for the next from a place, and counts what it lists, as its answer says how many that are; a `for` would have the count beside it too. One loop for
    // all listings would be handed the next one as a closure, and ask of it that it comes to an end: it would be no shorter than these.

    #[tactic(auto, using(crate::proofs::Listings::inside))]
    fn list(&self, listing: Listing) -> Layers
        ensures { result ≡ listed (layers_of self.now listing) }
    {
        let stack = self.stack();
        let mut layers = [NO_LAYER; LAYERS];
        let mut count = 0;
        let mut from = 0;
        while let Some((next, layer)) = area_stack::next_layer(stack, from, listing) {
            layers[count] = layer;
            count += 1;
            from = next;
        }
        Layers { count, layers }
    }

    pub fn order(&self) -> Layers
        ensures { result ≡ listed (layers_of self.now All) }
    {
        self.list(Listing::All)
    }

    pub fn visible_layer_ids(&self) -> Layers
        ensures { result ≡ listed (layers_of self.now Visible) }
    {
        self.list(Listing::Visible)
    }

    #[tactic(auto, unfolding(crate::specs::Areas::children_answer))]
    pub fn child_layers(&self, layer: LayerId) -> Result<Layers, Refusal>
        ensures { result ≡ children_answer self.now layer }
    {
        layer.check()?;
        Ok(self.list(Listing::Children(layer)))
    }

    #[tactic(auto, using(crate::proofs::WindowRows::inside))]
    pub fn visible_windows(&self) -> Windows
        ensures { result ≡ windows_listed (windows_of self.now) }
    {
        let (stack, areas) = (self.stack(), self.table());
        let blank = Window {
            layer: NO_LAYER,
            state: AreaState::new(),
        };
        let mut windows = [blank; LAYERS];
        let mut count = 0;
        let mut from = 0;
        while let Some((next, layer, state)) = area_stack::next_window(stack, areas, from) {
            windows[count] = Window { layer, state };
            count += 1;
            from = next;
        }
        Windows { count, windows }
    }
}
