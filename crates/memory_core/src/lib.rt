// `Memory` of memory/mod.rs in place: begin, interest, end and the modal layer. Its fields go by value; the rows of the layers and the cache are lent tables of any length. A contract leaves
// open what the tables are that its function does not get.
#![tactic(auto)]

ghost use Rattle.std.specs.Prelude.{◌≡◌, not, ◌||◌, List, ℕ, eqb};
ghost use Rattle.area_table.specs.Table.{Table};
ghost use Rattle.layer_rows.specs.Rows.{lent};
ghost use Rattle.layer_queries.specs.Queries.{compared_by};
ghost use Rattle.focus_cache.specs.Cache.{Cache, cache_in};
ghost use Rattle.focus_pass.specs.Events.{events_in};
ghost use Rattle.used.specs.Used.{lent as used_lent};
ghost use Rattle.memory_rules.specs.State.{memory_of, done_of};
ghost use Rattle.memory_rules.specs.Memory.{begun_of, ended_of, interested_of, ignored_of, above_answer, order_allows, is_allowed, allows_answer, modal_set};

use focus_rules::Nav;
use layer_rows::LayerRows;
use layers::LayerId;
use memory_rules::Fields;
use refusal::{Refusal, USED};
use used::UsedEntries;

// ---- a pass

#[tactic(auto, unfolding(memory_rules::specs::Memory::begun_of))]
pub fn begin_pass(
    fields: Fields,
    ids: &[u64],
    rects: &[f32],
    events: &[u64],
) -> Result<Fields, Refusal>
    ensures { (rows : List ℕ) (map : Table) → done_of fields result rows map (cache_in ids.now rects.now) ≡ begun_of (memory_of fields rows map (cache_in ids.now rects.now)) (events_in events.now) }
{
    let nav = focus_pass::begin_pass(fields.nav, ids, rects, fields.cached, events)?;
    Ok(Fields {
        nav,
        slot: 0,
        requested_interrupt_ime: false,
        ..fields
    })
}

#[tactic(auto, using(crate::proofs::Passes::end_taken), unfolding(memory_rules::specs::Memory::ended_of))]
pub fn end_pass(
    fields: Fields,
    rows: &mut [u64],
    ids: &mut [u64],
    rects: &mut [f32],
    used: UsedEntries,
) -> Result<Fields, Refusal>
    ensures { (map : Table) → done_of fields result rows.new map (cache_in ids.new rects.new) ≡ ended_of (memory_of fields rows.old map (cache_in ids.old rects.old)) (used_lent used.entry) }
{
    let ended = focus_end::end_pass(fields.nav, ids, rects, fields.cached, used, USED)?;
    let layers = layer_sort::end_pass(rows, fields.layers);
    Ok(Fields {
        nav: ended.nav,
        cached: ended.count,
        layers,
        placed: layers,
        popup: memory_popups::ended(fields.popup),
        ..fields
    })
}

// ---- modal layers

// The rows of the layers that have a place.
pub fn placed(fields: Fields, rows: &[u64]) -> LayerRows<'_>
    ensures { (result.count ≡ fields.placed) × (result.words.now ≡ rows.now) }
{
    LayerRows {
        count: fields.placed,
        words: rows,
    }
}

// A layer of id 0 is no modal layer. It refuses no layer.
pub fn is_above(rows: LayerRows, modal: LayerId, layer: LayerId) -> bool
    ensures { result ≡ (eqb modal.id 0 || not (eqb (compared_by (lent rows.entry) layer modal) 0)) }
{
    modal.id == 0 || layer_queries::by_place(rows, layer, modal).is_ge()
}

#[tactic(auto, unfolding(memory_rules::specs::Memory::is_above))]
pub fn is_above_modal_layer(fields: Fields, rows: &[u64], layer: LayerId) -> Result<bool, Refusal>
    ensures { (map : Table) (cache : Cache) → result ≡ above_answer (memory_of fields rows.now map cache) layer }
{
    layer.check()?;
    Ok(is_above(placed(fields, rows), fields.nav.top_modal_layer, layer))
}

// Order::allow_interaction: every Order does, in egui 0.37.0. An Order is a code, as document 01 has all kinds.
fn order_allows(order: u64) -> bool
    ensures { result ≡ order_allows order }
{
    true
}

#[tactic(auto, unfolding(memory_rules::specs::Memory::is_allowed, memory_rules::specs::Memory::is_above))]
fn is_allowed(fields: Fields, rows: &[u64], layer: LayerId) -> bool
    ensures { (map : Table) (cache : Cache) → result ≡ is_allowed (memory_of fields rows.now map cache) layer }
{
    let modal = fields.nav.top_modal_layer;
    is_above(placed(fields, rows), modal, layer) && order_allows(layer.order)
}

pub fn allows_interaction(fields: Fields, rows: &[u64], layer: LayerId) -> Result<bool, Refusal>
    ensures { (map : Table) (cache : Cache) → result ≡ allows_answer (memory_of fields rows.now map cache) layer }
{
    layer.check()?;
    Ok(is_allowed(fields, rows, layer))
}

// Of two that compare equal the later counts.
#[tactic(auto, unfolding(memory_rules::specs::Memory::modal_set, focus::specs::Focus::modal_set))]
pub fn set_modal_layer(fields: Fields, rows: &[u64], layer: LayerId) -> Result<Fields, Refusal>
    ensures { (map : Table) (cache : Cache) → done_of fields result rows.now map cache ≡ modal_set (memory_of fields rows.now map cache) layer }
{
    layer.check()?;
    let current = fields.nav.top_modal_layer_current_frame;
    if is_above(placed(fields, rows), current, layer) {
        let nav = Nav {
            top_modal_layer_current_frame: layer,
            ..fields.nav
        };
        Ok(Fields { nav, ..fields })
    } else {
        Ok(fields)
    }
}

// ---- interest in the focus

#[tactic(auto, using(crate::proofs::Interest::interest_refused, crate::proofs::Interest::interest_turned_away, crate::proofs::Interest::interest_full, crate::proofs::Interest::interest_taken))]
pub fn interested_in_focus(
    fields: Fields,
    rows: &[u64],
    ids: &mut [u64],
    rects: &mut [f32],
    id: u64,
    layer: LayerId,
) -> Result<Fields, Refusal>
    ensures { (map : Table) → done_of fields result rows.now map (cache_in ids.new rects.new) ≡ interested_of (memory_of fields rows.now map (cache_in ids.old rects.old)) id layer }
{
    refusal::both(refusal::check_id(id), layer.check())?;
    if !is_allowed(fields, rows, layer) {
        return Ok(fields);
    }
    let interested = focus_pass::interested_in_focus(
        fields.nav,
        ids,
        rects,
        fields.cached,
        fields.slot,
        id,
    )?;
    Ok(Fields {
        nav: interested.nav,
        cached: interested.count,
        slot: interested.slot,
        ..fields
    })
}

#[tactic(auto, unfolding(memory_rules::specs::Memory::ignored_of, focus::specs::Focus::ignored_of))]
pub fn ignore_focus(
    fields: Fields,
    ids: &mut [u64],
    rects: &mut [f32],
    id: u64,
) -> Result<Fields, Refusal>
    ensures { (rows : List ℕ) (map : Table) → done_of fields result rows map (cache_in ids.new rects.new) ≡ ignored_of (memory_of fields rows map (cache_in ids.old rects.old)) id }
{
    let ignored = focus_pass::ignore_focus(fields.nav, ids, rects, fields.cached, id)?;
    Ok(Fields {
        nav: ignored.nav,
        cached: ignored.count,
        ..fields
    })
}
