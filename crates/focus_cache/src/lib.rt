// `focus_widgets_cache` of `Focus` (memory/mod.rs), a map from ids to rectangles, in place on lent tables of any length: an entry for each id, in the order in
// which they came. How many are held goes along by value. The calls change the tables, so they get the slices as C lends them; a struct for the few that only read would be made at
// each call.
//     ids:   the id
//     rects: four numbers: left, top, right, bottom
#![tactic(auto)]

ghost use Rattle.std.specs.Prelude.{◌≡◌, length, IfOk};
ghost use Rattle.refusal.specs.Refusal.{number_in, kept};
ghost use Rattle.focus_cache.specs.Cache.{room_in, held_in, has_id, without, enlisted, cache_in, cache_on, rect_at, put_in, full_refusal, enlisted_of};

use emath::Rect;
use refusal::Refusal;

// How many entries are held, and the place where the next call looks first.
#[derive(Clone, Copy)]
pub struct Enlisted {
    pub count: usize,
    pub slot: usize,
}

// How many whole entries the tables have.
pub fn room(ids: &[u64], rects: &[f32]) -> usize
    ensures { result ≡ room_in ids.now rects.now }
{
    ids.len().min(rects.len() / 4)
}

// How many are held: never more than there is room for.
#[tactic(auto, using(crate::proofs::Calls::held_is))]
pub fn held(ids: &[u64], rects: &[f32], count: usize) -> usize
    ensures { result ≡ length (held_in count ids.now rects.now) }
{
    count.min(room(ids, rects))
}

// Whether the cache holds an id.
#[tactic(auto, using(crate::proofs::Calls::held_fits, crate::proofs::Calls::held_part, crate::proofs::Calls::contains_part))]
pub fn contains(ids: &[u64], rects: &[f32], count: usize, id: u64) -> bool
    ensures { result ≡ has_id (held_in count ids.now rects.now) id }
{
    let n = held(ids, rects, count);
    ids[..n].contains(&id)
}

// Puts an id with a rectangle in entry k, where there is room.
#[tactic(auto, unfolding(crate::specs::Cache::put_in, crate::specs::Cache::corners_of))]
pub fn put(ids: &mut [u64], rects: &mut [f32], k: usize, id: u64, rect: Rect)
    ensures { cache_in ids.new rects.new ≡ put_in (cache_in ids.old rects.old) k (record { id = id; rect = rect }) }
{
    if k < room(ids, rects) {
        ids[k] = id;
        tables::put(rects, 4 * k, &<[f32; 4]>::from(rect));
    }
}

// The id has an entry: the one that it had, looked for first at `slot`, or a new one with the rectangle that is everything.
#[tactic(auto, using(crate::proofs::Calls::held_fits, crate::proofs::Calls::held_part, crate::proofs::Calls::slot_fits, crate::proofs::Calls::old_taken, crate::proofs::Calls::old_answer, crate::proofs::Calls::old_cache, crate::proofs::Calls::new_taken, crate::proofs::Calls::new_answer, crate::proofs::Calls::new_cache, crate::proofs::Calls::full_told, crate::proofs::Calls::full_cache))]
pub fn enlist(
    ids: &mut [u64],
    rects: &mut [f32],
    count: usize,
    slot: usize,
    id: u64,
) -> Result<Enlisted, Refusal>
    ensures refusal { number_in result ≡ full_refusal (room_in ids.old rects.old) (held_in count ids.old rects.old) id }
    ensures place { IfOk result (λ e. e ≡ enlisted_of (held_in count ids.old rects.old) slot id) }
    ensures cache { cache_in ids.new rects.new ≡ kept (full_refusal (room_in ids.old rects.old) (held_in count ids.old rects.old) id) (cache_in ids.old rects.old) (cache_on (cache_in ids.old rects.old) (enlisted (held_in count ids.old rects.old) id)) }
{
    let n = held(ids, rects, count);
    match tables::find_after(&ids[..n], slot, id) {
        Some(k) => Ok(Enlisted {
            count: n,
            slot: k + 1,
        }),
        None if n < room(ids, rects) => {
            put(ids, rects, n, id, Rect::everything());
            Ok(Enlisted {
                count: n + 1,
                slot: n + 1,
            })
        }
        None => Err(Refusal::Full),
    }
}

// The rectangle of entry k.
#[tactic(auto, unfolding(crate::specs::Cache::rect_at))]
pub fn rect_at(rects: &[f32], k: usize) -> Rect
    ensures { result ≡ rect_at rects.now k }
{
    match rects.as_chunks::<4>().0.get(k) {
        Some(&corners) => Rect::from(corners),
        None => Rect::everything(),
    }
}

// Takes the entries of an id out; the others close up.
pub fn remove(ids: &mut [u64], rects: &mut [f32], count: usize, id: u64) -> usize
    ensures { (result ≡ length (without (held_in count ids.old rects.old) id)) × (cache_in ids.new rects.new ≡ cache_on (cache_in ids.old rects.old) (without (held_in count ids.old rects.old) id)) }
{
    let n = held(ids, rects, count);
    // Nothing moves where the id has no entry.
    if !contains(ids, rects, count, id) {
        return n;
    }
    let mut kept = 0;
    for i in 0..n {
        let here = ids[i];
        if here != id {
            put(ids, rects, kept, here, rect_at(rects, i));
            kept += 1;
        }
    }
    kept
}
