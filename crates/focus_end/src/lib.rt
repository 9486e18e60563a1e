// `Focus::end_pass` and `find_widget_in_direction` of memory/mod.rs, in place: the used entries in lent slices (crate `used`), the cache in lent tables
// (crate `focus_cache`). That no used id stands twice, and that each has its corners, is asked of the three functions past the check: a struct with the two facts as ghost fields would hold the
// same two slices under another name.
#![tactic(auto)]

ghost use Rattle.std.specs.Prelude.{◌≡◌, false, ◌*◌, ◌≤◌, ◌<◌, length, get_or, IfOk};
ghost use Rattle.refusal.specs.Refusal.{number_in, kept};
ghost use Rattle.search.specs.Search.{table_of};
ghost use Rattle.focus_cache.specs.Cache.{held_in, has_id, cache_in, cache_on};
ghost use Rattle.used.specs.Used.{lent, repeated};
ghost use Rattle.focus_end.specs.End.{rect_in, updated, refreshed, cache_ended, end_of};
ghost use Rattle.focus_end.specs.Steps.{count_after, kept_in, searched_of};

use emath::Rect;
use focus_rules::{After, Nav};
use refusal::Refusal;
use used::UsedEntries;

// How far the cache is up to date: how many entries are kept, and where among the used ones the next is looked for first.
#[derive(Clone, Copy)]
struct Kept {
    count: usize,
    next: usize,
}

// What the search found, 0 for nothing as `search::find` answers, and how many entries the cache holds.
#[derive(Clone, Copy)]
struct Searched {
    found: u64,
    count: usize,
}

// Entry i is kept with its new rectangle, or left out.
fn keep(ids: &mut [u64], rects: &mut [f32], so_far: Kept, i: usize, used: UsedEntries<'_>) -> Kept
    requires { (repeated used.ids.now ≡ false) × (4 * length used.ids.now ≤ length used.corners.now) × (i < length ids.old) × (so_far.count ≤ i) }
    ensures { (result.count ≡ count_after so_far.count (rect_in (lent used.entry) (get_or ids.old i 0))) × (cache_in ids.new rects.new ≡ kept_in (cache_in ids.old rects.old) so_far.count (get_or ids.old i 0) (rect_in (lent used.entry) (get_or ids.old i 0))) }
{
    let id = ids[i];
    match tables::find_after(used.ids, so_far.next, id) {
        Some(k) => {
            let rect = focus_cache::rect_at(used.corners, k);
            focus_cache::put(ids, rects, so_far.count, id, rect);
            Kept {
                count: so_far.count + 1,
                next: k + 1,
            }
        }
        None => so_far,
    }
}

// `retain`: the entries that are used take their new rectangles, the others are left out.
fn retain(ids: &mut [u64], rects: &mut [f32], count: usize, used: UsedEntries<'_>) -> usize
    requires { (repeated used.ids.now ≡ false) × (4 * length used.ids.now ≤ length used.corners.now) }
    ensures { (result ≡ length (updated (lent used.entry) (held_in count ids.old rects.old))) × (cache_in ids.new rects.new ≡ cache_on (cache_in ids.old rects.old) (updated (lent used.entry) (held_in count ids.old rects.old))) }
{
    let n = focus_cache::held(ids, rects, count);
    let mut so_far = Kept { count: 0, next: 0 };
    for i in 0..n {
        so_far = keep(ids, rects, so_far, i, used);
    }
    so_far.count
}

// The rectangle of an id.
#[tactic(auto, using(crate::proofs::Calls::rect_there, crate::proofs::Calls::rect_absent))]
fn rect_of(ids: &[u64], rects: &[f32], id: u64) -> Option<Rect>
    requires { 4 * length ids.now ≤ length rects.now }
    ensures { result ≡ rect_in (table_of ids.now rects.now) id }
{
    let k = tables::find_from(ids, 0, id)?;
    Some(focus_cache::rect_at(rects, k))
}

fn find_widget_in_direction(
    nav: Nav,
    ids: &mut [u64],
    rects: &mut [f32],
    count: usize,
    used: UsedEntries<'_>,
) -> Searched
    requires { (repeated used.ids.now ≡ false) × (4 * length used.ids.now ≤ length used.corners.now) }
    ensures { (result ≡ searched_of nav (held_in count ids.old rects.old) (lent used.entry)) × (cache_in ids.new rects.new ≡ cache_on (cache_in ids.old rects.old) (refreshed nav (held_in count ids.old rects.old) (lent used.entry))) }
{
    let Some(widget) = navigation::focused_widget(nav) else {
        return Searched {
            found: 0,
            count: focus_cache::held(ids, rects, count),
        };
    };
    let n = retain(ids, rects, count, used);
    let Some(current) = rect_of(&ids[..n], &rects[..4 * n], widget.id) else {
        return Searched { found: 0, count: n };
    };
    Searched {
        found: search::find(
            &ids[..n],
            &rects[..4 * n],
            widget.id,
            current,
            nav.focus_direction,
        ),
        count: n,
    }
}

#[tactic(auto, using(crate::proofs::Calls::among))]
fn is_used(used: UsedEntries<'_>, id: u64) -> bool
    ensures { result ≡ has_id (lent used.entry) id }
{
    used.ids.contains(&id)
}

#[tactic(auto, unfolding(crate::specs::End::end_of, crate::specs::End::cache_ended, crate::specs::End::nav_ended), using(used::proofs::Entries::taken_unrepeated, used::proofs::Entries::taken_whole, focus_cache::proofs::Entries::on_held))]
pub fn end_pass(
    nav: Nav,
    ids: &mut [u64],
    rects: &mut [f32],
    count: usize,
    used: UsedEntries<'_>,
    limit: usize,
) -> Result<After, Refusal>
    ensures refusal { number_in result ≡ (end_of limit nav (held_in count ids.old rects.old) count (lent used.entry)).refusal }
    ensures after { IfOk result (λ r. let s = end_of limit nav (held_in count ids.old rects.old) count (lent used.entry) in (r.nav ≡ s.nav) × (r.count ≡ s.count)) }
    ensures cache { cache_in ids.new rects.new ≡ kept (end_of limit nav (held_in count ids.old rects.old) count (lent used.entry)).refusal (cache_in ids.old rects.old) (cache_on (cache_in ids.old rects.old) (cache_ended nav (held_in count ids.old rects.old) (lent used.entry))) }
{
    used.check(limit)?;
    let (next, count) = if input::is_cardinal(nav.focus_direction) {
        let s = find_widget_in_direction(nav, ids, rects, count, used);
        (navigation::found(nav, s.found), s.count)
    } else {
        (nav, focus_cache::held(ids, rects, count))
    };
    Ok(After {
        nav: navigation::ended(next, is_used(used, next.focused)),
        count,
    })
}
