// find_widget_in_direction of memory/mod.rs, once the cache is up to date: the best candidate of a lent table. A direction is a code, as document 01 has all kinds; id 0 is none, as it is there.
#![tactic(auto)]

ghost use Rattle.std.specs.Prelude.{◌≡◌, true, ℕ, List, []};
ghost use Rattle.emath.specs.declared.Rect.{Rect};
ghost use Rattle.search.specs.declared.Candidate.{Candidate};
ghost use Rattle.search.specs.Search.{table_of, goes_first, is_better, in_cone_of, find_of};
ghost use Rattle.search.specs.EguiWalk.{egui_finds, IsLeast, in_tie_order};
ghost use Rattle.search.specs.Walk.{nothing_yet, step_of};

use emath::Rect;

#[derive(Clone, Copy)]
pub struct Candidate {
    pub id: u64,
    pub rect: Rect,
}

// A candidate in the cone.
#[derive(Clone, Copy)]
pub struct Scored {
    pub score: f32,
    pub candidate: Candidate,
}

// The tie rule, for equal scores.
#[tactic(auto, unfolding(crate::specs::Search::goes_first))]
fn goes_first(a: Candidate, b: Candidate) -> bool
    ensures { result ≡ goes_first a b }
{
    a.id < b.id
}

// The smaller score, ties by the tie rule.
#[tactic(auto, unfolding(crate::specs::Search::is_better))]
fn is_better(a: Scored, b: Scored) -> bool
    ensures { result ≡ is_better a b }
{
    a.score < b.score || a.score == b.score && goes_first(a.candidate, b.candidate)
}

// The better of the best so far and c.
fn consider(best: Scored, c: Candidate, focused: u64, current: Rect, direction: u64) -> Scored
    ensures { result ≡ step_of is_better focused current direction best c }
{
    if c.id == 0 {
        return best;
    }
    if c.id == focused {
        return best;
    }
    let difference = candidate::to_candidate(c.rect, current);
    if candidate::is_farther(difference, best.score) {
        return best;
    }
    match candidate::judge(difference, direction) {
        None => best,
        Some(score) => {
            let new = Scored {
                score,
                candidate: c,
            };
            if is_better(new, best) { new } else { best }
        }
    }
}

// No candidate yet: id 0, and a score that every other is below, as egui's loop starts.
fn nothing() -> Scored
    ensures { result ≡ nothing_yet }
{
    Scored {
        score: f32::INFINITY,
        candidate: Candidate {
            id: 0,
            rect: Rect::everything(),
        },
    }
}

// The id of the candidate in the cone of the direction, as seen from the rectangle `current` of the id `focused`, with the least score,
// ties by the tie rule; 0 where none lies in the cone. A place is an id, 0 where it is free, and four of rects: left, top, right, bottom;
// what the longer slice has more is not looked at. One index goes over both: a `zip` of them was tried and proved, and a search took 1.07 to 1.13 times as long.
pub fn find(ids: &[u64], rects: &[f32], focused: u64, current: Rect, direction: u64) -> u64
    ensures { result ≡ find_of (table_of ids.now rects.now) focused current direction }
{
    let mut best = nothing();
    let (corners, _) = rects.as_chunks::<4>();
    for i in 0..ids.len().min(corners.len()) {
        let c = Candidate {
            id: ids[i],
            rect: Rect::from(corners[i]),
        };
        best = consider(best, c, focused, current, direction);
    }
    best.candidate.id
}

// Nothing is found exactly where no candidate lies in the cone. There is nothing to run.
pub fn nothing_found()
    ensures { (table : List Candidate) (focused : ℕ) (current : Rect) (direction : ℕ)
        → (find_of table focused current direction ≡ 0 → in_cone_of focused current direction table ≡ [])
        × (in_cone_of focused current direction table ≡ [] → find_of table focused current direction ≡ 0) }
{}

// The Rust's own loop finds nothing exactly where no candidate lies in the cone, and else one of the least score, in whatever order the
// cache hands its candidates out. There is nothing to run.
pub fn walk_finds_the_least()
    ensures { (table : List Candidate) (focused : ℕ) (current : Rect) (direction : ℕ)
        → IsLeast (in_cone_of focused current direction table) (egui_finds focused current direction table) }
{}

// Where the cache hands its candidates out in the order of the tie rule, the Rust's own loop finds what `find` does: it keeps the first
// of equal scores. There is nothing to run.
pub fn walk_in_tie_order()
    ensures { (table : List Candidate) (focused : ℕ) (current : Rect) (direction : ℕ)
        → in_tie_order table ≡ true
        → (egui_finds focused current direction table).candidate.id ≡ find_of table focused current direction }
{}
