// What find_widget_in_direction of memory/mod.rs says of one candidate: how far away it is on each axis, whether it lies in the cone of the
// search, and its score. Any f32 goes in, and any direction: a code, as document 01 has all kinds.
#![tactic(auto)]

ghost use Rattle.std.specs.Prelude.{◌≡◌, false, ℕ, ◌≤◌, ℤ, pos, nat_abs};
ghost use Rattle.refusal.specs.Refusal.{none};
ghost use Rattle.floats.specs.Count.{at, count_of};
ghost use Rattle.emath.specs.declared.Rangef.{Rangef};
ghost use Rattle.emath.specs.declared.Rect.{Rect};
ghost use Rattle.emath.specs.declared.Vec2.{Vec2};
ghost use Rattle.grid.specs.Grid.{pivot_pos_refusal, rect_refusal};
ghost use Rattle.candidate.specs.Candidate.{range_diff, to_candidate, is_in_search_cone, judge_of, along_of, is_farther};
ghost use Rattle.candidate.specs.Steps.{steps_apart};

use emath::{Rangef, Rect, Vec2};
use input::{DOWN, LEFT, RIGHT, UP};

// 0 where the ranges overlap by half of the smaller one or more, else how far the middle of a lies past that of b.
pub fn range_diff(a: Rangef, b: Rangef) -> f32
    ensures { result ≡ range_diff a b }
{
    let overlap = a.intersection(b);
    if 0.5 * emath::min(b.span(), a.span()) <= overlap.span() {
        return 0.0;
    }
    a.center() - b.center()
}

// The difference from the focused rectangle to a candidate's.
pub fn to_candidate(candidate: Rect, current: Rect) -> Vec2
    ensures { result ≡ to_candidate candidate current }
{
    Vec2 {
        x: range_diff(candidate.x_range(), current.x_range()),
        y: range_diff(candidate.y_range(), current.y_range()),
    }
}

// The part of a difference along an arrow's direction.
fn along(v: Vec2, direction: u64) -> f32
    ensures { result ≡ along_of v direction }
{
    match direction {
        UP => -v.y,
        RIGHT => v.x,
        DOWN => v.y,
        LEFT => -v.x,
        _ => 0.0,
    }
}

// Whether a part of the difference is past the limit. If so, its score is past the limit too.
#[tactic(auto, unfolding(crate::specs::Candidate::is_farther))]
pub fn is_farther(v: Vec2, limit: f32) -> bool
    ensures { result ≡ is_farther v limit }
{
    limit < grid::magnitude(v.x) || limit < grid::magnitude(v.y)
}

// The score, the smaller the better; none outside the cone. The cosine is at most half where one part is twice the part ahead or more, so no root is taken for what lies behind or far to a side.
pub fn judge(v: Vec2, direction: u64) -> Option<f32>
    ensures { result ≡ judge_of v direction }
{
    let ahead = along(v, direction);
    if ahead <= 0.0 {
        return None;
    }
    if is_farther(v, 2.0 * ahead) {
        return None;
    }
    let distance = vec2::length(v);
    let cos = ahead / distance;
    (f32::from_bits(0x3f35_04f3) <= cos).then_some(distance / (cos * cos))
}

// On the grid range_diff is document 01's difference: ends in 32nds, the difference in 64ths. There is nothing to run.
pub fn range_diff_on_grid()
    ensures { (a b : Rangef) (a0 a1 b0 b1 : ℤ)
        → count_of 32 a.min ≡ at a0 → count_of 32 a.max ≡ at a1 → count_of 32 b.min ≡ at b0 → count_of 32 b.max ≡ at b1
        → nat_abs a0 ≤ 524288 → nat_abs a1 ≤ 524288 → nat_abs b0 ≤ 524288 → nat_abs b1 ≤ 524288
        → count_of 64 (range_diff a b) ≡ at (steps_apart a0 a1 b0 b1) }
{}

// The difference of two rectangles that are taken has a length: both parts are multiples of 1/64 within ±32,768. There is nothing to run.
pub fn taken_on_grid()
    ensures { (a b : Rect) → rect_refusal a ≡ none → rect_refusal b ≡ none → pivot_pos_refusal (to_candidate a b).x (to_candidate a b).y ≡ none }
{}

// A difference of (0, 0) lies in no cone, and neither does one off the grid, as only a stored state can have. There is nothing to run.
pub fn in_no_cone()
    ensures { ((v : Vec2) (direction : ℕ) → count_of 64 v.x ≡ at (pos 0) → count_of 64 v.y ≡ at (pos 0) → is_in_search_cone v direction ≡ false)
        × ((v : Vec2) (direction : ℕ) → (pivot_pos_refusal v.x v.y ≡ none → ⊥) → is_in_search_cone v direction ≡ false) }
{}
