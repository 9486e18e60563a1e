// Document 01's grid: which corners, sizes, pivot positions and rectangles are taken, and by what number the others are refused.
// Any f32 goes in, NaN and the infinities too.
#![tactic(auto)]

ghost use Rattle.std.specs.Prelude.{◌≡◌, ℕ, ◌*◌, ◌≤◌, ℤ, pos, nat_abs, Float};
ghost use Rattle.refusal.specs.Refusal.{none, number_in};
ghost use Rattle.floats.specs.Count.{at, count_of};
ghost use Rattle.grid.specs.Grid.{magnitude_of, within, corner_refusal, pivot_refusal, side_refusal, pos_refusal, pivot_pos_refusal, size_refusal, crossed, rect_refusal};
ghost use Rattle.grid.specs.Steps.{multiple_by, taken_by, axis_taken};

use emath::{Pos2, Rect};
use refusal::Refusal;

// x without its sign; -0.0 is left as it is, of which std's `abs` makes 0.0.
pub fn magnitude(x: f32) -> f32
    ensures { result ≡ magnitude_of x }
{
    if x < 0.0 { -x } else { x }
}

// From it to twice it f32 has steps of 1.
const WHOLE: f32 = 8388608.0;

// f32 has steps of 1/32 around it.
const MIDDLE: f32 = 393216.0;

// Whether y is a multiple of the steps that f32 has where y + far lies: the sum has no room for less.
fn is_multiple(y: f32, far: f32) -> bool
    ensures { result ≡ multiple_by y far }
{
    (y + far) - far == y
}

// Whether x is a whole number of steps within ±bound, for so many steps to 1.
fn is_taken(x: f32, bound: f32, steps: f32) -> bool
    ensures { result ≡ taken_by x bound steps }
{
    let size = magnitude(x);
    size <= bound && is_multiple(size * steps, WHOLE)
}

// One coordinate of a corner: a multiple of 1/32 within ±16,384.
pub fn corner(x: f32) -> Result<(), Refusal>
    ensures { number_in result ≡ corner_refusal x }
{
    refusal::check(is_taken(x, 16384.0, 32.0), Refusal::OffGrid)
}

// One coordinate of a pivot position: a multiple of 1/64 within ±32,768.
fn pivot(x: f32) -> Result<(), Refusal>
    ensures { number_in result ≡ pivot_refusal x }
{
    refusal::check(is_taken(x, 32768.0, 64.0), Refusal::OffGrid)
}

// A width or a height: a multiple of 1/32 from 0 to 16,384. From 2^18 on every f32 is a multiple of 1/32.
fn side(x: f32) -> Result<(), Refusal>
    ensures { number_in result ≡ side_refusal x }
{
    if x < 0.0 {
        let size = -x;
        let on_step = if size <= 262144.0 {
            is_multiple(size * 32.0, WHOLE)
        } else {
            size < f32::INFINITY
        };
        return Err(if on_step {
            Refusal::Reversed
        } else {
            Refusal::OffGrid
        });
    }
    corner(x)
}

pub fn pos(p: Pos2) -> Result<(), Refusal>
    ensures { number_in result ≡ pos_refusal p }
{
    refusal::both(corner(p.x), corner(p.y))
}

pub fn pivot_pos(x: f32, y: f32) -> Result<(), Refusal>
    ensures { number_in result ≡ pivot_pos_refusal x y }
{
    refusal::both(pivot(x), pivot(y))
}

pub fn size(x: f32, y: f32) -> Result<(), Refusal>
    ensures { number_in result ≡ size_refusal x y }
{
    refusal::both(side(x), side(y))
}

// A high corner below its low one.
fn crossed(r: Rect) -> Result<(), Refusal>
    ensures { number_in result ≡ crossed r }
{
    let is_crossed = r.max.x < r.min.x || r.max.y < r.min.y;
    refusal::check(!is_crossed, Refusal::Reversed)
}

// Whether one axis of a rectangle is taken: both ends on the grid, in their order.
fn axis(low: f32, high: f32) -> bool
    ensures { result ≡ axis_taken low high }
{
    low <= high
        && -16384.0 <= low
        && high <= 16384.0
        && is_multiple(low, MIDDLE)
        && is_multiple(high, MIDDLE)
}

// A rectangle that is taken is told by its two axes, which is quicker than the sum of its refusals.
pub fn rect(r: Rect) -> Result<(), Refusal>
    ensures { number_in result ≡ rect_refusal r }
{
    if axis(r.min.x, r.max.x) && axis(r.min.y, r.max.y) {
        return Ok(());
    }
    refusal::both(refusal::both(pos(r.min), pos(r.max)), crossed(r))
}

// A corner or a pivot position is taken exactly if it is a whole number of steps within its bound. There is nothing to run.
pub fn taken_steps()
    ensures { ((c b : ℕ) (x : Float) → within c b x ≡ none → (z : ℤ) × (count_of c x ≡ at z) × (nat_abs z ≤ b * c))
        × ((c b : ℕ) (x : Float) (z : ℤ) → count_of c x ≡ at z → nat_abs z ≤ b * c → within c b x ≡ none) }
{}

// A width or a height is taken exactly if it is 0 to 524,288 steps of 1/32. There is nothing to run.
pub fn taken_sides()
    ensures { ((x : Float) → side_refusal x ≡ none → (n : ℕ) × (count_of 32 x ≡ at (pos n)) × (n ≤ 524288))
        × ((x : Float) (n : ℕ) → count_of 32 x ≡ at (pos n) → n ≤ 524288 → side_refusal x ≡ none) }
{}
