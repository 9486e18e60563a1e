// AreaState of egui's containers/area.rs: where an area is. Codes and floats of any value go in; those outside document 01's domain are refused.
#![tactic(auto)]

ghost use Rattle.std.specs.Prelude.{◌≡◌, ℕ, ℤ, pos};
ghost use Rattle.refusal.specs.Refusal.{none, number_in, lowest, answer};
ghost use Rattle.floats.specs.Count.{at, count_of};
ghost use Rattle.emath.specs.Rect.{contains_pos};
ghost use Rattle.grid.specs.Grid.{pos_refusal};
ghost use Rattle.area.specs.declared.AreaState.{AreaState};
ghost use Rattle.area.specs.Area.{low_edge, high_edge};
ghost use Rattle.area.specs.Area.{position_of, extent_of, to_factor, default_state, left_top, with_left_top, rect_of};
ghost use Rattle.area.specs.Steps.{spans};
ghost use Rattle.area.specs.Area.{pivot_pos_at, size_at, state_refusal};

use emath::{Pos2, Rect, Vec2};
use refusal::{LAST_PIVOT, Refusal};

// Option<Pos2>: where the pivot was put. An enum of its own, a case of two floats: a form that document 01 names.
#[derive(Clone, Copy)]
pub enum PivotPos {
    Absent,
    At(f32, f32),
}

// Where on the area the pivot is, a code for each axis: 0 low, 1 middle, 2 high. Any code is legal: document 01 refuses those past 2.
#[derive(Clone, Copy)]
pub struct Align2 {
    pub x: u64,
    pub y: u64,
}

#[derive(Clone, Copy)]
pub struct AreaState {
    pub pivot_pos: PivotPos,
    pub pivot: Align2,
    pub size: Option<Vec2>,
    pub interactable: bool,
}

fn position(p: PivotPos) -> Pos2
    ensures { result ≡ position_of p }
{
    match p {
        PivotPos::Absent => Pos2 { x: 0.0, y: 0.0 },
        PivotPos::At(x, y) => Pos2 { x, y },
    }
}

fn extent(size: Option<Vec2>) -> Vec2
    ensures { result ≡ extent_of size }
{
    size.unwrap_or(Vec2 { x: 0.0, y: 0.0 })
}

fn to_factor(code: u64) -> f32
    ensures { result ≡ to_factor code }
{
    match code {
        0 => 0.0,
        1 => 0.5,
        _ => 1.0,
    }
}

fn check_pivot_pos(p: PivotPos) -> Result<(), Refusal>
    ensures { number_in result ≡ pivot_pos_at p }
{
    match p {
        PivotPos::Absent => Ok(()),
        PivotPos::At(x, y) => grid::pivot_pos(x, y),
    }
}

fn check_size(size: Option<Vec2>) -> Result<(), Refusal>
    ensures { number_in result ≡ size_at size }
{
    size.map_or(Ok(()), |v| grid::size(v.x, v.y))
}

// Whether x is between a low edge and the edge of that size after it, both rounded.
#[tactic(auto, unfolding(crate::specs::Steps::spans))]
fn spans(low: f32, size: f32, x: f32) -> bool
    ensures { result ≡ spans low size x }
{
    gui_rounding::round_ui(low) <= x && x <= gui_rounding::round_ui(low + size)
}

impl AreaState {
    pub fn new() -> AreaState
        ensures { result ≡ default_state }
    {
        AreaState {
            pivot_pos: PivotPos::Absent,
            pivot: Align2 { x: 0, y: 0 },
            size: None,
            interactable: true,
        }
    }

    #[tactic(auto, unfolding(crate::specs::Area::state_refusal))]
    pub fn check(self) -> Result<(), Refusal>
        ensures { number_in result ≡ state_refusal self }
    {
        let codes = refusal::both(
            refusal::check_code(self.pivot.x, LAST_PIVOT),
            refusal::check_code(self.pivot.y, LAST_PIVOT),
        );
        let numbers = refusal::both(check_pivot_pos(self.pivot_pos), check_size(self.size));
        refusal::both(codes, numbers)
    }

    // left_top_pos of any state, on the grid or not: for callers that hold a stored state.
    pub fn left_top_unchecked(self) -> Pos2
        ensures { result ≡ left_top self }
    {
        let p = position(self.pivot_pos);
        let s = extent(self.size);
        let corner = Pos2 {
            x: p.x - to_factor(self.pivot.x) * s.x,
            y: p.y - to_factor(self.pivot.y) * s.y,
        };
        corner.round_ui()
    }

    // rect of any state, on the grid or not: for callers that hold a stored state.
    pub fn rect_unchecked(self) -> Rect
        ensures { result ≡ rect_of self }
    {
        Rect::from_min_size(self.left_top_unchecked(), extent(self.size)).round_ui()
    }

    // Whether a point is in that rectangle, edges included. An edge is rounded only where the point is not past the ones before it, as rounding takes most of the time.
    #[tactic(auto, unfolding(crate::specs::Steps::spans, crate::specs::Area::rect_of, emath::specs::Rect::contains_pos))]
    pub fn contains_unchecked(self, pos: Pos2) -> bool
        ensures { result ≡ contains_pos (rect_of self) pos }
    {
        let low = self.left_top_unchecked();
        let size = extent(self.size);
        spans(low.x, size.x, pos.x) && spans(low.y, size.y, pos.y)
    }

    pub fn left_top_pos(self) -> Result<Pos2, Refusal>
        ensures { result ≡ answer (state_refusal self) (left_top self) }
    {
        self.check()?;
        Ok(self.left_top_unchecked())
    }

    pub fn rect(self) -> Result<Rect, Refusal>
        ensures { result ≡ answer (state_refusal self) (rect_of self) }
    {
        self.check()?;
        Ok(self.rect_unchecked())
    }

    // The position is a corner.
    pub fn set_left_top_pos(self, pos: Pos2) -> Result<AreaState, Refusal>
        ensures { result ≡ answer (lowest (state_refusal self) (pos_refusal pos)) (with_left_top self pos) }
    {
        refusal::both(self.check(), grid::pos(pos))?;
        Ok(self.with_left_top(pos))
    }

    fn with_left_top(self, pos: Pos2) -> AreaState
        ensures { result ≡ with_left_top self pos }
    {
        let s = extent(self.size);
        let x = pos.x + to_factor(self.pivot.x) * s.x;
        let y = pos.y + to_factor(self.pivot.y) * s.y;
        AreaState {
            pivot_pos: PivotPos::At(x, y),
            ..self
        }
    }
}

// The corners of an area that is not refused, in whole numbers: a position of (p, q) 64ths and a size of (w, h) 32nds.
// There is nothing to run.
pub fn corners_on_grid()
    ensures { (s : AreaState) → state_refusal s ≡ none → (p q : ℤ) (w h : ℕ)
        → count_of 64 (position_of s.pivot_pos).x ≡ at p → count_of 64 (position_of s.pivot_pos).y ≡ at q
        → count_of 32 (extent_of s.size).x ≡ at (pos w) → count_of 32 (extent_of s.size).y ≡ at (pos h)
        → (count_of 32 (left_top s).x ≡ at (low_edge p s.pivot.x w)) × (count_of 32 (left_top s).y ≡ at (low_edge q s.pivot.y h))
        × (count_of 32 (rect_of s).min.x ≡ at (low_edge p s.pivot.x w)) × (count_of 32 (rect_of s).min.y ≡ at (low_edge q s.pivot.y h))
        × (count_of 32 (rect_of s).max.x ≡ at (high_edge p s.pivot.x w))
        × (count_of 32 (rect_of s).max.y ≡ at (high_edge q s.pivot.y h)) }
{}
