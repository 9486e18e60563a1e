// What the parts of a form mean to the memory.
ghost use Rattle.std.specs.Prelude.{◌≡◌};
ghost use Rattle.requests.specs.Readers.{magnitude_of};
ghost use Rattle.requests.specs.Asked.{points, pos_of, state_of, corners_of, words_of};

use area::{Align2, AreaState, PivotPos};
use emath::{Pos2, Vec2};
use forms::{Coordinate, Entry, Place, Spot};

// The largest coordinate, in 32nds: 16,384 points.
const LARGEST: u64 = 524288;

// Past every bound of the grid, a pivot position's too, so that each call refuses it as it refuses any number past its bounds.
const PAST: f32 = 65536.0;

#[tactic(auto, using(crate::proofs::Steps::points_taken, crate::proofs::Steps::points_past))]
fn magnitude(steps: u64) -> f32
    ensures { result ≡ magnitude_of steps }
{
    if steps <= LARGEST {
        steps as f32 / 32.0
    } else {
        PAST
    }
}

#[tactic(auto, using(crate::proofs::Steps::points_below, crate::proofs::Steps::points_above))]
fn points(c: Coordinate) -> f32
    ensures { result ≡ points c }
{
    let size = magnitude(c.steps);
    if c.below { -size } else { size }
}

pub(crate) fn pos(s: Spot) -> Pos2
    ensures { result ≡ pos_of s }
{
    Pos2 {
        x: points(s.x),
        y: points(s.y),
    }
}

// The corners of a used entry: left, top, right and bottom.
pub(crate) fn corners(p: Place) -> [f32; 4]
    ensures { result ≡ corners_of p }
{
    [
        points(p.min.x),
        points(p.min.y),
        points(p.max.x),
        points(p.max.y),
    ]
}

// An area at a position, of a size, with a low pivot, that a touch reaches.
pub(crate) fn area_state(at: Spot, size: Spot) -> AreaState
    ensures { result ≡ state_of at size }
{
    AreaState {
        pivot_pos: PivotPos::At(points(at.x), points(at.y)),
        pivot: Align2 { x: 0, y: 0 },
        size: Some(Vec2 {
            x: points(size.x),
            y: points(size.y),
        }),
        interactable: true,
    }
}

// An event as the four numbers of crate `focus_pass`.
pub(crate) fn words(e: Entry) -> [u64; 4]
    ensures { result ≡ words_of e }
{
    match e {
        Entry::Key(key, down, modifiers) => [1, key, u64::from(down), modifiers],
        Entry::Ask(id) => [2, id, 0, 0],
    }
}
