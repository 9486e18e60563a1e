// The part of emath that the panel's memory leans on: positions, vectors, ranges and rectangles of f32. Any f32 is taken.
#![tactic(auto)]

ghost use Rattle.std.specs.Prelude.{◌≡◌, cond, ℕ, ◌<◌, ℤ, Float};
ghost use Rattle.std.specs.Int.Signed.{lt_z};
ghost use Rattle.floats.specs.Count.{at, count_of};
ghost use Rattle.emath.specs.Pos2.{round_pos};
ghost use Rattle.emath.specs.Range.{max_f, min_f, span_of, center_of, intersection_of};
ghost use Rattle.emath.specs.Rect.{everything, from_min_size, from_corners, to_corners, contains_pos, x_range, y_range, round_rect};

#[derive(Clone, Copy)]
#[repr(C)]
pub struct Pos2 {
    pub x: f32,
    pub y: f32,
}

#[derive(Clone, Copy)]
pub struct Vec2 {
    pub x: f32,
    pub y: f32,
}

#[derive(Clone, Copy)]
pub struct Rangef {
    pub min: f32,
    pub max: f32,
}

#[derive(Clone, Copy)]
#[repr(C)]
pub struct Rect {
    pub min: Pos2,
    pub max: Pos2,
}

// f32::max: of a NaN and a number, the number. Of two zeros it is the first; std's leaves that open.
#[tactic(auto, unfolding(crate::specs::Range::max_f))]
pub fn max(a: f32, b: f32) -> f32
    ensures { result ≡ max_f a b }
{
    if a < b || a.is_nan() { b } else { a }
}

// f32::min: of a NaN and a number, the number. Of two zeros it is the first; std's leaves that open. The mirror of `max`: a line each, which one function with a test handed over would not make plainer.
#[tactic(auto, unfolding(crate::specs::Range::min_f))]
pub fn min(a: f32, b: f32) -> f32
    ensures { result ≡ min_f a b }
{
    if b < a || a.is_nan() { b } else { a }
}

// On a grid the larger and the smaller of two numbers are those of their steps. There is nothing to run.
pub fn choice_on_grid()
    ensures { (c : ℕ) → 0 < c → (x y : Float) (a b : ℤ) → count_of c x ≡ at a → count_of c y ≡ at b
        → (count_of c (max_f x y) ≡ at (cond (lt_z a b) b a)) × (count_of c (min_f x y) ≡ at (cond (lt_z b a) b a)) }
{}

impl Pos2 {
    pub fn round_ui(self) -> Pos2
        ensures { result ≡ round_pos self }
    {
        Pos2 {
            x: gui_rounding::round_ui(self.x),
            y: gui_rounding::round_ui(self.y),
        }
    }
}

impl Rangef {
    #[tactic(auto, unfolding(crate::specs::Range::span_of))]
    pub fn span(self) -> f32
        ensures { result ≡ span_of self }
    {
        self.max - self.min
    }

    #[tactic(auto, unfolding(crate::specs::Range::center_of))]
    pub fn center(self) -> f32
        ensures { result ≡ center_of self }
    {
        0.5 * (self.min + self.max)
    }

    #[tactic(auto, unfolding(crate::specs::Range::intersection_of))]
    pub fn intersection(self, other: Rangef) -> Rangef
        ensures { result ≡ intersection_of self other }
    {
        Rangef {
            min: max(self.min, other.min),
            max: min(self.max, other.max),
        }
    }
}

impl Rect {
    // Rect::EVERYTHING: from minus infinity to infinity.
    pub fn everything() -> Rect
        ensures { result ≡ everything }
    {
        let infinity = f32::INFINITY;
        Rect {
            min: Pos2 {
                x: -infinity,
                y: -infinity,
            },
            max: Pos2 {
                x: infinity,
                y: infinity,
            },
        }
    }

    pub fn from_min_size(min: Pos2, size: Vec2) -> Rect
        ensures { result ≡ from_min_size min size }
    {
        Rect {
            min,
            max: Pos2 {
                x: min.x + size.x,
                y: min.y + size.y,
            },
        }
    }

    // Edges included.
    #[tactic(auto, unfolding(crate::specs::Rect::contains_pos))]
    pub fn contains(self, p: Pos2) -> bool
        ensures { result ≡ contains_pos self p }
    {
        self.min.x <= p.x && p.x <= self.max.x && self.min.y <= p.y && p.y <= self.max.y
    }

    pub fn x_range(self) -> Rangef
        ensures { result ≡ x_range self }
    {
        Rangef {
            min: self.min.x,
            max: self.max.x,
        }
    }

    pub fn y_range(self) -> Rangef
        ensures { result ≡ y_range self }
    {
        Rangef {
            min: self.min.y,
            max: self.max.y,
        }
    }

    pub fn round_ui(self) -> Rect
        ensures { result ≡ round_rect self }
    {
        Rect {
            min: self.min.round_ui(),
            max: self.max.round_ui(),
        }
    }
}

impl From<[f32; 4]> for Rect {
    ghost from_gives = { λ c r. r ≡ from_corners c };

    // Four numbers as the tables hold them.
    fn from([left, top, right, bottom]: [f32; 4]) -> Rect {
        Rect {
            min: Pos2 { x: left, y: top },
            max: Pos2 {
                x: right,
                y: bottom,
            },
        }
    }
}

impl From<Rect> for [f32; 4] {
    ghost from_gives = { λ r c. c ≡ to_corners r };

    fn from(r: Rect) -> [f32; 4] {
        [r.min.x, r.min.y, r.max.x, r.max.y]
    }
}
