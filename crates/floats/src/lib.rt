// f32 as whole numbers of steps: sums, differences, products, halves and the order of numbers on a grid are exact, and are those of
// the whole numbers. Each law is the contract of an empty function; there is nothing to run.
#![tactic(auto)]

ghost use Rattle.std.specs.Prelude.{◌≡◌, ℕ, ◌+◌, ◌*◌, ◌^◌, ◌≤◌, ◌<◌, ℤ, nat_abs, ◌+ℤ◌, ◌-ℤ◌, ◌*ℤ◌, Float};
ghost use Rattle.std.specs.Int.Signed.{lt_z, le_z};
ghost use Rattle.std.specs.Float.{binary32};
ghost use Rattle.std.specs.Float.Ieee.{add, sub, mul, lt, le};
ghost use Rattle.floats.specs.Count.{at, count_of, half};

pub fn sum_on_grid()
    ensures { (d : ℕ) → d ≤ 149 → (x y : Float) (a b : ℤ) → count_of (2 ^ d) x ≡ at a → count_of (2 ^ d) y ≡ at b
        → nat_abs (a +ℤ b) < 2 ^ 24 → count_of (2 ^ d) (add binary32 x y) ≡ at (a +ℤ b) }
{}

pub fn difference_on_grid()
    ensures { (d : ℕ) → d ≤ 149 → (x y : Float) (a b : ℤ) → count_of (2 ^ d) x ≡ at a → count_of (2 ^ d) y ≡ at b
        → nat_abs (a -ℤ b) < 2 ^ 24 → count_of (2 ^ d) (sub binary32 x y) ≡ at (a -ℤ b) }
{}

pub fn product_on_grid()
    ensures { (d e : ℕ) → d + e ≤ 149 → (x y : Float) (a b : ℤ) → count_of (2 ^ d) x ≡ at a → count_of (2 ^ e) y ≡ at b
        → nat_abs a * nat_abs b < 2 ^ 24 → count_of (2 ^ (d + e)) (mul binary32 x y) ≡ at (a *ℤ b) }
{}

// 0.5 times a number: as many steps, each half as long.
pub fn half_on_grid()
    ensures { (d : ℕ) → 1 + d ≤ 149 → (x : Float) (a : ℤ) → count_of (2 ^ d) x ≡ at a → nat_abs a < 2 ^ 24
        → count_of (2 ^ (1 + d)) (mul binary32 half x) ≡ at a }
{}

pub fn order_on_grid()
    ensures { (c : ℕ) → 0 < c → (x y : Float) (a b : ℤ) → count_of c x ≡ at a → count_of c y ≡ at b
        → (lt x y ≡ lt_z a b) × (le x y ≡ le_z a b) }
{}
