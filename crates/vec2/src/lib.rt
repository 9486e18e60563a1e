// emath's vec2.rs, as far as the search needs it. Any f32 goes in.
#![tactic(auto)]

ghost use Rattle.std.specs.Prelude.{◌≡◌, ◌+◌, ◌*◌, ◌^◌, ◌<◌, ◌≤◌, ℤ, unsigned_abs};
ghost use Rattle.refusal.specs.Refusal.{none};
ghost use Rattle.floats.specs.Count.{at, count_of};
ghost use Rattle.grid.specs.Grid.{pivot_refusal};
ghost use Rattle.emath.specs.declared.Vec2.{Vec2};
ghost use Rattle.vec2.specs.Length.{whole_nearest, nearest_of, length_of};
ghost use Rattle.vec2.specs.Nearest.{Nearest};

use emath::Vec2;

// x in 64ths, without its sign.
fn steps(x: f32) -> u64
    requires { pivot_refusal x ≡ none }
    ensures { (z : ℤ) → count_of 64 x ≡ at z → result ≡ unsigned_abs z }
{
    std::num::truncating_f32_to_u64(grid::magnitude(x) * 64.0)
}

// The whole number nearest to the square root of n. The root is never halfway between two.
fn whole_nearest(n: u64) -> u64
    ensures { result ≡ whole_nearest n }
{
    let r = root::root(n);
    if n - r * r <= r { r } else { r + 1 }
}

// The f32 nearest to the square root of n, divided by 64: a power of four brings an n above 0 to 47 or 48 binary digits, so that its
// root has the 24 that an f32 keeps.
fn nearest(n: u64) -> f32
    requires { n < 2 ^ 48 }
    ensures { result ≡ nearest_of n }
{
    let t = (u64::leading_zeros(n) - 16) / 2;
    let q = whole_nearest(n << (2 * t));
    (q as f32) / 64.0 / ((1u64 << t) as f32)
}

// Vec2::length: the f32 nearest to the true length. NaN where a part is no multiple of 1/64 within ±32,768.
pub fn length(v: Vec2) -> f32
    ensures { result ≡ length_of v }
{
    if grid::pivot_pos(v.x, v.y).is_err() {
        return f32::NAN;
    }
    let x = steps(v.x);
    let y = steps(v.y);
    if x == 0 {
        return (y as f32) / 64.0;
    }
    if y == 0 {
        return (x as f32) / 64.0;
    }
    nearest(x * x + y * y)
}

// The length of a vector on the grid is strictly nearer to the true one than any other f32, so that one is never halfway between two.
// There is nothing to run.
pub fn length_is_nearest()
    ensures { (v : Vec2) (a b : ℤ) → count_of 64 v.x ≡ at a → count_of 64 v.y ≡ at b → unsigned_abs a ≤ 32768 * 64 → unsigned_abs b ≤ 32768 * 64
        → Nearest (unsigned_abs a * unsigned_abs a + unsigned_abs b * unsigned_abs b) (length_of v) }
{}
