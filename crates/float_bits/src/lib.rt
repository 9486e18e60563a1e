// An f32 as its bit pattern in a u64. Every number and every float is taken, NaNs too.
#![tactic(auto)]

ghost use Rattle.std.specs.Prelude.{◌≡◌, ℕ, false, T, Float, None, Some};
ghost use Rattle.std.specs.Float.{binary32};
ghost use Rattle.std.specs.Float.Ieee.{fits, is_nan};
ghost use Rattle.float_bits.specs.Pattern.{float_of, bits_of};

use std::num::f32_from_bits_with_nan;

// The float of a pattern, NaN for each NaN pattern; NaN also for a number that is no pattern, from 2^32 on. std's function goes to `map_or` in a closure:
// it was tried by its name alone, and the proof did not close.
#[tactic(auto, using(crate::proofs::Laws::past_patterns), unfolding(crate::specs::Pattern::float_of))]
pub fn from_bits(n: u64) -> f32
    ensures { result ≡ float_of n }
{
    u32::try_from(n).map_or(f32::NAN, |bits| f32_from_bits_with_nan(bits))
}

// The pattern of a float, and None for a NaN: every NaN is one and the same.
#[tactic(auto, unfolding(crate::specs::Pattern::bits_of))]
pub fn to_bits(x: f32) -> Option<u64>
    ensures { result ≡ bits_of x }
{
    (!x.is_nan()).then(|| u64::from(x.to_bits()))
}

// A float that is no NaN is the float of its pattern, and a pattern that is no NaN's is the pattern of its float.
// There is nothing to run.
pub fn reads_back()
    ensures { ((x : Float) → T (fits binary32 x) → (n : ℕ) → bits_of x ≡ Some n → float_of n ≡ x)
        × ((n : ℕ) → is_nan (float_of n) ≡ false → bits_of (float_of n) ≡ Some n) }
{}
