// emath's gui_rounding.rs: positions are rounded to 1/32 of a point.
#![tactic(auto)]

ghost use Rattle.std.specs.Prelude.{◌≡◌, ◌^◌, ◌<◌, ℤ, unsigned_abs, Float};
ghost use Rattle.floats.specs.Count.{at, count_of};
ghost use Rattle.gui_rounding.specs.GuiRounding.{round_away, round_ui, half_away};

const GUI_ROUNDING: f32 = 0.03125;

// 2^23: from here on an f32 has no fraction.
const ALL_WHOLE_FROM: f32 = 8388608.0;

// Ties go away from zero, and the sign of a zero stays. A whole number, as most are here, is found
// by a sum that has no room for a fraction, and handed back: that is much sooner done.
pub fn round(x: f32) -> f32
    ensures { result ≡ round_away x }
{
    let size = x.abs();
    if (size + ALL_WHOLE_FROM) - ALL_WHOLE_FROM == size {
        x
    } else {
        x.round()
    }
}

pub fn round_ui(x: f32) -> f32
    ensures { result ≡ round_ui x }
{
    round(x / GUI_ROUNDING) * GUI_ROUNDING
}

// On the grid: steps of 1/64 become steps of 1/32, a tie away from zero. There is nothing to run.
pub fn round_ui_on_grid()
    ensures { (x : Float) (z : ℤ) → count_of 64 x ≡ at z → unsigned_abs z < 2 ^ 24
        → count_of 32 (round_ui x) ≡ at (half_away z) }
{}
