// The whole part of a square root.
#![tactic(auto)]

ghost use Rattle.std.specs.Prelude.{◌≡◌, ℕ};
ghost use Rattle.root.specs.Root.{IsRoot};

// Two binary digits of n for each of its root. There is one such number.
pub fn root(n: u64) -> u64
    ensures { IsRoot n result × ((s : ℕ) → IsRoot n s → s ≡ result) }
{
    if n == 0 {
        return 0;
    }
    let low = 2 * root(n / 4);
    let high = low + 1;
    if high * high <= n {
        return high;
    }
    low
}
