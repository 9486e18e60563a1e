// Tables in lent slices: where a number stands, a row put at a place, a row taken out of a tail. Total for every place and length.
#![tactic(auto)]

ghost use Rattle.std.specs.Prelude.{◌≡◌, ◌+◌, leb, length, get_or, drop, set};
ghost use Rattle.tables.specs.Tables.{first_from, last_below, nearest, after, put_at, closed};

// The last place of x below n.
pub fn find_below(xs: &[u64], n: usize, x: u64) -> Option<usize>
    ensures { result ≡ last_below xs.now n x }
{
    xs[..n.min(xs.len())].iter().rposition(|&y| y == x)
}

// The first place of x from n on.
pub fn find_from(xs: &[u64], n: usize, x: u64) -> Option<usize>
    ensures { result ≡ first_from n (drop n xs.now) x }
{
    let i = xs.get(n..)?.iter().position(|&y| y == x)?;
    Some(n + i)
}

// The last place of x below n, or else the first from n on: of a number that stands once, its place, soon found where n is little above it.
#[tactic(auto, unfolding(crate::specs::Tables::nearest))]
pub fn find(xs: &[u64], n: usize, x: u64) -> Option<usize>
    ensures { result ≡ nearest xs.now n x }
{
    find_below(xs, n, x).or_else(|| find_from(xs, n, x))
}

// The first place of x from n on, or else the last below n: soon found where n is little below it.
#[tactic(auto, unfolding(crate::specs::Tables::after))]
pub fn find_after(xs: &[u64], n: usize, x: u64) -> Option<usize>
    ensures { result ≡ after xs.now n x }
{
    find_from(xs, n, x).or_else(|| find_below(xs, n, x))
}

// What stands at a place, or d past the end.
pub fn at_or(xs: &[u64], at: usize, d: u64) -> u64
    ensures { result ≡ get_or xs.now at d }
{
    xs.get(at).copied().unwrap_or(d)
}

// Puts a number at a place; past the end it changes nothing.
pub fn put_one(xs: &mut [u64], at: usize, x: u64)
    ensures { xs.new ≡ set xs.old at x }
{
    if at < xs.len() {
        xs[at] = x;
    }
}

fn fits(at: usize, n: usize, room: usize) -> bool
    ensures { result ≡ leb (at + n) room }
{
    at <= room && n <= room - at
}

// Puts a row at a place, where all of it fits.
#[tactic(auto, unfolding(crate::specs::Tables::put_at))]
pub fn put<T: Copy>(xs: &mut [T], at: usize, row: &[T])
    ensures { xs.new ≡ put_at xs.old at row.now }
{
    if fits(at, row.len(), xs.len()) {
        xs[at..at + row.len()].copy_from_slice(row);
    }
}

// Takes the first `by` out: the others move down, and the last `by` places keep what they had. LLVM makes a memmove of this loop, and none of std's `copy_within`,
// with which a widget's move to the top over 256 rows took 1.4 times as long.
pub fn close<T: Copy>(tail: &mut [T], by: usize)
    ensures { tail.new ≡ closed by tail.old }
{
    for j in by..tail.len() {
        tail[j - by] = tail[j];
    }
}
