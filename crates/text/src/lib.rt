// Words and numbers of a line of bytes, read at a place of it, and put at a place of a lent buffer.
// Every function is total, for every slice and every place: past the end no byte stands, and no room is left. A place goes in and the next one comes out, so that
// slice and place are two; crate `replay` keeps them in one. Numbers go to a lent slice, and std's `Display` to a formatter.
#![tactic(auto)]

ghost use Rattle.std.specs.Prelude.{◌≡◌, ℕ, ◌+◌, ◌-◌, ◌≤◌, ◌%◌, max, Some, List, [], ◌++◌, length, drop, get_or};
ghost use Rattle.text.specs.Put.{place_after, put_on, decimal_of};
ghost use Rattle.text.specs.Read.{digits_of, value_at, number_at, skip_at, word_at, argument_at, find_from};

// The byte at a place, and 0 past the end.
pub fn byte(s: &[u8], at: usize) -> u8
    ensures { result ≡ get_or s.now at 0 }
{
    s.get(at).copied().unwrap_or(0)
}

// The value of the digits at a place, as many as stand there, be it none, and the place after them.
fn digits(s: &[u8], at: usize) -> Option<(u64, usize)>
    ensures { result ≡ value_at at (digits_of (drop at s.now)) }
{
    let mut v: u64 = 0;
    for i in at..s.len() {
        let b = s[i];
        if !b.is_ascii_digit() {
            return Some((v, i));
        }
        v = v.checked_mul(10)?.checked_add(u64::from(b - b'0'))?;
    }
    Some((v, at.max(s.len())))
}

// A decimal number at a place, and the place after it: all the digits that stand there. None where there is no digit,
// where a 0 stands before others (`01`), and past 2^64 - 1. The test says what is refused, which `then_some` would have to turn round.
pub fn number(s: &[u8], at: usize) -> Option<(u64, usize)>
    ensures { result ≡ number_at s.now at }
{
    let (v, next) = digits(s, at)?;
    if next <= at || next - at > 1 && byte(s, at) == b'0' {
        return None;
    }
    Some((v, next))
}

// The place after a byte, where it stands there.
pub fn skip(s: &[u8], at: usize, b: u8) -> Option<usize>
    ensures { result ≡ skip_at s.now at b }
{
    word(s, at, &[b])
}

// The place after a word, where all its bytes stand there. The sum may be too large where they don't; made in a closure for `then`, its proof did not close.
pub fn word(s: &[u8], at: usize, w: &[u8]) -> Option<usize>
    ensures { result ≡ word_at s.now at w.now }
{
    let rest = &s[at.min(s.len())..];
    if rest.starts_with(w) {
        Some(at + w.len())
    } else {
        None
    }
}

// A space and a number.
pub fn argument(s: &[u8], at: usize) -> Option<(u64, usize)>
    ensures { result ≡ argument_at s.now at }
{
    number(s, skip(s, at, b' ')?)
}

// The first place from `at` on that has the byte b, and the end where none has; `at` itself past the end.
pub fn find(s: &[u8], at: usize, b: u8) -> usize
    ensures { (result ≡ find_from s.now at b) × (at ≤ result) × (result ≤ max at (length s.now)) }
{
    let rest = &s[at.min(s.len())..];
    match rest.iter().position(|&c| c == b) {
        Some(i) => at + i,
        None => at.max(s.len()),
    }
}

// Copies s to a place where all of it fits, and else writes nothing. Answers the place after it in both cases:
// one past the end says that it did not fit, and nothing that is put there later is written.
pub fn put_bytes(out: &mut [u8], at: usize, s: &[u8]) -> usize
    ensures { (result ≡ place_after at s.now) × (out.new ≡ put_on out.old at s.now) }
{
    let next = at.saturating_add(s.len());
    if next <= out.len() {
        out[at..next].copy_from_slice(s);
    }
    next
}

// The decimal text of a number, written at the end of an array.
fn decimal(n: u64, text: &mut [u8; 20]) -> &[u8]
    ensures { result.now ≡ decimal_of n }
{
    let mut rest = n;
    for i in (0..20).rev() {
        text[i] = b'0' + (rest % 10) as u8;
        rest /= 10;
        if rest == 0 {
            return &text[i..];
        }
    }
    text
}

// Puts the decimal text of n as put_bytes does.
pub fn put_number(out: &mut [u8], at: usize, n: u64) -> usize
    ensures { (result ≡ place_after at (decimal_of n)) × (out.new ≡ put_on out.old at (decimal_of n)) }
{
    put_bytes(out, at, decimal(n, &mut [0; 20]))
}

// What put_number puts, number reads: the decimal text of n, where no digit follows it. There is nothing to run.
pub fn reads_back()
    ensures { (n : ℕ) → n ≤ 18446744073709551615 → (before after : List ℕ) → digits_of after ≡ []
        → number_at (before ++ (decimal_of n ++ after)) (length before) ≡ Some (n, length before + length (decimal_of n)) }
{}
