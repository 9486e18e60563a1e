// The refusals of document 01 and the limits behind them, each under one name, and how refusals join.
#![tactic(auto)]

ghost use Rattle.std.specs.Prelude.{◌≡◌, ◌≤◌, ℕ, cond};
ghost use Rattle.refusal.specs.Refusal.{none, bad_family, number_of, number_in, answer, lowest, id_refusal, code_refusal};

// Why a call is refused: an id is 0, a code passes the last of its kind, a number is off its grid, corners or a size are the wrong way round, a list
// is too long or names an id twice, a table has no place left, a widget's record is of another layer than the call, parent and child cannot be a pair, a pair does not fit the other pairs.
// The numbers are document 01's.
#[derive(Clone, Copy, Debug, PartialEq, Eq)]
pub enum Refusal {
    ZeroId = 1,
    Code = 2,
    OffGrid = 3,
    Reversed = 4,
    BadList = 5,
    Full = 6,
    OtherLayer = 7,
    BadPair = 8,
    BadFamily = 9,
}

impl From<Refusal> for u64 {
    ghost from_gives = { λ r n. n ≡ number_of r };

    // The number of document 01.
    fn from(r: Refusal) -> u64 {
        r as u64
    }
}

// The number of what a check or a call answers, for programs in other languages: 0 where it is taken.
pub fn number<A>(answer: &Result<A, Refusal>) -> u64
    ensures { result ≡ number_in answer.now }
{
    match answer {
        Ok(_) => NONE,
        Err(r) => u64::from(*r),
    }
}

// Taken where a test holds, and else refused.
pub fn check(holds: bool, refusal: Refusal) -> Result<(), Refusal>
    ensures { number_in result ≡ cond holds none (number_of refusal) }
{
    if holds { Ok(()) } else { Err(refusal) }
}

// By their numbers: of a derived order the proof would have to go through all 81 pairs.
fn lower(r: Refusal, s: Refusal) -> Refusal
    ensures { number_of result ≡ lowest (number_of r) (number_of s) }
{
    if u64::from(s) < u64::from(r) { s } else { r }
}

// Both of two checks: of two refusals the lower.
pub fn both(a: Result<(), Refusal>, b: Result<(), Refusal>) -> Result<(), Refusal>
    ensures { number_in result ≡ lowest (number_in a) (number_in b) }
{
    match (a, b) {
        (Err(r), Err(s)) => Err(lower(r, s)),
        (Err(r), Ok(())) => Err(r),
        (Ok(()), b) => b,
    }
}

// The same of two numbers, any two; 0 is none.
pub fn lowest(a: u64, b: u64) -> u64
    ensures { result ≡ lowest a b }
{
    if a == NONE {
        return b;
    }
    if b == NONE {
        return a;
    }
    if a < b { a } else { b }
}

pub fn check_id(id: u64) -> Result<(), Refusal>
    ensures { number_in result ≡ id_refusal id }
{
    check(id != 0, Refusal::ZeroId)
}

// A code of a kind whose last one is `last`.
pub fn check_code(code: u64, last: u64) -> Result<(), Refusal>
    ensures { number_in result ≡ code_refusal code last }
{
    check(code <= last, Refusal::Code)
}

// An answer by a number of the table tells that number, so a contract that says `answer n` says by what number the call is refused. There is nothing to run.
pub fn answer_tells_number<A>()
    ensures { (a : A) (n : ℕ) → n ≤ bad_family → number_in (answer n a) ≡ n }
{}

// The number of a call that is taken, as C reads it.
pub const NONE: u64 = 0;

// How many layers the stack holds, widgets the registry and ids the focus cache; how many events begin a pass and used entries end it.
pub const LAYERS: usize = 64;

pub const WIDGETS: usize = 256;

pub const CACHED: usize = 256;

pub const EVENTS: usize = 64;

pub const USED: usize = 256;

// The last code of each kind.
pub const LAST_ORDER: u64 = 4;

pub const LAST_KEY: u64 = 144;

pub const LAST_DIRECTION: u64 = 6;

pub const LAST_MODIFIERS: u64 = 31;

pub const LAST_PIVOT: u64 = 2;

pub const LAST_SENSE: u64 = 7;
