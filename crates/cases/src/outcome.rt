// What a call comes to, and how it is told.
use refusal::Refusal;
use std::io;

#[derive(Clone, Copy)]
pub enum Outcome {
    Taken,
    Is(bool),
    Elsewhere,
    Refused(Refusal),
}

impl<T: Into<Outcome>> From<Result<T, Refusal>> for Outcome {
    fn from(called: Result<T, Refusal>) -> Outcome {
        match called {
            Ok(value) => value.into(),
            Err(refusal) => Outcome::Refused(refusal),
        }
    }
}

// A call that has no value.
impl From<()> for Outcome {
    fn from(_: ()) -> Outcome {
        Outcome::Taken
    }
}

impl From<bool> for Outcome {
    fn from(is: bool) -> Outcome {
        Outcome::Is(is)
    }
}

pub fn say<T: Into<Outcome>>(rt: &impl Print, text: &str, outcome: T) -> io::Result<()> {
    match outcome.into() {
        Outcome::Taken => println!(rt; "{text}: ok"),
        Outcome::Is(is) => println!(rt; "{text}: {is}"),
        Outcome::Elsewhere => println!(rt; "{text}: elsewhere"),
        Outcome::Refused(refusal) => {
            let n = u64::from(refusal);
            println!(rt; "{text}: no {n}")
        }
    }
}

// What a call answers, how many entries the list then has, and the last of them.
pub fn say_list(
    rt: &impl Print,
    text: &str,
    checked: Result<(), Refusal>,
    count: usize,
    of: &str,
    last: u64,
) -> io::Result<()> {
    match checked.map_err(u64::from) {
        Ok(()) => println!(rt; "{text}: taken, {count} {of}, the last is {last}"),
        Err(n) => println!(rt; "{text}: no {n}, {count} {of}, the last is {last}"),
    }
}

// The last of the first n.
pub fn last<T: Copy>(xs: &[T], n: usize) -> Option<T> {
    xs.get(..n)?.last().copied()
}
