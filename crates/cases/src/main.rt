// Runs the leaves at their limits and prints what each call answers, a line each; the file stdout has what must come out.
// A refusal is printed as 'no' and its number.
#![tactic(auto)]

mod geometry;
mod outcome;
mod registry;
mod searches;
mod stack;

use crate::outcome::say;
use input::{Event, EventFilter};
use std::io;

// A key and its modifiers by their codes.
fn press(key: u64, modifiers: u64) -> Event {
    Event::Key {
        key,
        pressed: true,
        repeat: false,
        modifiers,
    }
}

fn keys(rt: &impl Print) -> io::Result<()> {
    let cases = [
        ("key 144, filters off", press(144, 0)),
        ("key 5, filters off", press(5, 0)),
        ("key 145", press(145, 0)),
        ("key 2^64 - 1", press(u64::MAX, 0)),
        ("modifiers 31", press(0, 31)),
        ("modifiers 32", press(0, 32)),
        ("focus request of 0", Event::AccessKitFocus(0)),
        ("focus request of 1", Event::AccessKitFocus(1)),
        ("pointer at NaN", Event::Pointer(f32::NAN, 0.0)),
    ];
    for (text, event) in cases {
        say(rt, text, EventFilter::new().matches(event))?;
    }
    Ok(())
}

fn main(rt: HostRuntime) -> io::Result<()> {
    geometry::geometry(&rt)?;
    keys(&rt)?;
    searches::searches(&rt)?;
    registry::registry(&rt)?;
    stack::stack(&rt)
}
