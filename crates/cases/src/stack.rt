// The stack at its limit of 64 layers, by value: what each call answers, and which layer is then on top.
use crate::outcome::{last, say_list};
use area::AreaState;
use areas::Areas;
use layers::LayerId;
use refusal::Refusal;
use std::io;

fn layer(id: u64) -> LayerId {
    LayerId { order: 1, id }
}

fn show(areas: Areas, id: u64) -> Result<Areas, Refusal> {
    areas.set_state(layer(id), AreaState::new())
}

// Shows the layers from 1 to n.
fn filled(n: u64) -> Result<Areas, Refusal> {
    let mut areas = Areas::new();
    for id in 1..=n {
        areas = show(areas, id)?;
    }
    Ok(areas)
}

// What a call on `before` answered, and how many layers the stack then has.
fn tell(
    rt: &impl Print,
    text: &str,
    before: &Areas,
    called: &Result<Areas, Refusal>,
) -> io::Result<()> {
    let (areas, answer) = match called {
        Ok(after) => (after, Ok(())),
        Err(refusal) => (before, Err(*refusal)),
    };
    let list = areas.order();
    let last = last(&list.layers, list.count).map_or(0, |layer| layer.id);
    say_list(rt, text, answer, list.count, "layers", last)
}

// The same after the end of the pass.
fn tell_ended(
    rt: &impl Print,
    text: &str,
    before: &Areas,
    called: Result<Areas, Refusal>,
) -> io::Result<()> {
    tell(rt, text, before, &called.map(|areas| areas.end_pass()))
}

pub fn stack(rt: &impl Print) -> io::Result<()> {
    let called = filled(64);
    tell(rt, "the 64th layer", &Areas::new(), &called)?;
    let (Ok(full), Ok(fewer)) = (called, filled(63)) else {
        return Ok(());
    };
    of_a_full_one(rt, &full)?;
    tell(
        rt,
        "with 63, a pair of two new",
        &fewer,
        &fewer.set_sublayer(layer(64), layer(65)),
    )?;
    tell(
        rt,
        "with 63, a new child of itself",
        &fewer,
        &fewer.set_sublayer(layer(64), layer(64)),
    )?;
    tell(rt, "after reset, a new one", &full, &show(full.reset(), 65))
}

fn of_a_full_one(rt: &impl Print, full: &Areas) -> io::Result<()> {
    tell(rt, "a 65th", full, &show(*full, 65))?;
    tell(rt, "the first once more", full, &show(*full, 1))?;
    tell(rt, "a 65th raised", full, &full.move_to_top(layer(65)))?;
    tell_ended(
        rt,
        "the first raised, end",
        full,
        full.move_to_top(layer(1)),
    )?;
    tell(
        rt,
        "a new child",
        full,
        &full.set_sublayer(layer(1), layer(65)),
    )?;
    tell(
        rt,
        "a new child of itself",
        full,
        &full.set_sublayer(layer(65), layer(65)),
    )?;
    tell_ended(
        rt,
        "the first a child of the second, end",
        full,
        full.set_sublayer(layer(2), layer(1)),
    )
}
