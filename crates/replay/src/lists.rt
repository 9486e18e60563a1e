// `begin` and `end`, which carry a list.
use crate::forms::Put;
use crate::line::Line;
use focus::{Events, Used};
use input::Event;
use memory_rules::Memory;
use refusal::{EVENTS, USED};

// An event as four numbers. Of a key the third is 1 where it is pressed, and 2 more where it is a repeat.
fn numbers(event: Event) -> [u64; 4] {
    match event {
        Event::Key {
            key,
            pressed,
            repeat,
            modifiers,
        } => [
            1,
            key,
            u64::from(pressed) + 2 * u64::from(repeat),
            modifiers,
        ],
        Event::AccessKitFocus(id) => [2, id, 0, 0],
        Event::Pointer(_, _) | Event::Zoom(_) | Event::Other => [3, 0, 0, 0],
    }
}

// `begin N EVENT..`: of more events than there is room for only their number counts.
pub fn begin(line: &mut Line, m: &mut Memory) -> Option<()> {
    let count = line.words.number()? as usize;
    let mut events = Events {
        words: [0; 4 * EVENTS],
        count,
    };
    let (rows, _) = events.words.as_chunks_mut::<4>();
    for i in 0..count {
        let event = line.words.event()?;
        if let Some(row) = rows.get_mut(i) {
            *row = numbers(event);
        }
    }
    line.words.end()?;
    memory::begin_pass(*m, events)
        .map(|after| *m = after)
        .put(line.answer);
    Some(())
}

// `end N (ID X0 Y0 X1 Y1)..`: likewise.
pub fn end(line: &mut Line, m: &mut Memory) -> Option<()> {
    let count = line.words.number()? as usize;
    let mut used = Used {
        ids: [0; USED],
        corners: [0.0; 4 * USED],
        count,
    };
    let (corners, _) = used.corners.as_chunks_mut::<4>();
    for i in 0..count {
        let id = line.words.number()?;
        let rect = line.words.rect()?;
        if let (Some(held), Some(row)) = (used.ids.get_mut(i), corners.get_mut(i)) {
            *held = id;
            *row = rect.into();
        }
    }
    line.words.end()?;
    memory::end_pass(*m, used)
        .map(|after| *m = after)
        .put(line.answer);
    Some(())
}
