// What the calls leave: the memory and the registry.
use crate::answer::Answer;
use crate::line::Line;
use crate::registry::Registry;
use crate::{lists, memory_calls, state};
use memory_rules::Memory;

#[derive(Clone, Copy)]
pub struct Session {
    memory: Memory,
    registry: Registry,
}

impl Session {
    pub fn new() -> Session {
        Session {
            memory: memory::new(),
            registry: Registry::new(),
        }
    }

    // What a line is answered: `bad` where it does not fit the protocol, or its answer the room.
    pub fn answer(&mut self, line: &[u8], answer: &mut Answer) {
        answer.clear();
        let called = self.call(&mut Line::of(line, answer));
        answer.end_line();
        if called.is_none() || !answer.fits() {
            answer.clear();
            answer.word(b"bad");
            answer.end_line();
        }
    }

    // None is a line that does not fit the protocol. It changes nothing.
    fn call(&mut self, line: &mut Line) -> Option<()> {
        match line.name {
            b"new" => {
                line.words.end()?;
                self.memory = memory::new();
                self.registry.clear();
                line.answer.word(b"ok");
                Some(())
            }
            b"begin" => lists::begin(line, &mut self.memory),
            b"end" => lists::end(line, &mut self.memory),
            b"insert"
            | b"clear"
            | b"order"
            | b"widget"
            | b"contains"
            | b"get_layer"
            | b"focusable_widgets_in_layer" => self.registry.call(line),
            b"state" => {
                line.words.end()?;
                state::put_memory(&self.memory, line.answer);
                self.registry.put_state(line.answer);
                Some(())
            }
            _ => memory_calls::call(line, &mut self.memory),
        }
    }
}
