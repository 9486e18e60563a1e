// The words of a line, read one after the other by their kinds. None is a word that does not fit its kind.
use crate::library;
use area::{Align2, AreaState};
use emath::{Pos2, Rect, Vec2};
use input::{Event, EventFilter};
use layers::LayerId;
use widget_rect::WidgetRect;

// The longest name of a call, `focusable_widgets_in_layer`, has so many bytes.
const LONGEST_NAME: usize = 26;

#[derive(Clone, Copy)]
pub struct Words<'a> {
    line: &'a [u8],
    at: usize,
}

impl<'a> Words<'a> {
    pub fn of(line: &'a [u8]) -> Words<'a> {
        Words { line, at: 0 }
    }

    // The line's first word; of one that is longer than every name only the front, which is no
    // name either.
    pub fn name(&mut self) -> &'a [u8] {
        let front = &self.line[..self.line.len().min(LONGEST_NAME + 1)];
        self.at = text::find(front, 0, b' ');
        &front[..self.at]
    }

    // The end of the line.
    pub fn end(self) -> Option<()> {
        (self.at == self.line.len()).then_some(())
    }

    // A space and a letter. What follows it is the next word's, or the line's end.
    fn letter(&mut self) -> Option<u8> {
        let at = text::skip(self.line, self.at, b' ')?;
        let letter = *self.line.get(at)?;
        self.at = at + 1;
        Some(letter)
    }

    pub fn number(&mut self) -> Option<u64> {
        let (number, next) = text::argument(self.line, self.at)?;
        self.at = next;
        Some(number)
    }

    pub fn flag(&mut self) -> Option<bool> {
        match self.number()? {
            0 => Some(false),
            1 => Some(true),
            _ => None,
        }
    }

    // A float is its bit pattern.
    fn float(&mut self) -> Option<f32> {
        let pattern = u32::try_from(self.number()?).ok()?;
        Some(float_bits::from_bits(u64::from(pattern)))
    }

    pub fn pos(&mut self) -> Option<Pos2> {
        Some(Pos2 {
            x: self.float()?,
            y: self.float()?,
        })
    }

    pub fn rect(&mut self) -> Option<Rect> {
        Some(Rect {
            min: self.pos()?,
            max: self.pos()?,
        })
    }

    // A flag and two floats, which count only where it is set.
    pub fn held_pos(&mut self) -> Option<Option<Pos2>> {
        let held = self.flag()?;
        let pos = self.pos()?;
        Some(held.then_some(pos))
    }

    pub fn layer(&mut self) -> Option<LayerId> {
        Some(LayerId {
            order: self.number()?,
            id: self.number()?,
        })
    }

    // The nine words of a STATE.
    pub fn state(&mut self) -> Option<AreaState> {
        Some(AreaState {
            pivot_pos: library::pivot_pos(self.held_pos()?),
            pivot: Align2 {
                x: self.number()?,
                y: self.number()?,
            },
            size: self.held_pos()?.map(|s| Vec2 { x: s.x, y: s.y }),
            interactable: self.flag()?,
        })
    }

    // The record of `insert`.
    pub fn widget(&mut self) -> Option<WidgetRect> {
        Some(WidgetRect {
            id: self.number()?,
            parent_id: self.number()?,
            layer_id: self.layer()?,
            rect: self.rect()?,
            interact_rect: self.rect()?,
            sense: self.number()?,
            enabled: self.flag()?,
            visible: self.flag()?,
        })
    }

    pub fn filter(&mut self) -> Option<EventFilter> {
        Some(EventFilter {
            tab: self.flag()?,
            horizontal_arrows: self.flag()?,
            vertical_arrows: self.flag()?,
            escape: self.flag()?,
        })
    }

    // A letter for the kind of event, and its words.
    pub fn event(&mut self) -> Option<Event> {
        match self.letter()? {
            b'k' => self.key(),
            b'a' => Some(Event::AccessKitFocus(self.number()?)),
            b'p' => Some(Event::Pointer(self.float()?, self.float()?)),
            b'z' => Some(Event::Zoom(self.float()?)),
            b'o' => Some(Event::Other),
            _ => None,
        }
    }

    fn key(&mut self) -> Option<Event> {
        Some(Event::Key {
            key: self.number()?,
            pressed: self.flag()?,
            repeat: self.flag()?,
            modifiers: self.number()?,
        })
    }
}
