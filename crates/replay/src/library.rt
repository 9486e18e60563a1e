// The library's own forms: a pivot position, and lists that are arrays with a count.
use crate::answer::Answer;
use crate::forms::Put;
use area::PivotPos;
use areas::{Layers, Window, Windows};
use emath::{Pos2, Vec2};

pub fn pivot_pos(pos: Option<Pos2>) -> PivotPos {
    match pos {
        Some(p) => PivotPos::At(p.x, p.y),
        None => PivotPos::Absent,
    }
}

// A flag and two floats, 0 where they are not held.
pub fn put_held(held: Option<Vec2>, answer: &mut Answer) {
    let v = held.unwrap_or(Vec2 { x: 0.0, y: 0.0 });
    held.is_some().put(answer);
    v.x.put(answer);
    v.y.put(answer);
}

pub fn put_pivot_pos(pos: PivotPos, answer: &mut Answer) {
    match pos {
        PivotPos::At(x, y) => put_held(Some(Vec2 { x, y }), answer),
        PivotPos::Absent => put_held(None, answer),
    }
}

// How many of an array are listed, and each.
pub fn put_listed<T: Put + Copy>(n: usize, items: &[T], answer: &mut Answer) {
    n.put(answer);
    for item in items.iter().take(n) {
        item.put(answer);
    }
}

impl Put for Layers {
    fn put(self, answer: &mut Answer) {
        put_listed(self.count, &self.layers, answer);
    }
}

impl Put for Windows {
    fn put(self, answer: &mut Answer) {
        put_listed(self.count, &self.windows, answer);
    }
}

// egui's pair, of which the protocol shows the layer.
impl Put for Window {
    fn put(self, answer: &mut Answer) {
        self.layer.put(answer);
    }
}
