// The directional search at its limits: points, seen from a point, and what is found.
use emath::Rect;
use input::{DOWN, LEFT, NEXT, RIGHT, UP};
use std::io;

fn tell(rt: &impl Print, text: &str, found: u64) -> io::Result<()> {
    match found {
        0 => println!(rt; "{text}: nothing"),
        id => println!(rt; "{text}: {id}"),
    }
}

fn from(at: f32) -> Rect {
    Rect::from([at; 4])
}

// From the point (at, at), one field with its low corner at (x, y), so wide and so high; the direction by its code.
fn one(at: f32, x: f32, y: f32, side: f32, direction: u64) -> u64 {
    search::find(&[7], &[x, y, x + side, y + side], 9, from(at), direction)
}

// From (0, 0), a point of the id a and a point of the id b.
fn two(a: u64, x: f32, y: f32, b: u64, u: f32, v: f32) -> u64 {
    search::find(&[a, b], &[x, y, x, y, u, v, u, v], 9, from(0.0), RIGHT)
}

fn short() -> u64 {
    let rects = [1.0, 0.0, 1.0, 0.0, 2.0, 0.0, 2.0];
    search::find(&[0, 8], &rects, 9, from(0.0), RIGHT)
}

fn of_two(rt: &impl Print) -> io::Result<()> {
    let cases = [
        (
            "right, 1 at (5, 0), 2 at (4, 1)",
            two(1, 5.0, 0.0, 2, 4.0, 1.0),
        ),
        (
            "right, 1 at (1, 1), 2 at (1, -1)",
            two(1, 1.0, 1.0, 2, 1.0, -1.0),
        ),
        (
            "right, 2 at (1, 1), 1 at (1, -1)",
            two(2, 1.0, 1.0, 1, 1.0, -1.0),
        ),
        (
            "right, the focused 9 at (1, 0), 1 at (2, 0)",
            two(9, 1.0, 0.0, 1, 2.0, 0.0),
        ),
        (
            "right, a free place at (1, 0), 1 at (2, 0)",
            two(0, 1.0, 0.0, 1, 2.0, 0.0),
        ),
        (
            "right, a free place, and one without its bottom edge",
            short(),
        ),
    ];
    for (text, found) in cases {
        tell(rt, text, found)?;
    }
    Ok(())
}

fn of_one(rt: &impl Print) -> io::Result<()> {
    let cases = [
        ("down, 7 at (1, 1)", one(0.0, 1.0, 1.0, 0.0, DOWN)),
        ("up, 7 at (1, 1)", one(0.0, 1.0, 1.0, 0.0, UP)),
        ("left, 7 at (-1, 1)", one(0.0, -1.0, 1.0, 0.0, LEFT)),
        ("right, 7 at (0, 0)", one(0.0, 0.0, 0.0, 0.0, RIGHT)),
        ("next, 7 at (1, 0)", one(0.0, 1.0, 0.0, 0.0, NEXT)),
    ];
    for (text, found) in cases {
        tell(rt, text, found)?;
    }
    Ok(())
}

fn at_the_limits(rt: &impl Print) -> io::Result<()> {
    let cases = [
        (
            "right, from one corner of the grid 7 at the other",
            one(-16384.0, 16384.0, 16384.0, 0.0, RIGHT),
        ),
        (
            "right, 7 at 185,923 64ths on both axes",
            one(0.0, 2905.03125, 2905.03125, 0.03125, RIGHT),
        ),
        (
            "right, 7 at 185,925 64ths on both axes",
            one(0.0, 2905.0625, 2905.0625, 0.03125, RIGHT),
        ),
        ("right, 7 off the grid", one(0.0, 0.01, 0.0, 0.0, RIGHT)),
        ("right, 7 at NaN", one(0.0, f32::NAN, 0.0, 0.0, RIGHT)),
        (
            "right, from NaN 7 at (1, 0)",
            one(f32::NAN, 1.0, 0.0, 0.0, RIGHT),
        ),
    ];
    for (text, found) in cases {
        tell(rt, text, found)?;
    }
    Ok(())
}

pub fn searches(rt: &impl Print) -> io::Result<()> {
    of_two(rt)?;
    of_one(rt)?;
    at_the_limits(rt)
}
