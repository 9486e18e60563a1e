// Numbers on and off the grid, rectangles, and areas by their pivots.
use crate::outcome::{Outcome, say};
use area::{Align2, AreaState, PivotPos};
use emath::{Pos2, Rect, Vec2};
use refusal::Refusal;
use std::io;

fn corners(rt: &impl Print) -> io::Result<()> {
    let cases = [
        ("corner 16384", 16384.0),
        ("corner -16384", -16384.0),
        ("corner 16384.03125", 16384.03125),
        ("corner 1/32", 0.03125),
        ("corner 1/64", 0.015625),
        ("corner -0.0", -0.0),
        ("corner NaN", f32::NAN),
        ("corner infinity", f32::INFINITY),
    ];
    for (text, corner) in cases {
        say(rt, text, grid::corner(corner))?;
    }
    Ok(())
}

fn pivots(rt: &impl Print) -> io::Result<()> {
    let cases = [
        ("pivot position 32768, 1/64", 32768.0, 0.015625),
        ("pivot position 32768.015625, 0", 32768.015625, 0.0),
        ("pivot position 0, 1/128", 0.0, 0.0078125),
    ];
    for (text, x, y) in cases {
        say(rt, text, grid::pivot_pos(x, y))?;
    }
    Ok(())
}

fn sizes(rt: &impl Print) -> io::Result<()> {
    let cases = [
        ("size 16384, 0", 16384.0, 0.0),
        ("size 16384.03125, 0", 16384.03125, 0.0),
        ("size -1/32, 0", -0.03125, 0.0),
        (
            "size -2^120, 0",
            -1329227995784915872903807060280344576.0,
            0.0,
        ),
        ("size -1/64, 0", -0.015625, 0.0),
        ("size -1, 1/64", -1.0, 0.015625),
        ("size -infinity, 0", f32::NEG_INFINITY, 0.0),
        ("size -0.0, 0", -0.0, 0.0),
    ];
    for (text, x, y) in cases {
        say(rt, text, grid::size(x, y))?;
    }
    Ok(())
}

fn between(x0: f32, y0: f32, x1: f32, y1: f32) -> Rect {
    Rect::from([x0, y0, x1, y1])
}

fn rects(rt: &impl Print) -> io::Result<()> {
    let cases = [
        ("rect 0 0 0 0", between(0.0, 0.0, 0.0, 0.0)),
        ("rect 0 1 1 0", between(0.0, 1.0, 1.0, 0.0)),
        ("rect 1 0 0 1/64", between(1.0, 0.0, 0.0, 0.015625)),
    ];
    for (text, rect) in cases {
        say(rt, text, grid::rect(rect))?;
    }
    let r = between(0.0, 0.0, 4.0, 2.0);
    let cases = [
        ("0 0 4 2 contains 4, 2", 4.0),
        ("0 0 4 2 contains 4.5, 2", 4.5),
        ("0 0 4 2 contains NaN, 2", f32::NAN),
    ];
    for (text, x) in cases {
        say(rt, text, r.contains(Pos2 { x, y: 2.0 }))?;
    }
    Ok(())
}

// An area whose axes differ: on the y axis it is at y by its high end, 1 high.
fn area_at(x: f32, code: u64, width: f32, y: f32) -> AreaState {
    AreaState {
        pivot_pos: PivotPos::At(x, y),
        pivot: Align2 { x: code, y: 2 },
        size: Some(Vec2 { x: width, y: 1.0 }),
        interactable: true,
    }
}

// Coordinate by coordinate, since emath derives no `==` for `Pos2`.
fn is_at(p: Pos2, x: f32, y: f32) -> Outcome {
    if (p.x, p.y) == (x, y) {
        Outcome::Taken
    } else {
        Outcome::Elsewhere
    }
}

// Whether the left top is at (x, y).
fn left_top(s: AreaState, x: f32, y: f32) -> Result<Outcome, Refusal> {
    Ok(is_at(s.left_top_pos()?, x, y))
}

// Whether the right bottom is at (x, y).
fn right_bottom(s: AreaState, x: f32, y: f32) -> Result<Outcome, Refusal> {
    Ok(is_at(s.rect()?.max, x, y))
}

// Whether the left top is at (x, y) after it was set there.
fn moved(s: AreaState, x: f32, y: f32) -> Result<Outcome, Refusal> {
    left_top(s.set_left_top_pos(Pos2 { x, y })?, x, y)
}

fn areas(rt: &impl Print) -> io::Result<()> {
    left_top_areas(rt)?;
    right_bottom_areas(rt)
}

fn left_top_areas(rt: &impl Print) -> io::Result<()> {
    let left_tops = [
        (
            "area at 10, middle, size 3/32: 9.96875",
            area_at(10.0, 1, 0.09375, 3.0),
            9.96875,
            2.0,
        ),
        (
            "area at -10, middle, size 3/32: -10.0625",
            area_at(-10.0, 1, 0.09375, 3.0),
            -10.0625,
            2.0,
        ),
        (
            "area with pivot 3",
            area_at(10.0, 3, 0.09375, 3.0),
            0.0,
            0.0,
        ),
        (
            "area with pivot 2^64 - 1",
            area_at(10.0, u64::MAX, 0.09375, 3.0),
            0.0,
            0.0,
        ),
        (
            "area with pivot 3 and size -1",
            area_at(10.0, 3, -1.0, 3.0),
            0.0,
            0.0,
        ),
    ];
    for (text, area, x, y) in left_tops {
        say(rt, text, left_top(area, x, y))?;
    }
    Ok(())
}

fn right_bottom_areas(rt: &impl Print) -> io::Result<()> {
    let right_bottoms = [
        ("area with size -1", area_at(10.0, 2, -1.0, 3.0)),
        (
            "area with size -1 at 1/128",
            area_at(10.0, 2, -1.0, 0.0078125),
        ),
    ];
    for (text, area) in right_bottoms {
        say(rt, text, right_bottom(area, 0.0, 0.0))?;
    }
    Ok(())
}

fn wide_areas(rt: &impl Print) -> io::Result<()> {
    say(
        rt,
        "area at 32768, low, size 16384: right 49152",
        right_bottom(area_at(32768.0, 0, 16384.0, -32768.0), 49152.0, -32768.0),
    )?;
    say(
        rt,
        "area at -32768, high, size 16384: left -49152",
        left_top(area_at(-32768.0, 2, 16384.0, 0.0), -49152.0, -1.0),
    )?;
    say(rt, "new area at 0", left_top(AreaState::new(), 0.0, 0.0))
}

fn moves(rt: &impl Print) -> io::Result<()> {
    let cases = [
        (
            "area moved to 7.03125, -2",
            area_at(10.0, 1, 0.09375, 3.0),
            7.03125,
            -2.0,
        ),
        (
            "area moved to 16384.03125, 0",
            area_at(10.0, 1, 0.09375, 3.0),
            16384.03125,
            0.0,
        ),
        (
            "area at NaN moved to 1, 1",
            area_at(f32::NAN, 1, 1.0, 3.0),
            1.0,
            1.0,
        ),
    ];
    for (text, area, x, y) in cases {
        say(rt, text, moved(area, x, y))?;
    }
    Ok(())
}

pub fn geometry(rt: &impl Print) -> io::Result<()> {
    corners(rt)?;
    pivots(rt)?;
    sizes(rt)?;
    rects(rt)?;
    areas(rt)?;
    wide_areas(rt)?;
    moves(rt)
}
