//! Drawing one operation over the cells of a canvas. Each draws its own points alone, and what lies
//! outside the canvas is left out.

ghost use Rattle.std.specs.Prelude.{◌≡◌, ◌+◌, ◌*◌, ◌<◌, ◌≤◌, length};
ghost use Rattle.wb_display.specs.Canvas.{covers, distance, glyph_of, is_on_line, is_on_frame, is_on_text, line_len, text_glyph};
ghost use Rattle.wb_display.specs.Cells.{Overlays, is_at, is_on_row, is_on_column};
ghost use Rattle.wb_display.specs.Walks.{AreInside};

use crate::line_points::{Steps, Walk, along, steps_inside};
use wb_names::{Figure, Op, Stroke};

/// How many columns and rows a canvas has. In memory each row has one cell more, its line feed.
#[derive(Clone, Copy)]
pub(crate) struct Size {
    pub width: usize,
    pub height: usize,
}

/// An end or a corner.
#[derive(Clone, Copy)]
pub(crate) struct Point {
    pub x: u16,
    pub y: u16,
}

/// Puts a glyph into the cell of a point of the canvas.
#[inline(always)]
fn put(cells: &mut [u8], size: Size, x: usize, y: usize, glyph: u8)
    requires len { length cells.old ≡ size.height * (size.width + 1) }
    requires column { x < size.width }
    requires row { y < size.height }
    ensures { Overlays size.width size.height (is_at x y) (λ _. glyph) cells.old cells.new }
{
    cells[y * (size.width + 1) + x] = glyph;
}

/// Puts a glyph into the cell of a point, if it is one of the canvas.
#[inline(always)]
fn plot(cells: &mut [u8], size: Size, x: usize, y: usize, glyph: u8)
    requires { length cells.old ≡ size.height * (size.width + 1) }
    ensures { Overlays size.width size.height (is_at x y) (λ _. glyph) cells.old cells.new }
{
    if x < size.width && y < size.height {
        put(cells, size, x, y, glyph);
    }
}

/// Draws the cells of a row from one column to another, ends included.
fn draw_row(cells: &mut [u8], size: Size, from: u16, to: u16, y: u16, glyph: u8)
    requires { length cells.old ≡ size.height * (size.width + 1) }
    ensures { Overlays size.width size.height (is_on_row from to y)
        (λ _. glyph) cells.old cells.new }
{
    let first = usize::from(from.min(to));
    let end = (usize::from(from.max(to)) + 1).min(size.width);
    if end <= first || size.height <= usize::from(y) {
        return;
    }
    let row = usize::from(y) * (size.width + 1);
    cells[row + first..row + end].fill(glyph);
}

/// Draws the cells of a column from one row to another, ends included.
fn draw_column(cells: &mut [u8], size: Size, from: u16, to: u16, x: u16, glyph: u8)
    requires { length cells.old ≡ size.height * (size.width + 1) }
    ensures { Overlays size.width size.height (is_on_column from to x)
        (λ _. glyph) cells.old cells.new }
{
    let first = usize::from(from.min(to));
    let end = usize::from(from.max(to)) + 1;
    for y in first..end.min(size.height) {
        plot(cells, size, usize::from(x), y, glyph);
    }
}

/// Draws the four sides of the rectangle with two opposite corners.
fn draw_frame(cells: &mut [u8], size: Size, from: Point, to: Point, glyph: u8)
    requires { length cells.old ≡ size.height * (size.width + 1) }
    ensures { Overlays size.width size.height (is_on_frame from.x from.y to.x to.y)
        (λ _. glyph) cells.old cells.new }
{
    draw_row(cells, size, from.x, to.x, from.y, glyph);
    draw_row(cells, size, from.x, to.x, to.y, glyph);
    draw_column(cells, size, from.y, to.y, from.x, glyph);
    draw_column(cells, size, from.y, to.y, to.x, glyph);
}

/// Draws a text, each byte in a column of its own.
fn draw_text(cells: &mut [u8], size: Size, from: Point, text: &[u8])
    requires { length cells.old ≡ size.height * (size.width + 1) }
    ensures { Overlays size.width size.height (is_on_text from.x from.y (length text.now))
        (text_glyph from.x text.now) cells.old cells.new }
{
    for (i, byte) in text.iter().enumerate() {
        plot(
            cells,
            size,
            usize::from(from.x) + i,
            usize::from(from.y),
            *byte,
        );
    }
}

/// The steps at which a line is on the canvas.
fn steps_on_canvas(size: Size, from: Point, to: Point, steps: u16) -> Steps
    requires { steps ≡ line_len from.x from.y to.x to.y }
    ensures { AreInside size.width size.height from.x from.y to.x to.y steps result }
{
    let across = steps_inside(from.x, to.x, steps, size.width);
    let down = steps_inside(from.y, to.y, steps, size.height);
    Steps {
        first: across.first.max(down.first),
        end: across.end.min(down.end),
    }
}

/// Draws the points of a line that goes on by one column each step.
fn draw_across(cells: &mut [u8], size: Size, from: Point, to: Point, inside: Steps, glyph: u8)
    requires len { length cells.old ≡ size.height * (size.width + 1) }
    requires level { distance from.y to.y ≤ distance from.x to.x }
    requires inside { AreInside size.width size.height from.x from.y to.x to.y
        (distance from.x to.x) inside }
    requires some { inside.first < inside.end }
    ensures { Overlays size.width size.height (is_on_line from.x from.y to.x to.y)
        (λ _. glyph) cells.old cells.new }
{
    let steps = from.x.abs_diff(to.x);
    let mut y = Walk::after(from.y, to.y, steps, inside.first as u16);
    let x = along(from.x, to.x, inside.first);
    put(cells, size, x, usize::from(y.at()), glyph);
    let last = inside.end - 1;
    for k in inside.first..last {
        y.step();
        let x = along(from.x, to.x, k + 1);
        put(cells, size, x, usize::from(y.at()), glyph);
    }
}

/// Draws the points of a line that goes on by one row each step.
fn draw_down(cells: &mut [u8], size: Size, from: Point, to: Point, inside: Steps, glyph: u8)
    requires len { length cells.old ≡ size.height * (size.width + 1) }
    requires steep { distance from.x to.x ≤ distance from.y to.y }
    requires inside { AreInside size.width size.height from.x from.y to.x to.y
        (distance from.y to.y) inside }
    requires some { inside.first < inside.end }
    ensures { Overlays size.width size.height (is_on_line from.x from.y to.x to.y)
        (λ _. glyph) cells.old cells.new }
{
    let steps = from.y.abs_diff(to.y);
    let mut x = Walk::after(from.x, to.x, steps, inside.first as u16);
    let y = along(from.y, to.y, inside.first);
    put(cells, size, usize::from(x.at()), y, glyph);
    let last = inside.end - 1;
    for k in inside.first..last {
        x.step();
        let y = along(from.y, to.y, k + 1);
        put(cells, size, usize::from(x.at()), y, glyph);
    }
}

/// Draws the points of a line: a level one as a row, others from the first to the last step at
/// which they are on the canvas.
fn draw_line(cells: &mut [u8], size: Size, from: Point, to: Point, glyph: u8)
    requires { length cells.old ≡ size.height * (size.width + 1) }
    ensures { Overlays size.width size.height (is_on_line from.x from.y to.x to.y)
        (λ _. glyph) cells.old cells.new }
{
    if from.y == to.y {
        draw_row(cells, size, from.x, to.x, from.y, glyph);
        return;
    }
    let across = from.x.abs_diff(to.x);
    let down = from.y.abs_diff(to.y);
    let inside = steps_on_canvas(size, from, to, across.max(down));
    if inside.end <= inside.first {
        return;
    }
    if down <= across {
        draw_across(cells, size, from, to, inside, glyph);
    } else {
        draw_down(cells, size, from, to, inside, glyph);
    }
}

/// Draws what an operation covers.
pub(crate) fn paint_op(cells: &mut [u8], size: Size, op: &Op)
    requires { length cells.old ≡ size.height * (size.width + 1) }
    ensures { Overlays size.width size.height (covers op.now)
        (glyph_of op.now) cells.old cells.new }
{
    match *op {
        Op::Drawn(figure, stroke) => {
            let Stroke {
                x0,
                y0,
                x1,
                y1,
                glyph,
            } = stroke;
            let from = Point { x: x0, y: y0 };
            let to = Point { x: x1, y: y1 };
            match figure {
                Figure::Line => draw_line(cells, size, from, to, glyph),
                Figure::Frame => draw_frame(cells, size, from, to, glyph),
            }
        }
        Op::Text { x, y, text } => draw_text(cells, size, Point { x, y }, text.as_slice()),
        Op::Aimed(..) => {}
    }
}
