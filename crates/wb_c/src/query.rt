//! Questions by numbers.
ghost use Rattle.std.specs.Prelude.{◌≡◌, IfSome};
ghost use Rattle.wb_member.specs.Questions.{IsAnswerable};
ghost use Rattle.wb_display.specs.Canvas.{is_canvas_size};
ghost use Rattle.wb_c.specs.Asking.{canvas_query, query_of};

use wb_display::Canvas;
use wb_member::Query;
use wb_names::PageId;

/// Whether there is a canvas of this size.
fn is_canvas_size(width: u32, height: u32) -> bool
    ensures { result ≡ is_canvas_size width height }
{
    (1..=Canvas::MAX_WIDTH).contains(&width) && (1..=Canvas::MAX_HEIGHT).contains(&height)
}

/// The question for a canvas of this size, if there is one.
fn canvas(page: PageId, width: u32, height: u32) -> Option<Query>
    ensures query { result ≡ canvas_query page width height }
    ensures within { IfSome result IsAnswerable }
{
    if is_canvas_size(width, height) {
        Some(Query::Canvas {
            page,
            width,
            height,
        })
    } else {
        None
    }
}

/// The question of this number, about a page, with the size of a canvas.
pub(crate) fn query_of(question: u32, page: PageId, width: u32, height: u32) -> Option<Query>
    ensures query { result ≡ query_of question page width height }
    ensures within { IfSome result IsAnswerable }
{
    if question == 1 {
        return Some(Query::Next(page));
    }
    if question == 2 {
        return Some(Query::View(page));
    }
    if question == 3 {
        return Some(Query::Gaps(page));
    }
    if question == 4 {
        return Some(Query::Report(page));
    }
    if question == 5 {
        return Some(Query::Pages);
    }
    if question == 6 {
        return Some(Query::Known);
    }
    if question == 7 {
        return canvas(page, width, height);
    }
    if question == 8 {
        return Some(Query::Digest(page));
    }
    None
}
