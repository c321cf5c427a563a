//! The pages and sources of what no known origin gave.

ghost use Rattle.std.specs.Prelude.{◌≡◌, ◌≤◌, ◌<◌, ◌+◌, vec_capacity, vec_len};
ghost use Rattle.std.specs.List.{list_any};
ghost use Rattle.wb_names.specs.Orders.{same_page};
ghost use Rattle.wb_judge.specs.Strange.{opens_page, opens_row, row_of, same_row, with_page, with_row};

use crate::limits::{STRANGE_PAGES, STRANGE_ROWS};
use wb_names::{Name, PageId};

/// A source on a page.
#[derive(Clone, Copy, Debug)]
pub struct Row {
    pub source: u32,
    pub page: PageId,
}

impl Row {
    /// The row of a drawop.
    pub fn of(name: &Name) -> Row
        ensures { result ≡ row_of name.now }
    {
        Row {
            source: name.source(),
            page: name.page(),
        }
    }
}

/// Whether a page is among some.
fn has_page(pages: &[PageId], page: PageId) -> bool
    ensures { result ≡ list_any (λ p. same_page p page) pages.now }
{
    pages.iter().any(|other| *other == page)
}

/// Whether two are the same source on the same page.
pub(crate) fn is_row(one: Row, other: Row) -> bool
    ensures { result ≡ same_row one other }
{
    one.source == other.source && one.page == other.page
}

/// Whether a source on a page is among some.
fn has_row(rows: &[Row], row: Row) -> bool
    ensures { result ≡ list_any (λ r. same_row r row) rows.now }
{
    rows.iter().any(|other| is_row(*other, row))
}

/// Adds a page, unless it is among some. There is room for it.
pub(crate) fn add_page(pages: &mut Vec<PageId>, page: PageId)
    requires { vec_len pages.old < vec_capacity pages.old }
    ensures pages { pages.new.items ≡ with_page page pages.old.items }
    ensures few { vec_len pages.new ≤ vec_len pages.old + 1 }
    ensures capacity { vec_capacity pages.new ≡ vec_capacity pages.old }
{
    if !has_page(pages, page) {
        pages.push_reserved(page);
    }
}

/// Adds a source on a page, unless it is among some. There is room for it.
pub(crate) fn add_row(rows: &mut Vec<Row>, row: Row)
    requires { vec_len rows.old < vec_capacity rows.old }
    ensures rows { rows.new.items ≡ with_row row rows.old.items }
    ensures few { vec_len rows.new ≤ vec_len rows.old + 1 }
    ensures capacity { vec_capacity rows.new ≡ vec_capacity rows.old }
{
    if !has_row(rows, row) {
        rows.push_reserved(row);
    }
}

/// Whether a page is one more than there may be.
pub(crate) fn opens_page(pages: &[PageId], page: PageId) -> bool
    ensures { result ≡ opens_page page pages.now }
{
    !has_page(pages, page) && pages.len() >= STRANGE_PAGES
}

/// Whether a source on a page is one more than there may be.
pub(crate) fn opens_row(rows: &[Row], row: Row) -> bool
    ensures { result ≡ opens_row row rows.now }
{
    !has_row(rows, row) && rows.len() >= STRANGE_ROWS
}
