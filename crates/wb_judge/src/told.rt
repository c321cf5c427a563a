//! The marks that members told.

ghost use Rattle.std.specs.Prelude.{◌≡◌, [], IfOk};
ghost use Rattle.wb_judge.specs.Told.{was_told, leaves_holes, with_mark, with_marks};

use crate::limits::MOST_TOLD;
use crate::rows::{Row, is_row};
use std::alloc::{AllocError, Global};
use std::marker::Model;
use wb_names::{Mark, Name, PageId};

/// A source on a page, and a number that a member told of it: one that somebody holds.
#[derive(Clone, Copy, Debug)]
pub struct ToldMark {
    pub row: Row,
    pub high: u32,
}

/// At most 1,024 marks that members told. The first that they told makes room.
#[derive(Drop)]
pub struct Told {
    marks: Vec<ToldMark>,
}

impl Model for Told {
    ghost use Rattle.std.specs.Prelude.{List, length, ◌≤◌, vec_capacity};
    ghost use Rattle.wb_judge.specs.declared.told.ToldMark.{ToldMark};

    ghost Value = { List ToldMark };

    ghost view = { λ t. t.marks.items };

    ghost invariant = { λ t. (length t.marks.items ≤ 1024) × (1024 ≤ vec_capacity t.marks) };
}

impl Told {
    /// Nobody told any yet.
    pub(crate) fn new(alloc: Global) -> Result<Told, AllocError>
        ensures { IfOk result (λ t. t ≡ []) }
    {
        let marks = Vec::with_capacity(alloc, MOST_TOLD)?;
        Ok(Told { marks })
    }

    /// A member told the marks of a page.
    pub(crate) fn put_all(&mut self, page: PageId, marks: &[Mark])
        ensures { self.new ≡ with_marks page marks.now self.old }
    {
        for mark in marks {
            self.put(ToldMark {
                row: Row {
                    source: mark.source(),
                    page,
                },
                high: mark.high(),
            });
        }
    }

    /// A member told a mark. It is remembered, unless one is that is as high.
    fn put(&mut self, mark: ToldMark)
        ensures { self.new ≡ with_mark mark self.old }
    {
        if self.has(mark.row, mark.high) {
            return;
        }
        if self.marks.len() >= MOST_TOLD {
            let _first = self.marks.remove(0);
        }
        self.marks.push_reserved(mark);
    }

    /// Whether a member told this number of a source on a page, or one above it.
    fn has(&self, row: Row, number: u32) -> bool
        ensures { result ≡ was_told row number self.now }
    {
        self.marks
            .iter()
            .any(|mark| is_row(mark.row, row) && number <= mark.high)
    }

    /// Whether a drawop leaves numbers missing between the greatest that is held of its source on its
    /// page, or 0, and itself, and no member told of it.
    #[tactic(auto, unfolding(crate::specs::Told::leaves_holes))]
    pub(crate) fn leaves_holes(&self, name: &Name, top: u32) -> bool
        ensures { result ≡ leaves_holes name.now top self.now }
    {
        name.seq().saturating_sub(top) > 1 && !self.has(Row::of(name), name.seq())
    }
}
