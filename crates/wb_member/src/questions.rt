//! What a member is asked, and what it answers. No answer changes the member.
ghost use Rattle.std.specs.Prelude.{◌≡◌, true, IfOk};
ghost use Rattle.wb_display.specs.Canvas.{canvas_text, is_canvas_size};
ghost use Rattle.wb_member.specs.Holding.{IsOpenAt};
ghost use Rattle.wb_member.specs.Opened.{Opened};
ghost use Rattle.wb_member.specs.Questions.{IsAnswerable, answer_to, told};

use crate::member::Member;
use std::alloc::{AllocError, Global};
use wb_digest::page_digest;
use wb_display::{Canvas, CanvasFault};
use wb_names::{Drawop, Gap, Marks, PageId};

/// What a member is asked.
#[derive(Clone, Copy, Debug, PartialEq, Eq)]
pub enum Query {
    /// The canvas of a page, `width` cells wide and `height` high.
    Canvas {
        page: PageId,
        width: u32,
        height: u32,
    },
    /// The missing ranges of a page, up to the greatest numbers that are held or were heard of.
    Gaps(PageId),
    /// The greatest number of each source that is held of a page.
    Report(PageId),
    /// The pages that have a drawop, ascending, each once.
    Pages,
    /// What a page shows, in the order of display.
    View(PageId),
    /// The pages that have a drawop or of which some mark was heard, ascending, each once.
    Known,
    /// The number of its next drawop on a page. None if no number is left.
    Next(PageId),
    /// The digest of what is held of a page.
    Digest(PageId),
}

/// What a member answers, each to the question of this name.
#[derive(Drop)]
pub enum Answer {
    Canvas(Canvas),
    Gaps(Vec<Gap>),
    Report(Marks),
    Pages(Vec<PageId>),
    View(Vec<Drawop>),
    Known(Vec<PageId>),
    Next(Option<u32>),
    Digest([u8; 32]),
}

impl Member {
    /// Answers a question. A canvas that is asked for is at most as large as a canvas may be.
    pub fn answer(&mut self, alloc: Global, query: Query) -> Result<Answer, AllocError>
        requires size { IsAnswerable query }
        ensures same { self.new ≡ self.old }
        ensures answer { IfOk result (λ answer. (host : Opened) → IsOpenAt self.old host →
            told answer ≡ answer_to query host) }
    {
        match query {
            Query::Canvas {
                page,
                width,
                height,
            } => {
                let shown = self.desk.shown(alloc, &self.board, page)?;
                let canvas = painted(alloc, shown, width, height)?;
                Ok(Answer::Canvas(canvas))
            }
            Query::Gaps(page) => {
                let holdings = self.desk.holdings()?;
                let gaps = holdings.gaps(alloc, page, self.keeper.marks(page))?;
                Ok(Answer::Gaps(gaps))
            }
            Query::Report(page) => {
                let holdings = self.desk.holdings()?;
                let marks = holdings.report(alloc, page)?;
                Ok(Answer::Report(marks))
            }
            Query::Pages => {
                let holdings = self.desk.holdings()?;
                let pages = holdings.pages(alloc)?;
                Ok(Answer::Pages(pages))
            }
            Query::View(page) => {
                let view = self.board.view(alloc, &mut self.desk, page)?;
                Ok(Answer::View(view))
            }
            Query::Known => {
                let pages = self.keeper.known_pages(alloc, &self.board, &mut self.desk)?;
                Ok(Answer::Known(pages))
            }
            Query::Next(page) => Ok(Answer::Next(self.next_number(page))),
            Query::Digest(page) => {
                let digest = page_digest(alloc, self.desk.list(), page)?;
                Ok(Answer::Digest(digest))
            }
        }
    }
}

/// The canvas of what a page shows, `width` cells wide and `height` high.
fn painted(alloc: Global, shown: &[Drawop], width: u32, height: u32) -> Result<Canvas, AllocError>
    requires { is_canvas_size width height ≡ true }
    ensures { IfOk result (λ canvas. canvas ≡ canvas_text shown.now width height) }
{
    match Canvas::paint(alloc, shown, width, height) {
        Ok(canvas) => Ok(canvas),
        Err(CanvasFault::Memory) => Err(AllocError),
        Err(CanvasFault::Size) => unreachable!(),
    }
}
