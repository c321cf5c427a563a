//! What a line does at a judged member, and what it comes to. Nothing is printed here.
ghost use Rattle.std.specs.Prelude.{◌≡◌, IfOk, true};
ghost use Rattle.wb_dialog.specs.Doing.{DoesJudged, events_told, unanswered_by_judged};
ghost use Rattle.wb_dialog.specs.Judged.{act};
ghost use Rattle.wb_dialog.specs.JudgedLines.{IsWithin};
ghost use Rattle.wb_display.specs.Canvas.{canvas_text, is_canvas_size};
ghost use Rattle.wb_judging.specs.Judged.{Judged};
ghost use Rattle.wb_judging.specs.Performing.{IsJudgedAt};
ghost use Rattle.wb_member.specs.Opened.{shown};

use crate::fault::{Refusal, Unanswered, refused_by_kept};
use crate::judged_line::JudgedLine;
use crate::told::Told;
use std::alloc::{AllocError, Global};
use wb_display::Canvas;
use wb_judge::AddFault;
use wb_judging::{Event, JudgedFault, JudgedMember};
use wb_member::{Answer, Query};
use wb_names::PageId;

/// Where the number of its target stands among the words of a drawing: the host has its time.
const TARGET: u32 = 5;

/// Why a line is not answered, by why a judged member refuses a call.
fn refused(fault: JudgedFault) -> Unanswered
    ensures { result ≡ unanswered_by_judged fault }
{
    match fault {
        JudgedFault::Judge(AddFault::Twin) => Unanswered::Refused(Refusal::Twin),
        JudgedFault::Judge(AddFault::Full) => Unanswered::Refused(Refusal::Full),
        JudgedFault::Kept(fault) => refused_by_kept(TARGET, fault),
    }
}

/// What a call comes to.
fn events_told(did: Result<Vec<Event>, JudgedFault>) -> Result<Told, Unanswered>
    ensures { result ≡ events_told did }
{
    match did {
        Ok(events) => Ok(Told::Events(events)),
        Err(fault) => Err(refused(fault)),
    }
}

/// Which numbers were heard lately.
#[tactic(auto, using(crate::proofs::Acts::found))]
fn members(alloc: Global, member: &mut JudgedMember) -> Result<Told, Unanswered>
    ensures { DoesJudged member.old member.new result (act JudgedLine.Members) }
{
    Ok(Told::Members(member.members(alloc)?))
}

/// Which pages are drawn on.
#[tactic(auto, using(crate::proofs::Acts::lists))]
fn list(alloc: Global, member: &mut JudgedMember, most: u32) -> Result<Told, Unanswered>
    ensures { DoesJudged member.old member.new result (act (JudgedLine.List most)) }
{
    Ok(Told::Pages(member.list(alloc, most as usize)?))
}

/// The canvas of a page.
fn canvas(
    alloc: Global,
    member: &mut JudgedMember,
    page: PageId,
    width: u32,
    height: u32,
) -> Result<Canvas, AllocError>
    requires { is_canvas_size width height ≡ true }
    ensures same { member.new ≡ member.old }
    ensures canvas { IfOk result (λ canvas. (h : Judged) → IsJudgedAt member.old h →
        canvas ≡ canvas_text (shown page h.kept.host) width height) }
{
    let query = Query::Canvas {
        page,
        width,
        height,
    };
    match member.answer(alloc, query)? {
        Answer::Canvas(canvas) => Ok(canvas),
        _ => Err(AllocError),
    }
}

/// Paints a page.
#[tactic(auto, using(crate::proofs::Acts::found))]
fn paint(
    alloc: Global,
    member: &mut JudgedMember,
    page: PageId,
    width: u32,
    height: u32,
) -> Result<Told, Unanswered>
    requires { is_canvas_size width height ≡ true }
    ensures { DoesJudged member.old member.new result (act (JudgedLine.Paint page width height)) }
{
    let canvas = canvas(alloc, member, page, width, height)?;
    Ok(Told::Canvas {
        canvas,
        width,
        height,
    })
}

/// What a page shows otherwise than when `count` drawops were held.
#[tactic(auto, using(crate::proofs::Acts::sinces))]
fn since(
    alloc: Global,
    member: &mut JudgedMember,
    page: PageId,
    count: u32,
) -> Result<Told, Unanswered>
    ensures { DoesJudged member.old member.new result (act (JudgedLine.Since page count)) }
{
    Ok(Told::Since(member.since(alloc, page, count)?))
}

/// How many drawops of a page are missing.
#[tactic(auto, using(crate::proofs::Acts::found))]
fn lacks(alloc: Global, member: &mut JudgedMember, page: PageId) -> Result<Told, Unanswered>
    ensures { DoesJudged member.old member.new result (act (JudgedLine.Lacks page)) }
{
    Ok(Told::Lacks(member.lacks(alloc, page)?))
}

/// What a line does at a judged member, and what it comes to; or it is refused, and then the member
/// stays as it is.
pub(crate) fn answer(
    alloc: Global,
    member: &mut JudgedMember,
    line: JudgedLine,
) -> Result<Told, Unanswered>
    requires { IsWithin line }
    ensures { DoesJudged member.old member.new result (act line) }
{
    match line {
        JudgedLine::Call(said) => events_told(member.call(alloc, &said)),
        JudgedLine::Members => members(alloc, member),
        JudgedLine::List { most } => list(alloc, member, most),
        JudgedLine::Paint {
            page,
            width,
            height,
        } => paint(alloc, member, page, width, height),
        JudgedLine::Since { page, count } => since(alloc, member, page, count),
        JudgedLine::Lacks { page } => lacks(alloc, member, page),
        JudgedLine::Words { datagram } => Ok(Told::Words(datagram)),
        JudgedLine::Skip => Ok(Told::Nothing),
    }
}
