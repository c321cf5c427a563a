//! A datagram that came is judged: what becomes of it, and what is recorded before what the board
//! gains by it.
ghost use Rattle.std.specs.Prelude.{◌≡◌, ◌++◌, [], IfOk, OnOk, length, map, if◌then◌else◌};
ghost use Rattle.std.specs.List.{list_any};
ghost use Rattle.wb_names.specs.Moments.{IsMoment};
ghost use Rattle.wb_names.specs.Orders.{same_name};
ghost use Rattle.wb_judge.specs.Judging.{after_judging, verdict};
ghost use Rattle.wb_judge.specs.Reports.{mark_in};
ghost use Rattle.wb_keeping.specs.Performing.{IsKeptAt, Keeping};
ghost use Rattle.wb_judging.specs.Recording.{freed_lines, mark_lines, named, new_mark, new_mark_of, owner_lines};
ghost use Rattle.wb_judging.specs.declared.record.RecordLine.TheVariants.{Known};

use crate::facts::is_raising;
use crate::owners::{add_owner, owner_by, speaker_in};
use crate::record::RecordLine;
use std::alloc::{AllocError, Global};
use wb_codec::Datagram;
use wb_judge::{Facts, Judge, Origin, Verdict, Why};
use wb_keeping::KeptMember;
use wb_names::{Drawop, Mark, Name, PageId};

/// What becomes of a datagram, and what is recorded before what the board gains by it.
#[derive(Drop)]
pub(crate) struct Weighed {
    pub(crate) verdict: Verdict,
    pub(crate) lines: Vec<RecordLine>,
}

/// Has the judge of a kept member judge a datagram.
pub(crate) fn weigh(
    judge: &mut Judge,
    kept: &KeptMember,
    alloc: Global,
    origin: Origin,
    datagram: &Datagram,
    facts: &Facts,
) -> Result<Weighed, AllocError>
    requires { IsMoment facts.now.at }
    ensures judge { OnOk result (judge.new ≡
        after_judging origin datagram.now facts.now judge.old) }
    ensures verdict { IfOk result (λ w. w.verdict ≡
        verdict origin datagram.now facts.now judge.old) }
    ensures lines { IfOk result (λ w. (k : Keeping) → IsKeptAt kept.now k → w.lines.items ≡
        (freed_lines origin judge.old.strange.given judge.new.strange.given k.host.is.held
        ++ mark_lines facts.now.at datagram.now w.verdict.why k)
        ++ owner_lines origin datagram.now judge.old judge.new) }
{
    let speaker = speaker_in(datagram);
    let owner = owner_by(judge, speaker);
    let names = judge.strange().given_by(alloc, origin)?;
    let before = judge.strange().len();
    let verdict = judge.judge(origin, datagram, facts);
    let mut lines = freed_lines(alloc, &names, judge.strange().len() < before, kept)?;
    add_mark(&mut lines, kept, facts.at, datagram, verdict.why)?;
    let after = owner_by(judge, speaker);
    add_owner(&mut lines, speaker, origin.place, owner, after)?;
    Ok(Weighed { verdict, lines })
}

/// The lines of what has one of these names, as a member's, if these are strange no more.
fn freed_lines(
    alloc: Global,
    names: &[Name],
    freed: bool,
    kept: &KeptMember,
) -> Result<Vec<RecordLine>, AllocError>
    ensures { IfOk result (λ lines. (k : Keeping) → IsKeptAt kept.now k → lines.items ≡
        map Known (named (if freed then names.now else []) k.host.is.held)) }
{
    if !freed {
        return Ok(Vec::new(alloc));
    }
    named_lines(alloc, names, kept.member().drawops())
}

/// The lines of the drawops that have one of these names, as a member's.
fn named_lines(
    alloc: Global,
    names: &[Name],
    drawops: &[Drawop],
) -> Result<Vec<RecordLine>, AllocError>
    ensures { IfOk result (λ lines. lines.items ≡ map Known (named names.now drawops.now)) }
{
    let named = drawops.iter().filter(|drawop| is_named(names, drawop));
    named
        .map(|drawop| RecordLine::Known(*drawop))
        .collect(alloc)
}

/// Whether a drawop has one of these names.
fn is_named(names: &[Name], drawop: &Drawop) -> bool
    ensures { result ≡ list_any (λ n. same_name n drawop.now.name) names.now }
{
    names.iter().any(|name| *name == drawop.name())
}

/// Adds the mark of ours that a report has, if it is handed in while the member listens and is
/// above all numbers of ours on its page that the member holds or has heard of.
fn add_mark(
    lines: &mut Vec<RecordLine>,
    kept: &KeptMember,
    now: u64,
    datagram: &Datagram,
    why: Option<Why>,
) -> Result<(), AllocError>
    ensures { OnOk result ((k : Keeping) → IsKeptAt kept.now k →
        lines.new.items ≡ lines.old.items ++ mark_lines now datagram.now why k) }
{
    if why.is_some() || !kept.is_listening(now) {
        return Ok(());
    }
    if let Some(line) = new_mark_of(kept, datagram) {
        lines.push(line)?;
    }
    Ok(())
}

/// The mark of ours that a report has, if it is above all numbers of ours on its page.
fn new_mark_of(kept: &KeptMember, datagram: &Datagram) -> Option<RecordLine>
    ensures { (k : Keeping) → IsKeptAt kept.now k → result ≡ new_mark_of datagram.now k.host }
{
    match datagram {
        Datagram::Session {
            sender,
            page,
            marks,
            ..
        } => new_mark(kept, *sender, *page, marks.as_slice()),
        Datagram::PageState {
            sender,
            page,
            marks,
        } => new_mark(kept, *sender, *page, marks.as_slice()),
        _ => None,
    }
}

/// The mark of ours among those of a page, if it is above all numbers of ours there.
fn new_mark(kept: &KeptMember, speaker: u32, page: PageId, marks: &[Mark]) -> Option<RecordLine>
    ensures { (k : Keeping) → IsKeptAt kept.now k →
        result ≡ new_mark speaker page (mark_in k.host.is.number marks.now) k.host }
{
    let mark = mark_in(kept.member().me(), marks)?;
    if !is_raising(kept, page, mark.high()) {
        return None;
    }
    Some(RecordLine::Mark {
        speaker,
        page,
        mark,
    })
}

/// The mark of a source, if there is one.
fn mark_in(source: u32, marks: &[Mark]) -> Option<Mark>
    ensures { result ≡ mark_in source marks.now }
{
    marks.iter().find(|mark| mark.source() == source).copied()
}
