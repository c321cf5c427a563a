//! What a kept member says of itself, and of a datagram that came in.
ghost use Rattle.std.specs.Prelude.{◌≡◌, IfOk};
ghost use Rattle.wb_keeping.specs.Performing.{IsKeptAt, Keeping};
ghost use Rattle.wb_judging.specs.Handing.{facts_of, facts_with, is_raising, lacking, lacks, own_top, report_facts};
ghost use Rattle.wb_judging.specs.Refusing.{has_number};

use std::alloc::AllocError;
use wb_codec::Datagram;
use wb_judge::Facts;
use wb_keeping::KeptMember;
use wb_names::{FIRST_FORGED, Mark, Marks, PageId};
use wb_policy::limits::MOST_MARKS;

/// What a kept member says of itself at a moment, and of a datagram.
pub(crate) fn facts_of(
    kept: &mut KeptMember,
    now: u64,
    datagram: &Datagram,
) -> Result<Facts, AllocError>
    ensures same { kept.new ≡ kept.old }
    ensures at { IfOk result (λ facts. facts.at ≡ now) }
    ensures facts { IfOk result (λ facts. (k : Keeping) → IsKeptAt kept.old k →
        facts ≡ facts_of now datagram.now k) }
{
    match datagram {
        Datagram::Draw(drawop) => {
            let name = drawop.name();
            let above = is_raising(kept, name.page(), name.seq());
            let top = kept.highest(name.page(), name.source())?;
            let facts = facts_with(kept, now, kept.member().holds(&name), top, 0);
            Ok(Facts { above, ..facts })
        }
        Datagram::Session { page, marks, .. } => report_facts(kept, now, *page, marks),
        Datagram::PageState { page, marks, .. } => report_facts(kept, now, *page, marks),
        Datagram::Request { name, .. } => {
            Ok(facts_with(kept, now, kept.member().holds(name), 0, 0))
        }
        Datagram::AskPages { .. } => Ok(facts_with(kept, now, false, 0, 0)),
    }
}

/// What it says of itself at a moment, with what it says of a datagram.
fn facts_with(kept: &KeptMember, now: u64, holds: bool, top: u32, lacking: u64) -> Facts
    ensures at { result.at ≡ now }
    ensures facts { (k : Keeping) → IsKeptAt kept.now k →
        result ≡ facts_with now holds top lacking k }
{
    Facts {
        at: now,
        held: kept.member().held(),
        listens: kept.is_listening(now),
        holds,
        above: false,
        top,
        lacking,
    }
}

/// Whether a number is above all of ours on a page that are held or were heard of.
pub(crate) fn is_raising(kept: &KeptMember, page: PageId, number: u32) -> bool
    ensures { (k : Keeping) → IsKeptAt kept.now k → result ≡ is_raising page number k.host }
{
    match kept.member().next_number(page) {
        None => false,
        Some(next) => next <= number,
    }
}

/// Whether we have a number left on a page, below 2^31.
pub(crate) fn has_number(kept: &KeptMember, page: PageId) -> bool
    ensures { (k : Keeping) → IsKeptAt kept.now k → result ≡ has_number page k.host }
{
    match kept.member().next_number(page) {
        None => false,
        Some(next) => next < FIRST_FORGED,
    }
}

/// What it says of a report of a page.
fn report_facts(
    kept: &mut KeptMember,
    now: u64,
    page: PageId,
    marks: &Marks,
) -> Result<Facts, AllocError>
    ensures same { kept.new ≡ kept.old }
    ensures at { IfOk result (λ facts. facts.at ≡ now) }
    ensures facts { IfOk result (λ facts. (k : Keeping) → IsKeptAt kept.old k →
        facts ≡ report_facts now page marks.now k) }
{
    let top = own_top(kept, page)?;
    let lacking = lacking(kept, page, marks.as_slice())?;
    Ok(facts_with(kept, now, false, top, lacking))
}

/// The greatest number of its own that is held on a page, or 0.
fn own_top(kept: &mut KeptMember, page: PageId) -> Result<u32, AllocError>
    ensures same { kept.new ≡ kept.old }
    ensures top { IfOk result (λ top. (k : Keeping) → IsKeptAt kept.old k →
        top ≡ own_top page k.host) }
{
    let me = kept.member().me();
    kept.highest(page, me)
}

/// How many numbers up to the first marks of others are above what is held.
fn lacking(kept: &mut KeptMember, page: PageId, marks: &[Mark]) -> Result<u64, AllocError>
    ensures same { kept.new ≡ kept.old }
    ensures lacking { IfOk result (λ count. (k : Keeping) → IsKeptAt kept.old k →
        count ≡ lacking page k.host marks.now) }
{
    let count = marks.len().min(MOST_MARKS);
    let mut total: u64 = 0;
    for mark in &marks[..count] {
        total += lacks(kept, page, mark)? as u64;
    }
    Ok(total)
}

/// How far a mark of another source is above what is held.
fn lacks(kept: &mut KeptMember, page: PageId, mark: &Mark) -> Result<u32, AllocError>
    ensures same { kept.new ≡ kept.old }
    ensures lacks { IfOk result (λ count. (k : Keeping) → IsKeptAt kept.old k →
        count ≡ lacks page k.host mark.now) }
{
    if mark.source() == kept.member().me() {
        return Ok(0);
    }
    let held = kept.highest(page, mark.source())?;
    Ok(mark.high().saturating_sub(held))
}
