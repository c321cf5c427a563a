//! Which part of what is heard or held a policy takes.
ghost use Rattle.std.specs.Prelude.{◌≡◌, ◌≤◌, ◌<◌, ◌++◌, IfOk, OnOk, Bool, filter, length, map, nat_eq, nat_le, nat_lt, not, ◌&&◌};
ghost use Rattle.wb_names.specs.History.{name_of};
ghost use Rattle.std.specs.List.{count_by};
ghost use Rattle.std.specs.Ordering.{is_lt};
ghost use Rattle.wb_policy.specs.Choices.{echoed_delay, if_below, is_among, is_here, is_sooner, last_source, newest, near_names, next_turn, own_echo, own_marks, rank_of, soonest, told_names};
ghost use Rattle.wb_names.specs.declared.name.TheConstants.{FIRST_FORGED};
ghost use Rattle.wb_policy.specs.declared.limits.TheConstants.{MOST_ECHOES, MOST_FIRSTS};
ghost use Rattle.std.specs.Prelude.{None, []};

use crate::limits::{HEARD, MOST_ECHOES, MOST_FIRSTS, REACH};
use std::alloc::{AllocError, Global};
use std::cmp::Ordering;
use wb_names::{Drawop, Echo, Echoes, FIRST_FORGED, Mark, Marks, Name, PageId};
use wb_recovery::distance;

/// The marks of this member that are believed: while it listens, those below 2^31.
pub fn own_marks(alloc: Global, me: u32, listens: bool, marks: &Marks) -> Result<Marks, AllocError>
    ensures { IfOk result (λ own. own ≡ own_marks me listens marks.now) }
{
    let own = believed(alloc, me, listens, marks.as_slice())?;
    Ok(Marks::from_ascending(own))
}

/// The marks of this member that are believed, as a list.
fn believed(alloc: Global, me: u32, listens: bool, marks: &[Mark]) -> Result<Vec<Mark>, AllocError>
    ensures { IfOk result (λ own. own.items ≡ own_marks me listens marks.now) }
{
    let own = marks.iter().filter(|mark| is_believed(me, listens, **mark));
    own.copied().collect(alloc)
}

/// Whether it is a mark of this member that is believed.
fn is_believed(me: u32, listens: bool, mark: Mark) -> bool
    ensures { result ≡ (nat_eq mark.source me && (listens && nat_lt mark.high FIRST_FORGED)) }
{
    mark.source() == me && listens && mark.high() < FIRST_FORGED
}

/// The echo of this member.
pub fn own_echo(alloc: Global, me: u32, echoes: &Echoes) -> Result<Echoes, AllocError>
    ensures { IfOk result (λ own. own ≡ own_echo me echoes.now) }
{
    let own = echoes_of(alloc, me, echoes.as_slice())?;
    Ok(Echoes::from_ascending(own))
}

/// The echoes of this member, as a list.
fn echoes_of(alloc: Global, me: u32, echoes: &[Echo]) -> Result<Vec<Echo>, AllocError>
    ensures { IfOk result (λ own. own.items ≡ own_echo me echoes.now) }
{
    let own = echoes.iter().filter(|echo| echo.source == me);
    own.copied().collect(alloc)
}

/// The delay that the first of some echoes gives, if it gives one.
pub fn echoed_delay(now: u64, echoes: &[Echo]) -> Option<u64>
    ensures { result ≡ echoed_delay now echoes.now }
{
    match echoes {
        [echo, ..] => distance(echo.sent, echo.held, now),
        [] => None,
    }
}

/// Whether a sender was heard within 192 seconds.
pub fn is_here(echo: Echo) -> bool
    ensures { result ≡ is_here echo }
{
    echo.held < HEARD
}

/// Whether a sender is among some.
fn is_among(firsts: &[Echo], echo: Echo) -> bool
    ensures { result ≡ is_among firsts.now echo }
{
    firsts.iter().any(|first| first.source == echo.source)
}

/// Of those that have answered and are here the ones that are echoed first: at most 24.
pub fn firsts(alloc: Global, from: u32, answered: &[Echo]) -> Result<Vec<Echo>, AllocError>
    ensures { IfOk result (λ firsts. firsts.items ≡ soonest [] from MOST_FIRSTS answered.now) }
{
    soonest(alloc, &[], from, MOST_FIRSTS, answered)
}

/// The senders that a report echoes: at most 32.
pub fn echoed(alloc: Global, firsts: &[Echo], from: u32, all: &Echoes) -> Result<Echoes, AllocError>
    ensures { IfOk result (λ echoed. echoed ≡ soonest firsts.now from MOST_ECHOES all.now) }
{
    let some = soonest(alloc, firsts, from, MOST_ECHOES, all.as_slice())?;
    Ok(Echoes::from_ascending(some))
}

/// The senders whose turn it is: at most `most`, ascending. Some come first, then those that are
/// here, and then those that are gone; of each kind those above a number, and then round.
fn soonest(
    alloc: Global,
    firsts: &[Echo],
    from: u32,
    most: usize,
    all: &[Echo],
) -> Result<Vec<Echo>, AllocError>
    requires { 1 ≤ most }
    ensures { IfOk result (λ some. some.items ≡ soonest firsts.now from most all.now) }
{
    if all.len() < most {
        return all.to_vec(alloc);
    }
    let last = last_of_soonest(alloc, firsts, from, most, all)?;
    not_after(alloc, firsts, from, last, all)
}

/// The senders whose turn is not after that of one.
fn not_after(
    alloc: Global,
    firsts: &[Echo],
    from: u32,
    one: Echo,
    all: &[Echo],
) -> Result<Vec<Echo>, AllocError>
    ensures { IfOk result (λ others.
        others.items ≡ filter (λ e. not (is_sooner firsts.now from one e)) all.now) }
{
    let others = all
        .iter()
        .filter(|other| !is_sooner(firsts, from, one, **other));
    others.copied().collect(alloc)
}

/// Of the senders whose turn it is, the one whose turn comes last.
fn last_of_soonest(
    alloc: Global,
    firsts: &[Echo],
    from: u32,
    most: usize,
    all: &[Echo],
) -> Result<Echo, AllocError>
    requires some { 1 ≤ most }
    requires many { most ≤ length all.now }
    ensures { IfOk result (λ last. (count_by (λ e. is_sooner firsts.now from e last) all.now < most)
        × (most ≤ count_by (λ e. not (is_sooner firsts.now from last e)) all.now)) }
{
    let mut ranked = all.to_vec(alloc)?;
    let (_, last, _) = ranked.select_nth_unstable_by(
        most - 1,
        |a, b| by_turn(firsts, from, *a, *b),
    );
    Ok(*last)
}

/// Whether one has its turn before another.
fn is_sooner(firsts: &[Echo], from: u32, one: Echo, other: Echo) -> bool
    ensures { result ≡ is_sooner firsts.now from one other }
{
    by_turn(firsts, from, one, other) == Ordering::Less
}

/// The order in which senders have their turn.
fn by_turn(firsts: &[Echo], from: u32, one: Echo, other: Echo) -> Ordering
    ensures { is_lt result ≡ is_sooner firsts.now from one other }
{
    let (first, second) = (rank_of(firsts, from, one), rank_of(firsts, from, other));
    (first, one.source).cmp(&(second, other.source))
}

/// The rank of a sender: those above the number come before the others of their kind.
fn rank_of(firsts: &[Echo], from: u32, echo: Echo) -> u32
    ensures { result ≡ rank_of firsts.now from echo }
{
    let round = if from < echo.source { 0 } else { 1 };
    if is_among(firsts, echo) {
        round
    } else if is_here(echo) {
        2 + round
    } else {
        4 + round
    }
}

/// The last of some senders that are here and not among the first, or else this number: there turns
/// go on.
pub fn next_turn(firsts: &[Echo], from: u32, echoed: &[Echo]) -> u32
    ensures { result ≡ next_turn firsts.now from echoed.now }
{
    let mut next = from;
    for echo in echoed {
        if is_here(*echo) && !is_among(firsts, *echo) {
            next = echo.source;
        }
    }
    next
}

/// The last source of some marks.
pub fn last_source(marks: &[Mark]) -> Option<u32>
    ensures { result ≡ last_source None marks.now }
{
    let mut last = None;
    for mark in marks {
        last = Some(mark.source());
    }
    last
}

/// The name of the newest of what is held, the newest last.
pub fn newest(drawops: &[Drawop]) -> Option<Name>
    ensures { result ≡ newest drawops.now }
{
    match drawops.last() {
        Some(drawop) => Some(drawop.name()),
        None => None,
    }
}

/// The names of the marks of a page, except for numbers of this member from 2^31 on, which only a
/// forger reports.
pub fn told_names(
    alloc: Global,
    me: u32,
    page: PageId,
    marks: &Marks,
) -> Result<Vec<Name>, AllocError>
    ensures { IfOk result (λ names. names.items ≡ told_names me page marks.now) }
{
    let told = marks
        .as_slice()
        .iter()
        .filter(|mark| !is_forged(me, **mark));
    told.map(|mark| name_of(page, *mark)).collect(alloc)
}

/// Whether it is a mark of this member from 2^31 on.
fn is_forged(me: u32, mark: Mark) -> bool
    ensures { result ≡ (nat_eq mark.source me && nat_le FIRST_FORGED mark.high) }
{
    mark.source() == me && FIRST_FORGED <= mark.high()
}

/// The name of a mark of a page.
fn name_of(page: PageId, mark: Mark) -> Name
    ensures { result ≡ name_of page mark.source mark.high }
{
    Name::new(mark.source(), page, mark.high()).unwrap()
}

/// The names near one, up to 64 away, from number 1 on and below the greatest that is held: the
/// nearest first.
pub fn near_names(alloc: Global, name: &Name, top: u32) -> Result<Vec<Name>, AllocError>
    ensures { IfOk result (λ names. names.items ≡ near_names name.now top) }
{
    let mut names = Vec::new(alloc);
    for far in 0..REACH {
        let above = name.seq().saturating_add(far + 1);
        let below = name.seq().saturating_sub(far + 1);
        push_below(&mut names, name, above, top)?;
        push_below(&mut names, name, below, top)?;
    }
    Ok(names)
}

/// The name of the source and page of `name` with this number, if there may be one below `top`.
fn push_below(names: &mut Vec<Name>, name: &Name, number: u32, top: u32) -> Result<(), AllocError>
    ensures { OnOk result (names.new.items ≡ names.old.items ++
        map (name_of name.now.page name.now.source) (if_below top number)) }
{
    if number == 0 || top <= number {
        return Ok(());
    }
    names.push(Name::new(name.source(), name.page(), number).unwrap())?;
    Ok(())
}
