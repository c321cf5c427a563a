//! Two threads relay on desks of one board. One of these is asked what it lacks, and both meet.

ghost use Rattle.std.specs.Prelude.{IfSome};
ghost use Rattle.wb_board.specs.Desks.{IsPassOf, IsSamePass};

use std::alloc::Global;
use std::thread::{self, Threads};
use wb_board::{Board, Desk};
use wb_feed::relay;
use wb_names::{Drawop, Mark, Marks, Name, PageId, Shape};

const PAGE: PageId = PageId {
    creator: 7,
    number: 1,
};

/// A text on the page, of this source.
fn drawop(source: u32) -> Option<Drawop> {
    let name = Name::new(source, PAGE, 1).ok()?;
    let text = Shape::Text {
        x: 1,
        y: 1,
        bytes: b"ab",
    };
    Drawop::new(name, 10, text).ok()
}

/// A report of the first drawop of this source.
fn report(alloc: Global, source: u32) -> Option<Marks> {
    let mark = Mark::new(source, 1).ok()?;
    let list = [mark].to_vec(alloc).ok()?;
    Marks::new(list).ok()
}

fn open(alloc: Global) -> Option<(Board, Desk)>
    ensures { IfSome result (λ t. IsPassOf t.0 t.1) }
{
    Board::open(alloc, 8).ok()
}

/// A desk with `rows` rows of this one.
fn split(board: &Board, alloc: Global, desk: &mut Desk, rows: u32) -> Option<Desk>
    requires { IsPassOf board.now desk.old }
    ensures same { IsSamePass desk.old desk.new }
    ensures new { IfSome result (λ other. IsPassOf board.now other) }
{
    board.split(alloc, desk, rows).ok()
}

/// Whether two desks tell one another of the drawop.
fn tell_both<R: Threads + Sync>(
    rt: &R,
    alloc: Global,
    board: &Board,
    one: &mut Desk,
    two: &mut Desk,
    drawop: &Drawop,
) -> bool
    requires { IsPassOf board.now one.old × IsPassOf board.now two.old }
    ensures { IsSamePass one.old one.new × IsSamePass two.old two.new }
{
    let to = relay(rt, alloc, board, one, two, drawop).is_ok();
    let fro = relay(rt, alloc, board, two, one, drawop).is_ok();
    to && fro
}

/// Whether a desk and one that is split off it tell one another of the drawop; and the desk.
fn relays<R: Threads + Sync>(
    rt: &R,
    alloc: Global,
    board: &Board,
    mut desk: Desk,
    drawop: &Drawop,
) -> (bool, Desk)
    requires { IsPassOf board.now desk }
    ensures { IsPassOf board.now result.1 }
{
    match split(board, alloc, &mut desk, 1) {
        Some(mut other) => (
            tell_both(rt, alloc, board, &mut desk, &mut other, drawop),
            desk,
        ),
        None => (false, desk),
    }
}

/// Two threads relay a drawop each, beside one another. Whether both could; and the desks.
fn relay_on_threads<R: Threads + Sync>(
    rt: &R,
    alloc: Global,
    shared: &Board,
    one: Desk,
    two: Desk,
    drawops: &[Drawop; 2],
) -> (bool, Desk, Desk)
    requires { IsPassOf shared.now one × IsPassOf shared.now two }
    ensures { IsPassOf shared.now result.1 × IsPassOf shared.now result.2 }
{
    let [first, second] = drawops;
    let (left, right) = thread::join(
        rt,
        move ||
            requires { IsPassOf shared.now one }
            ensures { IsPassOf shared.entry.now result.1 }
        { relays(rt, alloc, shared, one, first) },
        move ||
            requires { IsPassOf shared.now two }
            ensures { IsPassOf shared.entry.now result.1 }
        { relays(rt, alloc, shared, two, second) },
    );
    let (well, one) = left;
    let (other_well, two) = right;
    (well && other_well, one, two)
}

/// Whether a desk has all that these marks tell of the page.
fn lacks_nothing(board: &Board, alloc: Global, desk: &mut Desk, marks: &Marks) -> bool
    requires { IsPassOf board.now desk.old }
    ensures { IsPassOf board.now desk.new }
{
    match board.gaps(alloc, desk, PAGE, marks) {
        Ok(gaps) => gaps.is_empty(),
        Err(_) => false,
    }
}

/// Whether two desks that meet have one list, of `count` drawops.
fn meet(board: &Board, one: &mut Desk, two: &mut Desk, count: usize) -> bool
    requires { IsPassOf board.now one.old × IsPassOf board.now two.old }
{
    let met = board.meet(one, two).is_ok();
    met && one.list() == two.list() && one.list().len() == count
}

/// Whether a desk lacks nothing of a report, and then has one list with another desk, of two
/// drawops.
fn agree(board: &Board, alloc: Global, one: Desk, two: Desk, marks: &Marks) -> bool
    requires { IsPassOf board.now one × IsPassOf board.now two }
{
    let (mut one, mut two) = (one, two);
    let knows = lacks_nothing(board, alloc, &mut one, marks);
    knows && meet(board, &mut one, &mut two, 2)
}

/// Whether two desks of a board relay these drawops and then agree.
fn relay_and_meet<R: Threads + Sync>(
    rt: &R,
    alloc: Global,
    board: &Board,
    mut root: Desk,
    drawops: &[Drawop; 2],
    marks: &Marks,
) -> bool
    requires { IsPassOf board.now root }
{
    let Some(other) = split(board, alloc, &mut root, 4) else {
        return false;
    };
    let (well, one, two) = relay_on_threads(rt, alloc, board, root, other, drawops);
    well && agree(board, alloc, one, two, marks)
}

fn all_goes_well<R: Threads + Sync>(rt: &R, alloc: Global) -> Option<bool> {
    let drawops = [drawop(8)?, drawop(9)?];
    let marks = report(alloc, 8)?;
    let (board, root) = open(alloc)?;
    Some(relay_and_meet(rt, alloc, &board, root, &drawops, &marks))
}

#[test]
fn two_threads_relay_and_meet(rt: HostRuntime) {
    assert!(rt; all_goes_well(&rt, rt.alloc()) == Some(true));
}
