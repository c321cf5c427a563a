//! The bytes of what has as many in each datagram.

ghost use Rattle.std.specs.Prelude.{◌≡◌, [], ◌∷◌, ◌++◌};
ghost use Rattle.std.specs.List.{flat_map};
ghost use Rattle.std.specs.Int.{w16, w32, w64, to_be_bytes};
ghost use Rattle.wb_codec.specs.Kinds;
ghost use Rattle.wb_codec.specs.Spelling.{page_bytes, name_bytes, stroke_bytes, target_bytes, mark_bytes, echo_bytes};

use crate::version::op_code;
use wb_names::{Change, Drawop, Echo, Figure, Mark, Name, OpKind, PageId, Stroke, Target};

// Each of these is added to a datagram as a whole, so that the
// room for it is looked at once, and not at each field.

/// The header of a body of `len` bytes.
#[inline(always)]
pub(crate) fn header(version: u8, kind: u8, len: u32) -> [u8; 8]
    ensures { result ≡ 0x57 ∷ 0x42 ∷ version ∷ kind ∷ to_be_bytes w32 len }
{
    let [l0, l1, l2, l3] = len.to_be_bytes();
    [b'W', b'B', version, kind, l0, l1, l2, l3]
}

/// Two numbers, one after the other.
#[inline(always)]
fn pair(first: u32, second: u32) -> [u8; 8]
    ensures { result ≡ to_be_bytes w32 first ++ to_be_bytes w32 second }
{
    let [a0, a1, a2, a3] = first.to_be_bytes();
    let [b0, b1, b2, b3] = second.to_be_bytes();
    [a0, a1, a2, a3, b0, b1, b2, b3]
}

/// A drawop's name and time, eight bytes a row: longer arrays are stored byte by byte.
#[inline(always)]
pub(crate) fn drawop_front(drawop: &Drawop) -> [[u8; 8]; 3]
    ensures { flat_map (λ row. row) result ≡ name_bytes drawop.now.name ++
        to_be_bytes w64 drawop.now.time }
{
    let name = drawop.name();
    let page = name.page();
    [
        pair(name.source(), page.creator),
        pair(page.number, name.seq()),
        drawop.time().to_be_bytes(),
    ]
}

/// What is drawn between two ends.
#[inline(always)]
pub(crate) fn stroke_part(figure: Figure, stroke: Stroke) -> [u8; 10]
    ensures { result ≡ Kinds.op_code (OpKind.Drawn figure) ∷ stroke_bytes stroke }
{
    let [a0, a1] = stroke.x0.to_be_bytes();
    let [b0, b1] = stroke.y0.to_be_bytes();
    let [c0, c1] = stroke.x1.to_be_bytes();
    let [d0, d1] = stroke.y1.to_be_bytes();
    let number = op_code(OpKind::Drawn(figure));
    [number, a0, a1, b0, b1, c0, c1, d0, d1, stroke.glyph]
}

/// A change of a target.
#[inline(always)]
pub(crate) fn target_part(change: Change, target: Target) -> [u8; 9]
    ensures { result ≡ Kinds.op_code (OpKind.Aimed change) ∷ target_bytes target }
{
    let [s0, s1, s2, s3] = target.source.to_be_bytes();
    let [q0, q1, q2, q3] = target.seq.to_be_bytes();
    let number = op_code(OpKind::Aimed(change));
    [number, s0, s1, s2, s3, q0, q1, q2, q3]
}

/// A text's number, its point and how many bytes it has.
#[inline(always)]
pub(crate) fn text_front(x: u16, y: u16, count: u8) -> [u8; 6]
    ensures { result ≡ Kinds.op_code OpKind.Text ∷
        (to_be_bytes w16 x ++ to_be_bytes w16 y ++ count ∷ []) }
{
    let [x0, x1] = x.to_be_bytes();
    let [y0, y1] = y.to_be_bytes();
    [op_code(OpKind::Text), x0, x1, y0, y1, count]
}

#[inline(always)]
pub(crate) fn mark_part(mark: &Mark) -> [u8; 8]
    ensures { result ≡ mark_bytes mark.now }
{
    pair(mark.source(), mark.high())
}

#[inline(always)]
pub(crate) fn echo_part(echo: &Echo) -> [u8; 20]
    ensures { result ≡ echo_bytes echo.now }
{
    let [s0, s1, s2, s3] = echo.source.to_be_bytes();
    let [t0, t1, t2, t3, t4, t5, t6, t7] = echo.sent.to_be_bytes();
    let [h0, h1, h2, h3, h4, h5, h6, h7] = echo.held.to_be_bytes();
    [
        s0, s1, s2, s3, t0, t1, t2, t3, t4, t5, t6, t7, h0, h1, h2, h3, h4, h5, h6, h7,
    ]
}

/// Who sends a session message, when, and the page that it is of.
#[inline(always)]
pub(crate) fn session_front(sender: u32, sent: u64, page: PageId) -> [u8; 20]
    ensures { result ≡ to_be_bytes w32 sender ++ to_be_bytes w64 sent ++ page_bytes page }
{
    let [s0, s1, s2, s3] = sender.to_be_bytes();
    let [t0, t1, t2, t3, t4, t5, t6, t7] = sent.to_be_bytes();
    let [p0, p1, p2, p3, p4, p5, p6, p7] = pair(page.creator, page.number);
    [
        s0, s1, s2, s3, t0, t1, t2, t3, t4, t5, t6, t7, p0, p1, p2, p3, p4, p5, p6, p7,
    ]
}

/// Who asks, and for what name, a number a row.
#[inline(always)]
pub(crate) fn request_part(asker: u32, name: Name) -> [[u8; 4]; 5]
    ensures { flat_map (λ row. row) result ≡ to_be_bytes w32 asker ++ name_bytes name }
{
    let page = name.page();
    [
        asker.to_be_bytes(),
        name.source().to_be_bytes(),
        page.creator.to_be_bytes(),
        page.number.to_be_bytes(),
        name.seq().to_be_bytes(),
    ]
}

/// Who tells the state of a page, and of which, a number a row.
#[inline(always)]
pub(crate) fn page_state_front(sender: u32, page: PageId) -> [[u8; 4]; 3]
    ensures { flat_map (λ row. row) result ≡ to_be_bytes w32 sender ++ page_bytes page }
{
    [
        sender.to_be_bytes(),
        page.creator.to_be_bytes(),
        page.number.to_be_bytes(),
    ]
}
