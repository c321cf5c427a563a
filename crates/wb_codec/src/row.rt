//! Drawops as rows of words.

ghost use Rattle.std.specs.Prelude.{◌≡◌, ◌<◌, ◌≤◌, ◌*◌, ◌^◌, ◌/◌, ◌%◌, ◌∷◌, length, option_map, IfSome, drop, replicate};
ghost use Rattle.std.specs.List.{flat_map};
ghost use Rattle.std.specs.Int.{w64, to_be_bytes};
ghost use Rattle.wb_names.specs.Values.{DrawopValue};
ghost use Rattle.wb_names.specs.Drawing.{IsLawful};
ghost use Rattle.wb_names.specs.Shapes.{op_of, TextFits};
ghost use Rattle.wb_names.specs.TextFields.{padded as padded_text};
ghost use Rattle.wb_names.specs.declared.text.TheConstants.Text.{MAX_LEN};
ghost use Rattle.wb_codec.specs.Ranges.{IsDrawop, HasTarget};
ghost use Rattle.wb_codec.specs.Rows.{row, row_words, pair_word, op_word as op_word_of, op_words as op_words_of, text_word as text_word_of, text_words};
ghost use Rattle.wb_codec.specs.RowReading.{high_half, low_half, op_in};

use crate::version::{op_code, op_kind_of};
use wb_names::{Drawop, Name, Op, OpKind, PageId, Shape, Stroke, Target, Text};

/// How many words the record of a drawop has.
pub const ROW_WORDS: usize = 12;

/// Two numbers of four bytes in a word, the first in its high half.
#[inline(always)]
fn pair(high: u32, low: u32) -> u64
    ensures { result ≡ pair_word high low }
{
    ((high as u64) << 32) + low as u64
}

/// An operation's number, a byte, and four numbers of twelve bits, from the top of a word down.
#[inline(always)]
fn op_word(kind: u8, byte: u8, p: u16, q: u16, r: u16, s: u16) -> u64
    requires p { p < 2 ^ 12 }
    requires q { q < 2 ^ 12 }
    requires r { r < 2 ^ 12 }
    requires s { s < 2 ^ 12 }
    ensures { result ≡ op_word_of kind byte p q r s }
{
    ((kind as u64) << 56)
        + ((byte as u64) << 48)
        + ((p as u64) << 36)
        + ((q as u64) << 24)
        + ((r as u64) << 12)
        + s as u64
}

/// The text, and zeros after it.
#[inline(always)]
fn padded(text: &[u8]) -> [u8; 64]
    requires { length text.now ≤ MAX_LEN }
    ensures { result ≡ padded_text text.now }
{
    let mut bytes = [0; 64];
    bytes[..text.len()].copy_from_slice(text);
    bytes
}

/// The bytes from `8 * k` on as a word.
#[inline(always)]
fn text_word(bytes: &[u8; 64], k: usize) -> u64
    requires { k < 8 }
    ensures { result ≡ text_word_of bytes.now k }
{
    let word = &bytes[8 * k..8 * k + 8];
    u64::from_be_bytes([
        word[0], word[1], word[2], word[3], word[4], word[5], word[6], word[7],
    ])
}

/// An operation's word and a target's, and zeros after them.
#[inline(always)]
fn short_words(word: u64, target: u64) -> [u64; 9]
    ensures { result ≡ word ∷ target ∷ replicate 7 0 }
{
    [word, target, 0, 0, 0, 0, 0, 0, 0]
}

/// An operation's word, and a text of at most 64 bytes as eight words.
#[inline(always)]
fn long_words(word: u64, text: &[u8]) -> [u64; 9]
    requires { length text.now ≤ MAX_LEN }
    ensures { result ≡ word ∷ text_words text.now }
{
    let bytes = padded(text);
    [
        word,
        text_word(&bytes, 0),
        text_word(&bytes, 1),
        text_word(&bytes, 2),
        text_word(&bytes, 3),
        text_word(&bytes, 4),
        text_word(&bytes, 5),
        text_word(&bytes, 6),
        text_word(&bytes, 7),
    ]
}

/// The words that the drawop's operation tells.
#[inline(always)]
fn op_words(drawop: &Drawop) -> [u64; 9]
    ensures words { result ≡ op_words_of drawop.now.op }
    ensures lawful { IsLawful drawop.now.name drawop.now.op }
    ensures target { HasTarget drawop.now.op }
{
    let op = drawop.op();
    let code = op_code(op.kind());
    match op {
        Op::Drawn(_, s) => short_words(op_word(code, s.glyph, s.x0, s.y0, s.x1, s.y1), 0),
        Op::Text { x, y, text } => {
            let text = text.as_slice();
            long_words(op_word(code, text.len() as u8, *x, *y, 0, 0), text)
        }
        Op::Aimed(_, target) => {
            let word = op_word(code, 0, 0, 0, 0, 0);
            short_words(word, pair(target.source, target.seq))
        }
    }
}

/// The record of a drawop: its source and number, its page, its time, its operation, and at last
/// the target or the text, from the most significant bits of each word on; words that it has no use
/// for are 0.
pub fn to_row(drawop: &Drawop) -> [u64; 12]
    ensures record { result ≡ row drawop.now }
    ensures len { length result ≡ row_words }
    ensures drawop { IsDrawop drawop.now }
{
    let name = drawop.name();
    let page = name.page();
    let named = pair(name.source(), name.seq());
    let placed = pair(page.creator, page.number);
    let [op, a, b, c, d, e, f, g, h] = op_words(drawop);
    [named, placed, drawop.time(), op, a, b, c, d, e, f, g, h]
}

/// The two numbers in a word, its high half first.
#[inline(always)]
fn halves(word: u64) -> (u32, u32)
    ensures high { result.0 ≡ high_half word }
    ensures low { result.1 ≡ low_half word }
{
    ((word >> 32) as u32, (word % (1 << 32)) as u32)
}

/// The bytes of these words, each from its most significant byte on.
#[inline(always)]
fn text_bytes(words: &[u64]) -> [u8; 64]
    requires { length words.now ≡ 8 }
    ensures { result ≡ flat_map (to_be_bytes w64) words.now }
{
    let mut bytes = [0; 64];
    for (k, word) in words.iter().enumerate() {
        bytes[8 * k..8 * k + 8].copy_from_slice(&word.to_be_bytes());
    }
    bytes
}

/// The operation that these words tell, not yet checked.
#[inline(always)]
#[tactic(auto, unfolding(crate::specs::RowReading::op_in))]
fn shape_in<'a>(word: u64, target: u64, bytes: &'a [u8; 64]) -> Option<Shape<'a>>
    ensures { option_map op_of result ≡ op_in word target bytes.now }
{
    let kind = op_kind_of((word >> 56) as u8)?;
    let stroke = Stroke {
        x0: ((word >> 36) % (1 << 12)) as u16,
        y0: ((word >> 24) % (1 << 12)) as u16,
        x1: ((word >> 12) % (1 << 12)) as u16,
        y1: (word % (1 << 12)) as u16,
        glyph: ((word >> 48) % (1 << 8)) as u8,
    };
    let (source, seq) = halves(target);
    let target = Target { source, seq };
    match kind {
        OpKind::Drawn(figure) => Some(Shape::Drawn(figure, stroke)),
        OpKind::Text if stroke.glyph as usize <= Text::MAX_LEN => Some(Shape::Text {
            x: stroke.x0,
            y: stroke.y0,
            bytes: &bytes[..stroke.glyph as usize],
        }),
        OpKind::Text => None,
        OpKind::Aimed(change) => Some(Shape::Aimed(change, target)),
    }
}

/// The drawop whose record these words are, for callers who know that they are one. Unused words
/// and parts of words are not looked at, so of other words it may answer a drawop too: `from_row`
/// tells them apart.
#[inline(always)]
pub fn drawop_in(words: &[u64; 12]) -> Option<Drawop>
    ensures { (d : DrawopValue) → IsDrawop d → row d ≡ words.now → result ≡ Some d }
{
    let (source, seq) = halves(words[0]);
    let (creator, number) = halves(words[1]);
    let name = Name::new(source, PageId { creator, number }, seq).ok()?;
    let bytes = text_bytes(&words[4..]);
    let shape = shape_in(words[3], words[4], &bytes)?;
    Drawop::new(name, words[2], shape).ok()
}

/// The drawop whose record these words are, and none if there is no such drawop.
pub fn from_row(words: &[u64; 12]) -> Option<Drawop>
    ensures found { IfSome result (λ d. (row d ≡ words.now) × IsDrawop d) }
    ensures only { (d : DrawopValue) → IsDrawop d → row d ≡ words.now → result ≡ Some d }
{
    let drawop = drawop_in(words)?;
    if to_row(&drawop) == *words {
        Some(drawop)
    } else {
        None
    }
}
