//! Drawops from words.

ghost use Rattle.std.specs.Prelude.{◌≡◌};
ghost use Rattle.wb_names.specs.Shapes.{op_of};
ghost use Rattle.wb_words.specs.Rests.{words_left};
ghost use Rattle.wb_words.specs.Reading.{Gives, MayGive, text_at, drawn, stroke_at, figure_at, written_at, change_at, op_at, drawop_at};

use crate::fault::{WordFault, WordsFault, WrongWord};
use crate::fields::{coordinate_of, glyph_of, name_of, named, u32_of, u64_of};
use crate::kind::kind_in;
use crate::rest::{Rest, next_word, no_word};
use crate::text::text_in;
use std::alloc::Global;
use wb_names::{Change, Drawop, Figure, Name, OpKind, Shape, Stroke, Target};

// The operation of a drawop is the word at place 6, its fields begin at place 7.

/// The drawop of this shape. A fault of it is one of the word at the place.
fn drawn(place: u32, name: Name, time: u64, shape: Shape<'_>) -> Result<Drawop, WrongWord>
    ensures { result ≡ drawn place name time (op_of shape.entry) }
{
    match Drawop::new(name, time, shape) {
        Ok(drawop) => Ok(drawop),
        Err(fault) => Err(WordFault::Field(fault).at(place)),
    }
}

#[tactic(auto, unfolding(crate::specs::Reading::stroke_at))]
fn stroke_of(rest: Rest<'_>) -> Result<(Stroke, Rest<'_>), WrongWord>
    ensures { Gives (λ x. (x.0, words_left x.1)) result (stroke_at (words_left rest.entry)) }
{
    let (x0, rest) = coordinate_of(7, rest)?;
    let (y0, rest) = coordinate_of(8, rest)?;
    let (x1, rest) = coordinate_of(9, rest)?;
    let (y1, rest) = coordinate_of(10, rest)?;
    let (glyph, rest) = glyph_of(11, rest)?;
    let stroke = Stroke {
        x0,
        y0,
        x1,
        y1,
        glyph,
    };
    Ok((stroke, rest))
}

#[tactic(auto, unfolding(crate::specs::Reading::figure_at))]
pub(crate) fn figure_of(
    figure: Figure,
    name: Name,
    time: u64,
    rest: Rest<'_>,
) -> Result<Drawop, WrongWord>
    ensures { result ≡ figure_at figure name time (words_left rest.entry) }
{
    let (stroke, rest) = stroke_of(rest)?;
    let drawop = drawn(11, name, time, Shape::Drawn(figure, stroke))?;
    no_word(12, rest)?;
    Ok(drawop)
}

/// The text in quotes that all words from a place on are.
#[tactic(auto, using(crate::proofs::Splitting::text_words))]
fn text_of(alloc: Global, place: u32, rest: Rest<'_>) -> Result<Vec<u8>, WordsFault>
    ensures { MayGive (λ text. text.items) result (text_at place (words_left rest.entry)) }
{
    match rest {
        Rest::End => Err(WordsFault::Word(WordFault::Missing.at(place))),
        Rest::Words(bytes) => match text_in(alloc, bytes)? {
            Some(text) => Ok(text),
            None => Err(WordsFault::Word(WordFault::Text.at(place))),
        },
    }
}

#[tactic(auto, unfolding(crate::specs::Reading::written_at))]
pub(crate) fn written_of(
    alloc: Global,
    name: Name,
    time: u64,
    rest: Rest<'_>,
) -> Result<Drawop, WordsFault>
    ensures { MayGive (λ d. d) result (written_at name time (words_left rest.entry)) }
{
    let (x, rest) = coordinate_of(7, rest)?;
    let (y, rest) = coordinate_of(8, rest)?;
    let text = text_of(alloc, 9, rest)?;
    let bytes = text.as_slice();
    Ok(drawn(9, name, time, Shape::Text { x, y, bytes })?)
}

#[tactic(auto, unfolding(crate::specs::Reading::change_at))]
fn change_of(change: Change, name: Name, time: u64, rest: Rest<'_>) -> Result<Drawop, WrongWord>
    ensures { result ≡ change_at change name time (words_left rest.entry) }
{
    let (source, rest) = u32_of(7, rest)?;
    let (seq, rest) = u32_of(8, rest)?;
    let target = Target { source, seq };
    let drawop = drawn(8, name, time, Shape::Aimed(change, target))?;
    no_word(9, rest)?;
    Ok(drawop)
}

/// The drawop whose operation is the word.
#[tactic(auto, unfolding(crate::specs::Reading::op_at))]
fn op_of(
    alloc: Global,
    name: Name,
    time: u64,
    word: &[u8],
    rest: Rest<'_>,
) -> Result<Drawop, WordsFault>
    ensures { MayGive (λ d. d) result (op_at name time word.now (words_left rest.entry)) }
{
    let Some(kind) = kind_in(word) else {
        return Err(WordsFault::Word(WordFault::Operation.at(6)));
    };
    match kind {
        OpKind::Drawn(figure) => Ok(figure_of(figure, name, time, rest)?),
        OpKind::Text => written_of(alloc, name, time, rest),
        OpKind::Aimed(change) => Ok(change_of(change, name, time, rest)?),
    }
}

/// The drawop that the words after the first say.
#[tactic(auto, unfolding(crate::specs::Reading::drawop_at))]
pub(crate) fn drawop_of(alloc: Global, rest: Rest<'_>) -> Result<Drawop, WordsFault>
    ensures { MayGive (λ d. d) result (drawop_at (words_left rest.entry)) }
{
    let (fields, rest) = name_of(2, rest)?;
    let name = named(4, fields)?;
    let (time, rest) = u64_of(5, rest)?;
    let (word, rest) = next_word(6, rest)?;
    op_of(alloc, name, time, word, rest)
}
