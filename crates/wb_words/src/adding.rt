//! Drawings that are to be added, from words: they have no number yet.

ghost use Rattle.std.specs.Prelude.{◌≡◌, ◌<◌, ◌^◌, IfOk, ℕ};
ghost use Rattle.wb_names.specs.Moments.{IsMoment};
ghost use Rattle.wb_names.specs.declared.name.PageId.{PageId as PageIdValue};
ghost use Rattle.wb_words.specs.Adding.{adding_at, adding_reading, earlier_fault, numberless};
ghost use Rattle.wb_words.specs.Reading.{MayGive, Gives, op_at, change_at, figure_at, written_at};
ghost use Rattle.wb_words.specs.Rests.{words_left};

use crate::drawing::{figure_of, written_of};
use crate::fault::{WordFault, WordsFault, WrongWord};
use crate::fields::{moment_of, page_of, u32_of, u64_of};
use crate::kind::kind_in;
use crate::rest::{Rest, next_word, no_word};
use std::alloc::Global;
use wb_names::{Change, FieldFault, Figure, Name, Op, OpKind, PageId, Target};

/// A drawing that is to be added to a page.
#[derive(Clone, Copy, Debug)]
pub struct Adding {
    /// The moment of the host, in microseconds, below 2^48.
    pub moment: u64,
    /// The time of its user's clock.
    pub time: u64,
    /// Where it is drawn.
    pub page: PageId,
    /// What is drawn. It has no number yet, so nothing is its own target.
    pub op: Op,
}

/// How many words stand before the operation of a drawop, and do not before that of a drawing.
const FEWER: u32 = 2;

/// A name under which to read an operation that is not a drawop yet.
fn some_name() -> Name {
    let page = PageId {
        creator: 0,
        number: 0,
    };
    match Name::new(0, page, 1) {
        Ok(name) => name,
        Err(_) => unreachable!(),
    }
}

/// A figure, whose words stand where those of a drawop do.
#[tactic(auto, using(crate::proofs::AddingLaws::figure_drawn, crate::proofs::AddingLaws::figure_wrong))]
fn figure(figure: Figure, rest: Rest<'_>) -> Result<Op, WrongWord>
    ensures { (page : PageIdValue) (time : ℕ) →
        Gives (λ op. record { name = numberless page; time = time; op = op }) result
        (figure_at figure (numberless page) time (words_left rest.entry)) }
{
    match figure_of(figure, some_name(), 0, rest) {
        Ok(drawop) => Ok(*drawop.op()),
        Err(wrong) => Err(wrong),
    }
}

/// A text, whose words stand where those of a drawop do.
#[tactic(auto, using(crate::proofs::AddingLaws::written_drawn, crate::proofs::AddingLaws::written_wrong))]
fn text(alloc: Global, rest: Rest<'_>) -> Result<Op, WordsFault>
    ensures { (page : PageIdValue) (time : ℕ) →
        MayGive (λ op. record { name = numberless page; time = time; op = op }) result
        (written_at (numberless page) time (words_left rest.entry)) }
{
    match written_of(alloc, some_name(), 0, rest) {
        Ok(drawop) => Ok(*drawop.op()),
        Err(WordsFault::Word(wrong)) => Err(WordsFault::Word(wrong)),
        Err(WordsFault::Memory) => Err(WordsFault::Memory),
    }
}

/// The change of a target, whose words stand where those of a drawop do.
#[tactic(auto, unfolding(crate::specs::Reading::change_at))]
fn change(change: Change, rest: Rest<'_>) -> Result<Op, WrongWord>
    ensures { (page : PageIdValue) (time : ℕ) →
        Gives (λ op. record { name = numberless page; time = time; op = op }) result
        (change_at change (numberless page) time (words_left rest.entry)) }
{
    let (source, rest) = u32_of(7, rest)?;
    let (seq, rest) = u32_of(8, rest)?;
    if seq == 0 {
        return Err(WordFault::Field(FieldFault::TargetZero).at(8));
    }
    no_word(9, rest)?;
    Ok(Op::Aimed(change, Target { source, seq }))
}

/// The operation of a word, whose further words stand where those of a drawop do.
#[tactic(auto, unfolding(crate::specs::Reading::op_at))]
fn op_of(alloc: Global, word: &[u8], rest: Rest<'_>) -> Result<Op, WordsFault>
    ensures { (page : PageIdValue) (time : ℕ) →
        MayGive (λ op. record { name = numberless page; time = time; op = op }) result
        (op_at (numberless page) time word.now (words_left rest.entry)) }
{
    let Some(kind) = kind_in(word) else {
        return Err(WordsFault::Word(WordFault::Operation.at(6)));
    };
    match kind {
        OpKind::Drawn(of) => Ok(figure(of, rest)?),
        OpKind::Text => text(alloc, rest),
        OpKind::Aimed(of) => Ok(change(of, rest)?),
    }
}

/// A fault of the operation of a drawop, with its place among the words of a drawing.
fn earlier(fault: WordsFault) -> WordsFault
    ensures { result ≡ earlier_fault fault }
{
    match fault {
        WordsFault::Word(wrong) => WordsFault::Word(WrongWord {
            place: wrong.place.saturating_sub(FEWER),
            fault: wrong.fault,
        }),
        WordsFault::Memory => WordsFault::Memory,
    }
}

/// The drawing that words say, as `1000 500 7/1 line 0 0 4 0 *`: the moment, the time of its user's
/// clock, its page, and what is drawn, as in the words of a drawop. Or the first word from the left
/// that is wrong, or `Memory` if a text finds none.
#[tactic(auto, unfolding(crate::specs::Adding::adding_at))]
pub fn read_adding(alloc: Global, line: &[u8]) -> Result<Adding, WordsFault>
    ensures reading { MayGive (λ a. a) result (adding_reading line.now) }
    ensures moment { IfOk result (λ a. IsMoment a.moment) }
{
    let (moment, rest) = moment_of(1, Rest::Words(line))?;
    let (time, rest) = u64_of(2, rest)?;
    let (page, rest) = page_of(3, rest)?;
    let (word, rest) = next_word(4, rest)?;
    match op_of(alloc, word, rest) {
        Ok(op) => Ok(Adding {
            moment,
            time,
            page,
            op,
        }),
        Err(fault) => Err(earlier(fault)),
    }
}
