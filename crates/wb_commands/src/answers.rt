//! The lines that answer questions, the counts of a batch, and what a line comes to.
ghost use Rattle.std.specs.Prelude.{◌≡◌, ◌∷◌, [], ℕ, List, IfOk, Some};
ghost use Rattle.std.specs.String.{string_bytes};
ghost use Rattle.wb_names.specs.Arrivals.{counts, counts_of};
ghost use Rattle.wb_member.specs.Holding.{outcome_in};
ghost use Rattle.wb_member.specs.Questions.{told};
ghost use Rattle.wb_commands.specs.Answers.{answer_text, batch_line, digest_line};
ghost use Rattle.wb_commands.specs.Doing.{Says};

use crate::listing::counted_text;
use crate::sent_lines::done_text;
use crate::told::Told;
use std::alloc::{AllocError, Global};
use wb_board::Reply;
use wb_display::Canvas;
use wb_member::Answer;

/// The line that ends a batch: how many of its drawops were fresh, held already, clashed with one
/// of their name, and were left for want of a cell.
pub fn batch_line(
    alloc: Global,
    fresh: u32,
    again: u32,
    clash: u32,
    left: u32,
) -> Result<String, AllocError>
    ensures { IfOk result (λ text. string_bytes text ≡ batch_line (counts fresh again clash left)) }
{
    format!(in alloc; "batch {fresh} {again} {clash} {left}\n")
}

/// The line that ends the batch that one drawop is, by what became of it.
pub fn arrival_line(became: Option<Reply>) -> &'static [u8]
    ensures { result.now ≡ batch_line (counts_of (outcome_in became ∷ [])) }
{
    match became {
        Some(Reply::New(_)) => b"batch 1 0 0 0\n",
        Some(Reply::Again(_)) => b"batch 0 1 0 0\n",
        Some(Reply::Clash(_)) => b"batch 0 0 1 0\n",
        None => b"batch 0 0 0 1\n",
    }
}

/// A canvas.
fn canvas_text(alloc: Global, canvas: &Canvas) -> Result<Vec<u8>, AllocError>
    ensures { IfOk result (λ text. text.items ≡ canvas.now) }
{
    let mut text = Vec::new(alloc);
    text.extend_from_slice(canvas.bytes())?;
    Ok(text)
}

/// The digest of a page, in hexadecimal.
fn digest_line(alloc: Global, bytes: [u8; 32]) -> Result<String, AllocError>
    ensures { IfOk result (λ text. string_bytes text ≡ digest_line bytes) }
{
    let digits = hex::encode(alloc, bytes)?;
    format!(in alloc; "digest {digits}\n")
}

/// The text of an answer. That no number is left has none.
fn answer_text(alloc: Global, answer: &Answer) -> Result<Vec<u8>, AllocError>
    ensures { IfOk result (λ written. (text : List ℕ) →
        answer_text (told answer.now) ≡ Some text → written.items ≡ text) }
{
    match answer {
        Answer::Canvas(canvas) => canvas_text(alloc, canvas),
        Answer::Gaps(gaps) => counted_text(alloc, "gaps ", gaps),
        Answer::Report(marks) => counted_text(alloc, "report ", marks.as_slice()),
        Answer::Pages(pages) => counted_text(alloc, "pages ", pages),
        Answer::View(drawops) => counted_text(alloc, "view ", drawops),
        Answer::Known(pages) => counted_text(alloc, "known ", pages),
        Answer::Next(Some(number)) => Ok(format!(in alloc; "next {number}\n")?.into_bytes()),
        Answer::Digest(bytes) => Ok(digest_line(alloc, *bytes)?.into_bytes()),
        Answer::Next(None) => Ok(Vec::new(alloc)),
    }
}

/// The text of what a line comes to.
pub fn told_text(alloc: Global, told: &Told) -> Result<Vec<u8>, AllocError>
    ensures { IfOk result (λ written. (text : List ℕ) → Says told.now text →
        written.items ≡ text) }
{
    match told {
        Told::Nothing => Ok(Vec::new(alloc)),
        Told::Done(done) => Ok(done_text(alloc, done)?.into_bytes()),
        Told::Answer(answer) => answer_text(alloc, answer),
    }
}
