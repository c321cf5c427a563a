//! The texts of a block.
ghost use Rattle.std.specs.Prelude.{◌≡◌, ◌++◌, List, ℕ, Some, IfOk};
ghost use Rattle.std.specs.String.{string_bytes};
ghost use Rattle.wb_dialog.specs.Dialog.{ok_line, refused_line};
ghost use Rattle.wb_dialog.specs.Doing.{Adds, Prints};
ghost use Rattle.wb_dialog.specs.Inside.Told.{Says};

use crate::fault::Refusal;
use crate::texts::told_text;
use crate::told::Told;
use itoa::Buffer;
use std::alloc::{AllocError, Global};
use wb_lines::Output;

/// The line that closes the block of a line that is refused.
pub(crate) fn refused_line(alloc: Global, refusal: Refusal) -> Result<String, AllocError>
    ensures { IfOk result (λ text. string_bytes text ≡ refused_line refusal) }
{
    format!(in alloc; "refused {refusal}\n")
}

/// Prints the line that closes the block of a line that was taken, if a timer is due at `moment`.
/// If an allocation fails, it prints a front of it.
fn print_due(moment: u64, output: &mut Output) -> Result<(), AllocError>
    ensures { Adds output.old output.new (λ written.
        Prints written result (ok_line (Some moment))) }
{
    let mut digits = Buffer::new();
    output.add(b"ok ")?;
    output.add(digits.format(moment).as_bytes())?;
    output.add(b"\n")
}

/// The same, if a timer is due at a moment or none stands.
fn print_ok(due: Option<u64>, output: &mut Output) -> Result<(), AllocError>
    ensures { Adds output.old output.new (λ written. Prints written result (ok_line due)) }
{
    match due {
        Some(moment) => print_due(moment, output),
        None => output.add(b"ok never\n"),
    }
}

/// Prints the block of a line that was taken: what it comes to, and the line that closes it. If an
/// allocation fails, it prints a front of that.
#[tactic(auto, using(crate::proofs::Closings::closed))]
pub(crate) fn print_block(
    alloc: Global,
    told: &Told,
    due: Option<u64>,
    output: &mut Output,
) -> Result<(), AllocError>
    ensures { Adds output.old output.new (λ written. (text : List ℕ) → Says told.now text →
        Prints written result (text ++ ok_line due)) }
{
    output.add(told_text(alloc, told)?.as_slice())?;
    print_ok(due, output)
}
