//! The comments that a filter writes above a line that can't be turned.

ghost use Rattle.std.specs.Prelude.{◌≡◌, IfOk};
ghost use Rattle.wb_filters.specs.Comments.{comment};

use crate::fault::LineFault;
use std::alloc::{AllocError, Global};

/// The comment that stands in the place of a line that can't be turned: `# line NUMBER: FAULT`.
pub(crate) fn comment(alloc: Global, number: u64, fault: LineFault) -> Result<Vec<u8>, AllocError>
    ensures { IfOk result (λ text. text.items ≡ comment number fault) }
{
    let comment = format!(in alloc; "# line {number}: {fault}")?;
    Ok(comment.into_bytes())
}
