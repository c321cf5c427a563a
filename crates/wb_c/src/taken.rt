//! The text of an output as bytes.
ghost use Rattle.std.specs.Prelude.{◌≡◌, IfOk};

use std::alloc::{AllocError, Global};
use wb_lines::Output;
use wb_names::Sink;

/// A sink that keeps what it is handed. It fails if memory runs out.
#[derive(Drop)]
struct Taken {
    bytes: Vec<u8>,
    failed: bool,
}

impl Sink for Taken {
    ghost use Rattle.std.specs.Prelude.{Some};

    ghost taken = { λ t. Some t.bytes.items };

    ghost has_failed = { λ t. t.failed };

    fn push(&mut self, bytes: &[u8]) -> Option<usize> {
        if self.failed {
            return None;
        }
        match self.bytes.extend_from_slice(bytes) {
            Ok(()) => Some(bytes.len()),
            Err(_) => {
                self.failed = true;
                None
            }
        }
    }
}

/// The bytes of a text that waits.
pub(crate) fn bytes_of(alloc: Global, mut output: Output) -> Result<Vec<u8>, AllocError>
    ensures { IfOk result (λ bytes. bytes.items ≡ output) }
{
    let mut taken = Taken {
        bytes: Vec::new(alloc),
        failed: false,
    };
    match output.flush(&mut taken) {
        Ok(()) => Ok(taken.bytes),
        Err(_) => Err(AllocError),
    }
}
