//! The digest of what a list holds of a page.

ghost use Rattle.std.specs.Prelude.{◌≡◌, IfOk};
ghost use Rattle.wb_codec.specs.Spelling.{spelling};
ghost use Rattle.wb_codec.specs.declared.datagram.Datagram.TheVariants.{Draw};
ghost use Rattle.wb_digest.specs.Digest.{ArePageInOrder, IsDigest, name_order};

use sha2::{Digest, Sha256};
use std::alloc::{AllocError, Global};
use std::cmp::Ordering;
use wb_codec::{Datagram, write};
use wb_names::{Drawop, PageId};

/// Whether the name of `a` comes before that of `b`.
#[inline(always)]
fn by_name(a: &Drawop, b: &Drawop) -> Ordering
    ensures { result ≡ name_order a.now b.now }
{
    a.name().cmp(&b.name())
}

/// The drawops of a page, in ascending order of source and number.
fn in_order(alloc: Global, drawops: &[Drawop], page: PageId) -> Result<Vec<Drawop>, AllocError>
    ensures { IfOk result (λ listed. ArePageInOrder drawops.now page listed.items) }
{
    let mut listed = Vec::new(alloc);
    for drawop in drawops {
        if drawop.name().page() == page {
            listed.push(*drawop)?;
        }
    }
    listed.sort_unstable_by(|a, b| by_name(a, b));
    Ok(listed)
}

/// A drawop as its datagram.
fn datagram_of(alloc: Global, drawop: &Drawop) -> Result<Vec<u8>, AllocError>
    ensures { IfOk result (λ bytes. bytes.items ≡ spelling (Draw drawop.now)) }
{
    write(alloc, &Datagram::Draw(*drawop))
}

/// The SHA-256 of a page's drawops, deletes and restores with them, each as its datagram, in
/// ascending order of source and number. The list may stand in any order, and hold drawops of other
/// pages.
pub fn page_digest(alloc: Global, drawops: &[Drawop], page: PageId) -> Result<[u8; 32], AllocError>
    ensures { IfOk result (IsDigest drawops.now page) }
{
    let listed = in_order(alloc, drawops, page)?;
    let mut hasher = Sha256::new();
    for drawop in &listed {
        hasher.update(datagram_of(alloc, drawop)?.as_slice());
    }
    Ok(hasher.finalize())
}
