//! What digests tell of pages. Each public function stands here for its contract, which is a law for
//! proofs to cite.

ghost use Rattle.std.specs.Prelude.{All};
ghost use Rattle.wb_codec.specs.Ranges.{IsDrawop};
ghost use Rattle.wb_digest.specs.Laws.{DigestsAgree, DigestsAreOne, TellPages};

use wb_codec::Datagram;
use wb_codec::laws::{
    datagrams_are_in_range, only_whole_datagrams_are_read, reading_undoes_spelling,
};
use wb_display::laws::{order_is_free, page_stands_alone};
use wb_names::Drawop;

fn drawops_are_in_range(drawops: &[Drawop])
    ensures { All IsDrawop drawops.now }
{
    for drawop in drawops {
        datagrams_are_in_range(&Datagram::Draw(*drawop));
    }
}

/// If the digests of a page are equal, both lists hold the same drawops of it and show it alike, or
/// here are two texts that differ and have one SHA-256. Nothing is asked of who sent what.
pub fn equal_digests_tell(one: &[Drawop], other: &[Drawop])
    ensures { TellPages one.now other.now }
{
    drawops_are_in_range(one);
    drawops_are_in_range(other);
    only_whole_datagrams_are_read();
    reading_undoes_spelling();
    page_stands_alone();
    order_is_free();
}

/// Lists that hold the same drawops of a page, in any order, and no name twice, have one digest of it.
pub fn digests_agree()
    ensures { DigestsAgree }
{}

/// A page of a list that holds no name twice has one digest, which is a function of what is held.
pub fn digests_are_one()
    ensures { DigestsAreOne }
{}
