//! Fields from bytes.

ghost use Rattle.std.specs.Int.{w16, w32, w64};
ghost use Rattle.wb_codec.specs.Reading.{Gives, number_at, byte_at, page_at, name_at};

use crate::fault::ReadFault;
use wb_names::PageId;

/// The fields of a name, whose number may be 0.
#[derive(Clone, Copy)]
pub(crate) struct NameFields {
    pub(crate) source: u32,
    pub(crate) page: PageId,
    pub(crate) seq: u32,
}

// Each reader takes a field from the front, and gives the bytes after it.

#[inline(always)]
pub(crate) fn u8_of(bytes: &[u8]) -> Result<(u8, &[u8]), ReadFault>
    ensures { Gives (λ x. (x.0, x.1.now)) result (byte_at bytes.now) }
{
    match bytes {
        [] => Err(ReadFault::Length),
        [byte, rest @ ..] => Ok((*byte, rest)),
    }
}

#[inline(always)]
pub(crate) fn u16_of(bytes: &[u8]) -> Result<(u16, &[u8]), ReadFault>
    ensures { Gives (λ x. (x.0, x.1.now)) result (number_at w16 bytes.now) }
{
    if bytes.len() < 2 {
        return Err(ReadFault::Length);
    }
    let (front, rest) = bytes.split_at(2);
    Ok((u16::from_be_bytes([front[0], front[1]]), rest))
}

#[inline(always)]
pub(crate) fn u32_of(bytes: &[u8]) -> Result<(u32, &[u8]), ReadFault>
    ensures { Gives (λ x. (x.0, x.1.now)) result (number_at w32 bytes.now) }
{
    if bytes.len() < 4 {
        return Err(ReadFault::Length);
    }
    let (front, rest) = bytes.split_at(4);
    let number = u32::from_be_bytes([front[0], front[1], front[2], front[3]]);
    Ok((number, rest))
}

#[inline(always)]
pub(crate) fn u64_of(bytes: &[u8]) -> Result<(u64, &[u8]), ReadFault>
    ensures { Gives (λ x. (x.0, x.1.now)) result (number_at w64 bytes.now) }
{
    if bytes.len() < 8 {
        return Err(ReadFault::Length);
    }
    let (front, rest) = bytes.split_at(8);
    let number = u64::from_be_bytes([
        front[0], front[1], front[2], front[3], front[4], front[5], front[6], front[7],
    ]);
    Ok((number, rest))
}

#[inline(always)]
#[tactic(auto, unfolding(crate::specs::Reading::page_at))]
pub(crate) fn page_of(bytes: &[u8]) -> Result<(PageId, &[u8]), ReadFault>
    ensures { Gives (λ x. (x.0, x.1.now)) result (page_at bytes.now) }
{
    let (creator, rest) = u32_of(bytes)?;
    let (number, rest) = u32_of(rest)?;
    Ok((PageId { creator, number }, rest))
}

#[inline(always)]
#[tactic(auto, unfolding(crate::specs::Reading::name_at))]
pub(crate) fn name_of(bytes: &[u8]) -> Result<(NameFields, &[u8]), ReadFault>
    ensures { Gives (λ x. (record { source = x.0.source; page = x.0.page; seq = x.0.seq }, x.1.now))
        result (name_at bytes.now) }
{
    let (source, rest) = u32_of(bytes)?;
    let (page, rest) = page_of(rest)?;
    let (seq, rest) = u32_of(rest)?;
    Ok((NameFields { source, page, seq }, rest))
}
