//! Lists of entries, as marks and echoes are, from bytes and to bytes.

ghost use Rattle.std.specs.Prelude.{◌≡◌, ◌≤◌, ◌++◌, ℕ, true, List, Option, Result, None, IfOk, OnOk};
ghost use Rattle.std.specs.Result.{is_ok};
ghost use Rattle.wb_names.specs.Ascending.{is_above as above};
ghost use Rattle.wb_codec.specs.declared.fault.ReadFault.{ReadFault as ReadFaultValue};
ghost use Rattle.wb_codec.specs.Reading.{Gives, mark_at, echo_at, list_at};
ghost use Rattle.wb_codec.specs.Spelling.{mark_bytes, echo_bytes, list_bytes};
ghost use Rattle.wb_codec.specs.Checked.{listed};

use crate::body::Unread;
use crate::fault::ReadFault;
use crate::fields::{u32_of, u64_of};
use crate::parts::{echo_part, mark_part};
use std::alloc::{AllocError, Global};
use wb_names::{Echo, Entries, Entry, Mark};

/// An entry that is spelled in bytes.
pub(crate) trait Spelled: Entry {
    /// What the bytes say at the front. The source of the entry before is given, if there is one.
    ghost entry_at: { Option ℕ → List ℕ → Result (Self × List ℕ) ReadFaultValue };

    /// The bytes of an entry.
    ghost entry_bytes: { Self → List ℕ };

    /// The entry at the front, and the bytes after it.
    fn read(before: Option<u32>, bytes: &[u8]) -> Result<(Self, &[u8]), ReadFault>
        ensures entry { Gives (λ x. (x.0, x.1.now)) result (entry_at before bytes.now) }
        ensures above { IfOk result (λ x. above before (Self.source x.0) ≡ true) }
        ensures positive { IfOk result (λ x. Self.IsPositive x.0) };

    /// Adds the bytes of the entry at the end.
    fn put(&self, out: &mut Vec<u8>) -> Result<(), AllocError>
        ensures { OnOk result (out.new.items ≡ out.old.items ++ entry_bytes self.now) };
}

// Each reader looks at the length once: after that the compiler knows that each field fits.

impl Spelled for Mark {
    ghost entry_at = { mark_at };

    ghost entry_bytes = { mark_bytes };

    #[inline(always)]
    #[tactic(auto, unfolding(crate::specs::Reading::mark_at))]
    fn read(before: Option<u32>, bytes: &[u8]) -> Result<(Mark, &[u8]), ReadFault> {
        if bytes.len() < 8 {
            return Err(ReadFault::Length);
        }
        let (source, rest) = u32_of(bytes)?;
        let (high, rest) = u32_of(rest)?;
        let mark = Mark::new(source, high)?;
        if !mark.is_above(before) {
            return Err(ReadFault::Order);
        }
        Ok((mark, rest))
    }

    #[inline(always)]
    fn put(&self, out: &mut Vec<u8>) -> Result<(), AllocError> {
        out.extend_from_slice(&mark_part(self))
    }
}

impl Spelled for Echo {
    ghost entry_at = { echo_at };

    ghost entry_bytes = { echo_bytes };

    #[inline(always)]
    #[tactic(auto, unfolding(crate::specs::Reading::echo_at))]
    fn read(before: Option<u32>, bytes: &[u8]) -> Result<(Echo, &[u8]), ReadFault> {
        if bytes.len() < 20 {
            return Err(ReadFault::Length);
        }
        let (source, rest) = u32_of(bytes)?;
        let (sent, rest) = u64_of(rest)?;
        let (held, rest) = u64_of(rest)?;
        let echo = Echo { source, sent, held };
        if !echo.is_above(before) {
            return Err(ReadFault::Order);
        }
        Ok((echo, rest))
    }

    #[inline(always)]
    fn put(&self, out: &mut Vec<u8>) -> Result<(), AllocError> {
        out.extend_from_slice(&echo_part(self))
    }
}

/// The bytes after `count` entries, all of which are checked.
pub(crate) fn after_entries<E: Spelled>(count: u16, bytes: &[u8]) -> Result<&[u8], ReadFault>
    ensures { let read = list_at E.entry_at E.source count None bytes.now in
        Gives (λ rest. (listed read, rest.now)) result read }
{
    let mut rest = bytes;
    let mut before = None;
    for k in 0..count {
        let (entry, after) = E::read(before, rest)?;
        before = Some(entry.source());
        rest = after;
    }
    Ok(rest)
}

/// The list of checked entries, in one allocation. Nothing but memory can be wanting.
pub(crate) fn entries_of<E: Spelled>(
    alloc: Global,
    unread: Unread<'_>,
) -> Result<Entries<E>, AllocError>
    requires { is_ok (list_at E.entry_at E.source unread.count None unread.bytes.now) ≡ true }
    ensures { IfOk result (λ list. list ≡
        listed (list_at E.entry_at E.source unread.entry.count None unread.entry.bytes.now)) }
{
    let mut entries = Vec::with_capacity(alloc, unread.count as usize)?;
    let mut rest = unread.bytes;
    let mut before = None;
    for k in 0..unread.count {
        let (entry, after) = match E::read(before, rest) {
            Ok(read) => read,
            Err(_) => unreachable!(),
        };
        entries.push_reserved(entry);
        before = Some(entry.source());
        rest = after;
    }
    Ok(Entries::from_ascending(entries))
}

/// Adds how many entries there are, and the bytes of each.
pub(crate) fn put_entries<E: Spelled>(
    out: &mut Vec<u8>,
    entries: &Entries<E>,
) -> Result<(), AllocError>
    ensures { OnOk result (out.new.items ≡ out.old.items ++ list_bytes E.entry_bytes entries.now) }
{
    let entries = entries.as_slice();
    out.extend_from_slice(&(entries.len() as u16).to_be_bytes())?;
    for entry in entries {
        entry.put(out)?;
    }
    Ok(())
}
