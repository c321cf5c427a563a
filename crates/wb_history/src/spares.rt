//! Lists that came back from joined passes. A split takes one and adds what came since, so that it
//! copies no list.
ghost use Rattle.std.specs.Prelude.{◌≡◌, List, IfOk};
ghost use mathlib.Core.List.{IsPrefix};
ghost use Rattle.wb_names.specs.Values.{DrawopValue};
ghost use Rattle.wb_names.specs.History.{IsHistory};
ghost use Rattle.wb_history.specs.Indexed.{AreFronts};

use crate::seen::Seen;
use std::alloc::AllocError;

/// How many lists a pass keeps: as many as a batch has workers.
const MOST: usize = 8;

/// How many drawops the lists have together, at most, when one more is kept. A drawop takes some
/// 150 bytes with its name in the index, so that all lists that are kept take about 40 MB: eight of
/// 32,768 drawops, or four of all.
const MOST_DRAWOPS: usize = 262_144;

/// Another list of the drawops that were seen: a spare one with what came since, or a copy if there
/// is none. After a fault the spare is gone.
pub(crate) fn another(spares: &mut Vec<Seen>, seen: &Seen) -> Result<Seen, AllocError>
    requires spares { AreFronts spares.old.items seen.now.items }
    requires once { IsHistory seen.now.items }
    ensures list { IfOk result (λ list. list.items ≡ seen.now.items) }
    ensures spares { AreFronts spares.new.items seen.now.items }
{
    let Some(mut list) = spares.pop() else {
        return seen.copied();
    };
    list.reserve(seen.len() - list.len())?;
    list.extend_to(seen.as_slice());
    Ok(list)
}

/// Keeps a list for a later split, while there are few and memory lasts. Otherwise it goes. So many
/// drawops were seen, and no list that is kept has more.
pub(crate) fn keep(spares: &mut Vec<Seen>, list: Seen, seen: usize)
    ensures { (seen : List DrawopValue) → AreFronts spares.old.items seen →
        IsPrefix list.items seen → AreFronts spares.new.items seen }
{
    if spares.len() < MOST && seen <= MOST_DRAWOPS / (spares.len() + 1) {
        let _kept = spares.push(list);
    }
}
