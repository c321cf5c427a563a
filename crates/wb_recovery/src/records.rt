//! What is kept of each name, by name.
ghost use Rattle.std.specs.Prelude.{◌≡◌, true, if◌then◌else◌, IfOk};
ghost use Rattle.std.specs.Prelude.{Some as some};
ghost use Rattle.std.specs.BTreeMap.{IsOrdered};
ghost use Rattle.wb_names.specs.Values.{NameValue};
ghost use Rattle.wb_names.specs.Orders.{same_name, name_cmp};
ghost use Rattle.wb_recovery.specs.Timing.{is_standing};
ghost use Rattle.wb_recovery.specs.Values.{record_at, timers_at};

use crate::timers::Timers;
use std::alloc::AllocError;
use std::collections::BTreeMap;
use wb_names::Name;

/// What is kept of a name.
pub(crate) fn timers_of(records: &BTreeMap<Name, Timers>, name: &Name) -> Timers
    ensures { result ≡ timers_at records.now.entries name.now }
{
    records.get(name).copied().unwrap_or(Timers::NONE)
}

/// The same records.
pub(crate) fn copy_of(
    records: &BTreeMap<Name, Timers>,
) -> Result<BTreeMap<Name, Timers>, AllocError>
    ensures { IfOk result (λ copy. copy.entries ≡ records.now.entries) }
{
    records.clone()
}

/// Writes over the record of a name with a timer.
pub(crate) fn rewrite(records: &mut BTreeMap<Name, Timers>, name: Name, after: Timers)
    requires { is_standing (timers_at records.old.entries name) ≡ true }
    ensures records { (n : NameValue) → record_at records.new.entries n ≡
        (if same_name name n then some after else record_at records.old.entries n) }
    ensures written { (n : NameValue) → timers_at records.new.entries n ≡
        (if same_name name n then after else timers_at records.old.entries n) }
    ensures ordered { IsOrdered name_cmp records.new }
{
    // Only an insertion of a new name can want memory.
    let _ = records.insert(name, after);
}
