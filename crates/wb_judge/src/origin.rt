//! Where a datagram came from.

ghost use Rattle.std.specs.Prelude.{◌≡◌};
ghost use Rattle.wb_judge.specs.Origins.{same_origin, same_owner};

/// Where a datagram came from, as the network names it: an address, a name at a broker, a tag under
/// a seal. It has an owner if the network lets nobody else send from there. Two origins may have
/// one owner, who started twice.
#[derive(Clone, Copy, Debug)]
pub struct Origin {
    pub place: u64,
    pub owner: Option<u64>,
}

impl Origin {
    /// Whether it is this origin.
    pub fn is(&self, other: &Origin) -> bool
        ensures { result ≡ same_origin self.now other.now }
    {
        self.place == other.place && is_owner(self.owner, other.owner)
    }
}

/// Whether both have no owner, or the same.
pub(crate) fn is_owner(one: Option<u64>, other: Option<u64>) -> bool
    ensures { result ≡ same_owner one other }
{
    match (one, other) {
        (None, None) => true,
        (Some(a), Some(b)) => a == b,
        _ => false,
    }
}
