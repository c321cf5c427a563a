//! What a line does with the datagram that it carries.

ghost use Rattle.std.specs.Prelude.{◌≡◌};
ghost use Rattle.wb_filters.specs.Turning.{carrier_of, carrier_for, front, may_carry};

use wb_codec::Datagram;

/// What a line does with the datagram whose bytes it carries.
#[derive(Clone, Copy)]
pub(crate) enum Carrier {
    /// A drawop arrives.
    Arrive,
    /// Any other datagram is heard.
    Hear,
    /// A datagram is sent.
    Send,
}

/// The carrier that a word names.
pub(crate) fn carrier_of(word: &[u8]) -> Option<Carrier>
    ensures { result ≡ carrier_of word.now }
{
    if word == b"arrive".as_slice() {
        Some(Carrier::Arrive)
    } else if word == b"hear".as_slice() {
        Some(Carrier::Hear)
    } else if word == b"send".as_slice() {
        Some(Carrier::Send)
    } else {
        None
    }
}

/// The carrier of a datagram that comes in.
pub(crate) fn carrier_for(datagram: &Datagram) -> Carrier
    ensures { result ≡ carrier_for datagram.now }
{
    match datagram {
        Datagram::Draw(_) => Carrier::Arrive,
        _ => Carrier::Hear,
    }
}

/// What stands before the digits of its lines.
pub(crate) fn front(carrier: Carrier) -> &'static [u8]
    ensures { result.now ≡ front carrier }
{
    match carrier {
        Carrier::Arrive => b"arrive ",
        Carrier::Hear => b"hear ",
        Carrier::Send => b"send ",
    }
}

/// Whether its lines take a datagram of this kind.
pub(crate) fn takes(carrier: Carrier, datagram: &Datagram) -> bool
    ensures { result ≡ may_carry carrier datagram.now }
{
    match (carrier, datagram) {
        (Carrier::Send, _) => true,
        (Carrier::Arrive, Datagram::Draw(_)) => true,
        (Carrier::Arrive, _) => false,
        (Carrier::Hear, Datagram::Draw(_)) => false,
        (Carrier::Hear, _) => true,
    }
}
