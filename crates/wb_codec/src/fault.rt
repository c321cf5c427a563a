//! Why bytes are not a datagram.

ghost use Rattle.std.specs.Prelude.{◌≡◌};
ghost use Rattle.wb_codec.specs.declared.fault.ReadFault.TheVariants.{Field};

use thiserror::Error;
use wb_names::FieldFault;

/// Why bytes are not a datagram: the first check that fails. `Memory` alone says nothing about the
/// bytes: they are a datagram, for whose lists there was no memory.
///
/// The checks come in the order of the variants, with three exceptions. That the header tells more
/// bytes than follow is found after the kind. The number of an operation is checked where it
/// stands, before the sizes of what follows it. And the entries of lists are checked one by one,
/// each for its size, its number and its order; bytes after the last list are found then.
#[derive(Clone, Copy, Debug, PartialEq, Eq, Error)]
pub enum ReadFault {
    /// Fewer bytes than the header has, or fewer than it tells.
    #[error("fewer bytes than the header tells")]
    Short,
    /// The first two bytes are not `WB`.
    #[error("not a datagram of a whiteboard")]
    Magic,
    /// The version is neither 1 nor 2.
    #[error("unknown version")]
    Version,
    /// The version has no datagram of this kind.
    #[error("unknown kind")]
    Kind,
    /// More bytes than the header tells.
    #[error("more bytes than the header tells")]
    Trailing,
    /// A field does not fit into the body, or bytes are left after the last.
    #[error("wrong length of the body")]
    Length,
    /// The version has no operation of this number.
    #[error("unknown operation")]
    OpKind,
    /// A field is out of its range.
    #[error("{0}")]
    Field(FieldFault),
    /// A source of a list is not above the one before it.
    #[error("sources out of order")]
    Order,
    /// No memory for the lists.
    #[error("out of memory")]
    Memory,
}

impl ReadFault {
    ghost use Rattle.wb_codec.specs.Fault.{read_code};

    /// The number of the fault, from 1.
    pub fn code(&self) -> u32
        ensures { result ≡ read_code self.now }
    {
        match self {
            ReadFault::Short => 1,
            ReadFault::Magic => 2,
            ReadFault::Version => 3,
            ReadFault::Kind => 4,
            ReadFault::Trailing => 5,
            ReadFault::Length => 6,
            ReadFault::OpKind => 7,
            ReadFault::Field(_) => 8,
            ReadFault::Order => 9,
            ReadFault::Memory => 10,
        }
    }
}

impl From<FieldFault> for ReadFault {
    ghost from_gives = { λ e f. f ≡ Field e };

    #[inline(always)]
    fn from(fault: FieldFault) -> ReadFault {
        ReadFault::Field(fault)
    }
}
