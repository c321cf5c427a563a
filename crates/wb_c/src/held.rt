//! A host as C holds it: the place of its room, which nothing else has.
ghost use Rattle.std.specs.Prelude.{◌≡◌, None, Some, Option, true, is_some, IsSome, option_map};
ghost use Rattle.wb_c.specs.declared.room.Room.{Room};
ghost use Rattle.wb_c.specs.Owning.{owns_room, room_coded};

use crate::parts::Parts;
use crate::room::Room;
use std::alloc::Global;
use std::marker::Model;
use std::mem::replace;
use std::ptr::null_mut;

/// The place of a room, or of none. It is dropped only if it is that of none: else what it owns
/// would be forgotten.
#[repr(C)]
#[derive(Drop)]
pub struct Held {
    at: *mut u8,
    alloc: Global,
    pub(crate) ghost room: { Option Room } by { room_coded },
}

impl Model for Held {
    ghost also_owns = { λ h. owns_room h.alloc h.at h.room };
}

impl Held {
    fn none(alloc: Global) -> Held
        ensures { result.room ≡ None }
    {
        Held {
            at: null_mut(),
            alloc,
        }
    }

    fn of_parts(parts: Parts<Room, Global>) -> Held
        ensures { result.room ≡ Some parts.value }
    {
        let Parts { ptr, alloc } = parts;
        Held {
            at: ptr as *mut u8,
            alloc,
        }
    }

    fn into_parts(self) -> Parts<Room, Global>
        requires { IsSome self.room }
        ensures { self.room ≡ Some result.value }
    {
        let Held { at, alloc } = self;
        Parts {
            ptr: at as *mut Room,
            alloc,
        }
    }
}

/// A host as C holds it. One whose bytes are all zero is closed.
#[repr(C)]
#[derive(Drop)]
pub struct Host {
    held: Held,
    is_open: bool,
    ghost opened: { is_open ≡ is_some held.room },
}

impl Host {
    /// Whether it is open.
    pub(crate) fn is_open(&self) -> bool
        ensures { result ≡ is_some self.now.held.room }
    {
        self.is_open
    }

    /// Takes the room out, and leaves it closed.
    pub(crate) fn take(&mut self, alloc: Global) -> Option<Box<Room>>
        ensures room { option_map (λ room. room.value) result ≡ self.old.held.room }
        ensures closed { self.new.held.room ≡ None }
    {
        let closed = Host {
            held: Held::none(alloc),
            is_open: false,
        };
        let Host { held, is_open } = replace(self, closed);
        if is_open {
            Some(held.into_parts().into_box())
        } else {
            None
        }
    }

    /// Opens one that is closed.
    pub(crate) fn put(&mut self, room: Box<Room>)
        requires { self.old.held.room ≡ None }
        ensures { self.new.held.room ≡ Some room.value }
    {
        *self = Host {
            held: Held::of_parts(Parts::of(room)),
            is_open: true,
        };
    }
}
