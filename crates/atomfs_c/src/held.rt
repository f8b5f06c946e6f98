//! The boxed core of a handle.

ghost use Rattle.std.specs.Prelude.{◌≡◌, Option, Some, None, IsSome};
ghost use Rattle.fs_core.specs.CoreValues.{CoreValue};
ghost use Rattle.atomfs_c.specs.Handles.{held_owns};

use crate::parts::Parts;
use fs_core::Core;
use std::alloc::Global;
use std::marker::Model;

/// A boxed core, or none.
#[repr(C)]
#[derive(Drop)]
pub struct Held {
    at: *mut u8,
    alloc: Global,
    pub ghost core: { Option CoreValue },
}

impl Model for Held {
    ghost also_owns = { λ h. held_owns h.alloc h.at h.core };
}

impl Held {
    /// No core.
    pub fn closed(alloc: Global) -> Held
        ensures { result.core ≡ None }
    {
        Held {
            at: std::ptr::null_mut(),
            alloc,
        }
    }

    /// The core of parts.
    pub fn of_parts(parts: Parts<Core, Global>) -> Held
        ensures { result.core ≡ Some parts.value }
    {
        let Parts { ptr, alloc } = parts;
        Held {
            at: ptr as *mut u8,
            alloc,
        }
    }

    /// The parts again.
    pub fn into_parts(self) -> Parts<Core, Global>
        requires { IsSome self.core }
        ensures { self.core ≡ Some result.value }
    {
        let Held { at, alloc } = self;
        Parts {
            ptr: at as *mut Core,
            alloc,
        }
    }
}

unsafe impl Send for Held {}
