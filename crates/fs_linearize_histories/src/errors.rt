//! Errors of which a reply is one.

ghost use Rattle.std.specs.Prelude.{◌≡◌, ◌++◌, ◌∷◌, [], IfOk, OnOk};
ghost use Rattle.fs_linearize_histories.specs.Heard.{has_error};

use fs_calls::Errno;
use std::alloc::{AllocError, Global};
use std::marker::Model;

/// Errors, seen as their list.
#[derive(Drop)]
pub struct Errors {
    list: Vec<Errno>,
}

impl Model for Errors {
    ghost use Rattle.std.specs.Prelude.{List};
    ghost use Rattle.fs_calls.specs.declared.errno.Errno.{Errno};

    ghost Value = { List Errno };

    ghost view = { λ e. e.list.items };
}

impl Errors {
    /// No errors.
    pub fn new(alloc: Global) -> Errors
        ensures { result ≡ [] }
    {
        Errors {
            list: Vec::new(alloc),
        }
    }

    /// One error more.
    pub fn push(&mut self, errno: Errno) -> Result<(), AllocError>
        ensures { OnOk result (self.new ≡ self.old ++ errno ∷ []) }
    {
        self.list.push(errno)?;
        Ok(())
    }

    /// The errors, in order.
    pub fn as_slice(&self) -> &[Errno]
        ensures { result.now ≡ self.now }
    {
        self.list.as_slice()
    }

    /// Whether this one is there.
    pub fn has(&self, errno: Errno) -> bool
        ensures { result ≡ has_error errno self.now }
    {
        for other in self.list.as_slice() {
            if other.number() == errno.number() {
                return true;
            }
        }
        false
    }

    /// The same errors again.
    pub fn copy(&self) -> Result<Errors, AllocError>
        ensures { IfOk result (λ errors. errors ≡ self.now) }
    {
        let mut errors = Errors::new(*self.list.allocator());
        for errno in self.list.as_slice() {
            errors.push(*errno)?;
        }
        Ok(errors)
    }
}
