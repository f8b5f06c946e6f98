//! Another way to write what a command made.

ghost use Rattle.std.specs.Prelude.{◌≡◌, ℕ, List, IfOk};
ghost use Rattle.fs_verdict.specs.declared.shell.Made.{Made};

use crate::command::Command;
use crate::fault::RunFault;
use crate::shell::Made;
use std::alloc::{AllocError, Global};

/// A way to write what a command made.
pub trait Form<T>: Drop {
    /// The text that stands for what was made.
    ghost text_of: { Self → Made T → List ℕ };

    /// That text.
    fn text(&self, alloc: Global, made: &Made<T>) -> Result<Vec<u8>, AllocError>
        ensures { IfOk result (λ text. text.items ≡ text_of self.now made.now) };
}

/// A command, what it made written in another form.
#[derive(Drop)]
pub struct As<C, F> {
    /// The command.
    pub command: C,
    /// The form.
    pub form: F,
}

impl<Listener, C: Command<Listener>, F: Form<C::End>> Command<Listener> for As<C, F> {
    ghost use Rattle.fs_verdict.specs.Forms.{WritesAs};
    ghost use Rattle.fs_verdict.specs.code.FormLaws.{form_honest};

    type End = C::End;

    type Fault = C::Fault;

    ghost Asks = { λ c. C.Asks c.command };

    ghost Makes = { λ c. WritesAs (C.Makes c.command) C.Fault.from_gives (F.text_of c.form) };

    fn make(
        self,
        alloc: Global,
        input: Vec<u8>,
        listener: &mut Listener,
    ) -> Result<Made<C::End>, C::Fault> {
        let As { command, form } = self;
        let made = match command.make(alloc, input, listener) {
            Ok(made) => made,
            Err(fault) => return Err(fault),
        };
        match form.text(alloc, &made) {
            Ok(text) => Ok(Made {
                text,
                end: made.end,
            }),
            Err(_) => Err(C::Fault::from(RunFault::OutOfMemory)),
        }
    }

    ghost honest = { λ c. form_honest (C.Makes c.command) C.Fault.from_gives (F.text_of c.form) (C.honest c.command) };
}
