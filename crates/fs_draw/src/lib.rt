//! Pictures of runs and of journals, as SVG files.
//!
//! `DrawInput` runs a script, or reads a journal, and draws it. It is a `Command` of `fs_verdict`, whose `perform` takes it from a reader to
//! a writer. The picture depends only on what is read and asked for: nothing in this crate uses the clock, a file or the environment. By
//! `MakesPicture` a picture is one element, of a run of the script that was read or of its journal, and the answer reports whether that went
//! well. What the picture shows is tested, and not proved.
//!
//! `fs_draw_scene` has what is drawn, `fs_draw_layout` where, and `fs_draw_ink` writes the rows. Here `news` writes the headline,
//! `tree_text` the trees, `legend` what the signs mean, and `picture` puts all together. `docs/PICTURES.md` says it too. The definitions
//! are in `specs/`: `Pictures`, `Faults` with the statuses, and `Makes`. `specs/code/` ties the code to them, and changes no meaning.
#![tactic(auto)]

mod fault;
mod head;
mod legend;
mod news;
mod picture;
mod running;
mod tree_text;
mod view;

pub use fault::DrawFault;
pub use running::DrawInput;
pub use view::View;
