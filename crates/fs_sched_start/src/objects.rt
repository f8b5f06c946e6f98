//! The verdicts on drawn runs, as objects.

ghost use Rattle.std.specs.Prelude.{◌≡◌, ◌+◌, ◌<◌, ◌^◌, ◌++◌, IfOk, OnOk};
ghost use Rattle.fs_sched_start.specs.Objects.{seed_text, seeds_text};

use fs_verdict::{Form, Made};
use fs_words::Addition;
use std::alloc::{AllocError, Global};

/// Adds the object of a lawful run that is drawn from a number.
fn push_seed(seed: u64, text: &mut Addition) -> Result<(), AllocError>
    ensures ok { OnOk result (text.new.added ≡ text.old.added ++ seed_text seed) }
    ensures before { text.new.before ≡ text.old.before }
{
    text.push_with_number(b"{\"seed\":", seed)?;
    text.push(b",\"lawful\":true}\n")
}

/// The objects of so many lawful runs.
fn objects_of(alloc: Global, seed: u64, runs: u64) -> Result<Vec<u8>, AllocError>
    requires { seed + runs < 2 ^ 64 }
    ensures { IfOk result (λ text. text.items ≡ seeds_text seed runs) }
{
    let mut text = Addition::new(Vec::new(alloc));
    for run in 0..runs {
        push_seed(seed + run, &mut text)?;
    }
    Ok(text.kept())
}

/// The verdicts on drawn runs as objects of JSON, one a line: the number from which the run is drawn, and that it is lawful. They are a
/// form of `RunSeeds` with these numbers, which makes a text only if each run is lawful.
#[derive(Drop)]
pub struct SeedObjects {
    /// The number from which the first run is drawn.
    pub seed: u64,
    /// How many runs.
    pub runs: u64,
    ghost fit: { seed + runs < 2 ^ 64 },
}

impl SeedObjects {
    ghost use Rattle.std.specs.Prelude.{◌≡◌, ◌+◌, ◌<◌, ◌^◌};

    /// Those of so many runs from a number on.
    pub fn new(seed: u64, runs: u64) -> SeedObjects
        requires { seed + runs < 2 ^ 64 }
        ensures seed { result.seed ≡ seed }
        ensures runs { result.runs ≡ runs }
    {
        SeedObjects { seed, runs }
    }
}

impl Form<bool> for SeedObjects {
    ghost use Rattle.fs_sched_start.specs.Objects.{seeds_text};

    ghost text_of = { λ form _. seeds_text form.seed form.runs };

    fn text(&self, alloc: Global, _made: &Made<bool>) -> Result<Vec<u8>, AllocError> {
        objects_of(alloc, self.seed, self.runs)
    }
}
