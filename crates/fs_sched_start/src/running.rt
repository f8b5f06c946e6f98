//! A script that runs from a tree.

ghost use Rattle.std.specs.Prelude.{◌≡◌, ◌⊎◌, ◌+◌, ◌-◌, ◌<◌, ◌^◌, IfOk, IfErr, IfSome, IsErrOf};
ghost use Rattle.fs_sched.specs.Devices.{IsSameText};
ghost use Rattle.fs_sched_start.specs.Makes.{MakesRunAt};

use crate::fault::StartFault;
use crate::given::core_at;
use fs_sched::{RunEnd, RunFault, Schedule, Witness, run_on, script_in};
use fs_verdict::{Command, Device, Failure, Made, Source, transform};
use std::alloc::Global;

/// A text, read to its end; of one that is too long, as much as tells so.
pub fn whole_text<R: Source>(alloc: Global, reader: &mut R) -> Result<Vec<u8>, RunFault>
    requires { R.failures reader.old < 2 ^ 64 - 1 }
    ensures same { IfOk result (λ text. IfSome (R.remaining reader.old) (IsSameText text.items)) }
    ensures read { IsErrOf result RunFault.Read → R.failures reader.new ≡ R.failures reader.old + 1 }
    ensures fault { IfErr result (λ fault. (fault ≡ RunFault.Read) ⊎ (fault ≡ RunFault.OutOfMemory)) }
{
    let mut nothing = Device::new(Vec::new(alloc));
    let read = transform(
        alloc,
        reader,
        &mut nothing,
        |text| -> Result<Made<Vec<u8>>, RunFault>
            ensures { IfOk result (λ made. made.end ≡ text) }
        {
            Ok(Made {
                text: Vec::new(alloc),
                end: text,
            })
        },
    );
    match read {
        Ok(text) => Ok(text),
        Err(Failure::Read) => Err(RunFault::Read),
        Err(_) => Err(RunFault::OutOfMemory),
    }
}

/// The text of a run of the script that a text has, from the tree that another one has. Both are let go once they are read.
fn text_at<Listener: Witness>(
    alloc: Global,
    tree: Vec<u8>,
    text: Vec<u8>,
    schedule: Schedule,
    witness: &mut Listener,
) -> Result<Made<RunEnd>, StartFault>
    ensures { MakesRunAt schedule tree.items text.items result }
{
    let script = match script_in(alloc, text.as_slice()) {
        Ok(script) => script,
        Err(fault) => return Err(StartFault::Run(fault)),
    };
    drop(text);
    let core = match core_at(alloc, tree.as_slice(), script.limits) {
        Ok(core) => core,
        Err(fault) => return Err(fault),
    };
    drop(tree);
    match run_on(alloc, core, script, schedule, witness) {
        Ok(made) => Ok(made),
        Err(fault) => Err(StartFault::Run(fault)),
    }
}

/// A run of a script by a schedule from a tree. What is made is the text of the run, whose journal tells the tree. The tree is read, by
/// the limits of the script, from the text of a tree or from a journal that starts at it; the entries of a journal are read and not
/// played. A fault of the script comes before one of the tree. The answer and the witness are those of `run_script`.
#[derive(Drop)]
pub struct RunFrom {
    /// The text of the tree, or of the journal.
    pub tree: Vec<u8>,
    /// By which the threads take turns.
    pub schedule: Schedule,
}

impl<Listener: Witness> Command<Listener> for RunFrom {
    ghost use Rattle.fs_sched_start.specs.Makes.{MakesRunAt};
    ghost use Rattle.fs_sched_start.specs.code.Laws.{run_honest};

    type End = RunEnd;

    type Fault = StartFault;

    ghost Asks = { λ _. Unit {0} };

    ghost Makes = { λ c. MakesRunAt c.schedule c.tree.items };

    fn make(
        self,
        alloc: Global,
        input: Vec<u8>,
        listener: &mut Listener,
    ) -> Result<Made<RunEnd>, StartFault> {
        let RunFrom { tree, schedule } = self;
        text_at(alloc, tree, input, schedule, listener)
    }

    ghost honest = { λ c. run_honest c.schedule c.tree.items };
}
