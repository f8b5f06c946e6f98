//! Calls that are published. After each, its caller has an observer show the path.

ghost use Rattle.std.specs.Prelude.{◌≡◌, ◌^◌};

use crate::digest::Digest;
use crate::drawing::Drawing;
use anyhow::{Result, bail};
use fs_calls::Call;
use fs_names::Path;
use fs_share::{AtomFs, Named, Observer, Open, Opened, Session, Told};
use std::alloc::Global;
use std::marker::Brand;
use std::sync::Wait;
use std::sync::ledger::Blank;
use std::time::Clock;

/// How many files there are.
const FILES: usize = 32;

/// A published call, of which an observer then knows.
fn tell<N: Named, R: Wait + Clock>(
    rt: &R,
    alloc: Global,
    session: &mut Session<'_, N>,
    observer: &mut Observer<'_, N>,
    digest: &mut Digest,
    call: &Call,
) -> Result<()> {
    let Ok(
        Told {
            answer,
            place,
            stamp,
        },
    ) = session.call_told(rt, alloc, call, &Open)
    else {
        bail!("a told call was refused");
    };
    let Some(stamp) = stamp else {
        bail!("a told call has no stamp");
    };
    observer.learn(&stamp);
    digest.add_reply(&answer.reply);
    digest.add(place as u64);
    Ok(())
}

/// What an observer is shown of a file.
fn look<N: Named>(
    alloc: Global,
    observer: &mut Observer<'_, N>,
    digest: &mut Digest,
    path: &Path,
) -> Result<()> {
    digest.add_reply(&observer.stat(alloc, path)?);
    digest.add_reply(&observer.read(alloc, path, 0, 4096)?);
    Ok(())
}

/// Files, and the calls that make them.
#[derive(Drop)]
struct Plan {
    files: Vec<Vec<u8>>,
    calls: Vec<Call>,
}

impl Plan {
    /// One more file in a directory.
    fn add(
        &mut self,
        alloc: Global,
        drawing: &mut Drawing,
        dir: &[u8],
        number: usize,
    ) -> Result<()> {
        let file = drawing.path_in(dir, number)?;
        self.calls.push(Call::Mknod(Path::parse(alloc, &file)?))?;
        self.files.push(file)?;
        Ok(())
    }
}

/// The files of a new directory.
fn planned(alloc: Global, drawing: &mut Drawing) -> Result<Plan> {
    let mut plan = Plan {
        files: Vec::new(alloc),
        calls: Vec::new(alloc),
    };
    let dir = drawing.path_in(b"", 0)?;
    plan.calls.push(Call::Mkdir(Path::parse(alloc, &dir)?))?;
    for number in 0..FILES {
        plan.add(alloc, drawing, &dir, number)?;
    }
    Ok(plan)
}

/// Publishes each of these calls and has an observer show it.
fn tell_each<N: Named, R: Wait + Clock>(
    rt: &R,
    alloc: Global,
    session: &mut Session<'_, N>,
    observer: &mut Observer<'_, N>,
    digest: &mut Digest,
    calls: &[Call],
) -> Result<()> {
    for call in calls {
        tell(rt, alloc, session, observer, digest, call)?;
    }
    Ok(())
}

/// A write to one of the files.
fn write(alloc: Global, drawing: &mut Drawing, path: &Path) -> Result<Call> {
    let count = drawing.below(300);
    let offset = drawing.below(1000) as u64;
    Ok(Call::Write(path.copy()?, offset, drawing.content(alloc, count)?))
}

/// The path of one of the files.
fn one_of(alloc: Global, drawing: &mut Drawing, files: &[Vec<u8>]) -> Result<Path> {
    match files.get(drawing.below(FILES)) {
        Some(file) => Ok(Path::parse(alloc, file)?),
        None => Ok(Path::parse(alloc, b"/")?),
    }
}

/// A published write to one of the files, which is looked at then.
fn write_once<N: Named, R: Wait + Clock>(
    rt: &R,
    alloc: Global,
    session: &mut Session<'_, N>,
    observer: &mut Observer<'_, N>,
    digest: &mut Digest,
    path: &Path,
    call: &Call,
) -> Result<()> {
    tell(rt, alloc, session, observer, digest, call)?;
    look(alloc, observer, digest, path)
}

/// The same of a write that is drawn.
fn write_drawn<N: Named, R: Wait + Clock>(
    rt: &R,
    alloc: Global,
    session: &mut Session<'_, N>,
    observer: &mut Observer<'_, N>,
    drawing: &mut Drawing,
    path: &Path,
    digest: &mut Digest,
) -> Result<()> {
    let call = write(alloc, drawing, path)?;
    write_once(rt, alloc, session, observer, digest, path, &call)
}

/// The same of a file that is drawn.
fn write_any<N: Named, R: Wait + Clock>(
    rt: &R,
    alloc: Global,
    session: &mut Session<'_, N>,
    observer: &mut Observer<'_, N>,
    drawing: &mut Drawing,
    files: &[Vec<u8>],
    digest: &mut Digest,
) -> Result<()> {
    let path = one_of(alloc, drawing, files)?;
    write_drawn(rt, alloc, session, observer, drawing, &path, digest)
}

/// So many published writes.
fn writes<N: Named, R: Wait + Clock>(
    rt: &R,
    alloc: Global,
    session: &mut Session<'_, N>,
    observer: &mut Observer<'_, N>,
    drawing: &mut Drawing,
    (files, calls): (&[Vec<u8>], usize),
    digest: &mut Digest,
) -> Result<()> {
    for _ in 0..calls {
        write_any(rt, alloc, session, observer, drawing, files, digest)?;
    }
    Ok(())
}

/// The files, and so many published writes to them.
fn run_on<N: Named, R: Wait + Clock>(
    rt: &R,
    alloc: Global,
    session: &mut Session<'_, N>,
    observer: &mut Observer<'_, N>,
    drawing: &mut Drawing,
    calls: usize,
) -> Result<u64> {
    let plan = planned(alloc, drawing)?;
    let mut digest = Digest::new();
    tell_each(rt, alloc, session, observer, &mut digest, &plan.calls)?;
    writes(
        rt,
        alloc,
        session,
        observer,
        drawing,
        (&plan.files, calls),
        &mut digest,
    )?;
    Ok(digest.value())
}

/// The same by a new observer.
fn observed<N: Named, R: Wait + Clock>(
    rt: &R,
    alloc: Global,
    fs: &AtomFs<N>,
    session: &mut Session<'_, N>,
    drawing: &mut Drawing,
    calls: usize,
) -> Result<u64> {
    match fs.observer(rt) {
        Ok(mut observer) => run_on(rt, alloc, session, &mut observer, drawing, calls),
        Err(_) => bail!("no place for an observer"),
    }
}

fn on_tree<N: Named, R: Wait + Clock>(
    rt: &R,
    alloc: Global,
    fs: &AtomFs<N>,
    drawing: &mut Drawing,
    calls: usize,
) -> Result<u64> {
    let mut session = fs.session(rt)?;
    observed(rt, alloc, fs, &mut session, drawing, calls)
}

/// The same on a tree of the name `N`, which keeps stamps of different trees apart.
fn on_named<N: Named, R: Wait + Clock>(
    rt: &R,
    alloc: Global,
    opened: Opened,
    blank: Blank,
    drawing: &mut Drawing,
    calls: usize,
) -> Result<u64>
    requires book { opened ≡ N.book }
    requires name { blank.name ≡ N.name }
    requires parts { blank.parts ≡ N.parts }
    requires all { blank.parts ≡ 2 ^ 63 }
{
    let fs = AtomFs::<N>::open(rt, alloc, opened, blank)?;
    let value = on_tree(rt, alloc, &fs, drawing, calls);
    let _closed = fs.close(rt, Vec::new(alloc));
    value
}

/// So many published writes on a tree of its own.
pub fn run<R: Wait + Clock>(
    rt: &R,
    alloc: Global,
    drawing: &mut Drawing,
    calls: usize,
) -> Result<u64> {
    on_named::<Brand, R>(
        rt,
        alloc,
        Opened::new(),
        Blank::new(1 << 63),
        drawing,
        calls,
    )
}
