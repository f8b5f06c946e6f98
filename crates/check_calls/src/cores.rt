//! A core with two seats: a call waits for another one, a list of events ends at a begin that is refused, and the core is asked
//! for its nodes, holders and commits, and taken apart.

ghost use Rattle.std.specs.Prelude.{◌≡◌, OnOk, length};

use crate::spelled::calls_of;
use anyhow::{Result, bail, ensure};
use fs_calls::Call;
use fs_core::{Core, Event, Ran, Refusal, Stepped};
use fs_embed::kind_of;
use fs_names::{CallNo, Kind, Path, PathFault, SeatNo};
use fs_nodes::NodeNo;
use fs_text::FaultKind;
use std::alloc::Global;

/// What paths lead to.
const KINDS: [(&[u8], Option<Kind>); 5] = [
    (b"/", Some(Kind::Dir)),
    (b"/a", Some(Kind::Dir)),
    (b"/a/f", Some(Kind::File)),
    (b"/a/%66", Some(Kind::File)),
    (b"/b", None),
];

/// Two seats of a core that has none.
fn take_seats(core: &mut Core) -> Result<()>
    ensures { OnOk result (length core.new.seats ≡ 2) }
{
    let first = core.seat()?;
    let second = core.seat()?;
    ensure!(
        first == SeatNo::new(0) && second == SeatNo::new(1) && core.seats() == 2,
        "two seats"
    );
    Ok(())
}

/// What every core proves to its caller.
pub fn tell(core: &Core) {
    core.told();
    core.told_of_helping();
    core.told_of_progress();
    core.told_of_numbers();
}

/// The node that a step took.
fn taken(stepped: Stepped) -> Option<NodeNo> {
    match stepped {
        Stepped::Took(node) => Some(node),
        _ => None,
    }
}

/// The node that a step waits for, and the call that holds it.
fn awaited(stepped: Stepped) -> Option<(NodeNo, CallNo)> {
    match stepped {
        Stepped::Busy(node, call) => Some((node, call)),
        _ => None,
    }
}

/// The call of the first seat takes the root, for which that of the second seat waits.
fn wait(alloc: Global, core: &mut Core, one: &Call, other: &Call) -> Result<()>
    requires { length core.old.seats ≡ 2 }
    ensures { length core.new.seats ≡ 2 }
{
    let (first, second, root) = (SeatNo::new(0), SeatNo::new(1), NodeNo::new(0));
    let number = CallNo::new(1);
    ensure!(core.begin(alloc, first, one) == Ok(number), "a begin");
    let took = taken(core.step(first));
    ensure!(took == Some(root), "the root taken");
    ensure!(core.under_way(first) == Some(number), "a call under way");
    ensure!(core.under_way(second).is_none(), "no call under way");
    ensure!(core.holder(root) == Some(number), "the root's holder");
    ensure!(core.holder(NodeNo::new(1)).is_none(), "no holder");
    let next = core.begin(alloc, second, other);
    ensure!(next == Ok(CallNo::new(2)), "the next begin");
    let waits = awaited(core.step(second));
    ensure!(waits == Some((root, number)), "who has the root");
    tell(core);
    Ok(())
}

/// Both calls go on to their returns. Whether all events are done.
fn end(alloc: Global, core: &mut Core) -> bool
    requires { length core.old.seats ≡ 2 }
    ensures { length core.new.seats ≡ 2 }
{
    let (first, second) = (SeatNo::new(0), SeatNo::new(1));
    let events = [
        Event::Step(first),
        Event::Step(first),
        Event::Step(first),
        Event::Step(second),
        Event::Step(second),
        Event::Step(second),
        Event::Step(second),
        Event::Step(second),
        Event::Step(second),
    ];
    let all = Ran {
        done: 9,
        refusal: None,
    };
    core.run(alloc, &events) == all
}

/// A call begins, and no second one on its seat. Whether the events after that are not done.
fn is_refused(alloc: Global, core: &mut Core, one: Call, other: Call) -> bool
    requires { length core.old.seats ≡ 2 }
    ensures { length core.new.seats ≡ 2 }
{
    let seat = SeatNo::new(0);
    let events = [
        Event::Begin(seat, one),
        Event::Step(seat),
        Event::Begin(seat, other),
        Event::Step(seat),
    ];
    let some = Ran {
        done: 2,
        refusal: Some(Refusal::SeatBusy),
    };
    core.run(alloc, &events) == some
}

/// The call goes on to its return. Whether all events are done.
fn ends(alloc: Global, core: &mut Core) -> bool
    requires { length core.old.seats ≡ 2 }
    ensures { length core.new.seats ≡ 2 }
{
    let seat = SeatNo::new(0);
    let events = [Event::Step(seat), Event::Step(seat), Event::Step(seat)];
    let all = Ran {
        done: 3,
        refusal: None,
    };
    core.run(alloc, &events) == all
}

/// A call is refused while another one is pending, which ends then.
fn refuse(alloc: Global, core: &mut Core, one: &Call, other: &Call) -> Result<()>
    requires { length core.old.seats ≡ 2 }
    ensures { length core.new.seats ≡ 2 }
{
    let one = one.copy(alloc)?;
    let is_refused = is_refused(alloc, core, one, other.copy(alloc)?);
    ensure!(is_refused, "some events");
    ensure!(ends(alloc, core), "the rest of the call");
    Ok(())
}

fn find(alloc: Global, core: &Core, text: &[u8]) -> Result<Option<NodeNo>> {
    let path = Path::parse(alloc, text)?;
    Ok(core.find_path(&path))
}

/// Looks at the nodes.
fn look(alloc: Global, core: &Core) -> Result<()> {
    for (path, kind) in KINDS {
        ensure!(kind_of(alloc, core, path) == Ok(kind), "a kind");
    }
    let fault = FaultKind::BadPath(PathFault::NotAbsolute);
    ensure!(kind_of(alloc, core, b"a") == Err(fault), "no path");
    let file = find(alloc, core, b"/a/f")?;
    ensure!(file == Some(NodeNo::new(2)), "the file");
    ensure!(find(alloc, core, b"/b")?.is_none(), "no node");
    Ok(())
}

/// Looks at the commits, of which the first is this call's.
fn look_back(core: &Core, call: &Call) -> Result<()> {
    ensure!(core.commits() == 3 && core.seats() == 2, "three commits");
    ensure!(core.committed(0).same(call), "the first commit");
    ensure!(core.place_of(CallNo::new(1)) == Some(0), "its place");
    ensure!(core.place_of(CallNo::new(3)) == Some(2), "the last place");
    ensure!(core.place_of(CallNo::new(4)).is_none(), "no place");
    tell(core);
    Ok(())
}

/// Takes a core apart: three calls have returned, which made two directories and a file.
fn take_apart(core: Core) -> (usize, usize, usize) {
    let (_start, timeline, store) = core.into_parts();
    let (root, dir) = (NodeNo::new(0), NodeNo::new(1));
    (
        timeline.entries().len(),
        store.entries(root),
        store.entries(dir),
    )
}

/// All of this, by a core that has no seat yet.
fn compare_on(alloc: Global, core: &mut Core, calls: &[Call]) -> Result<()> {
    let [mkdir, mknod, further, stat] = calls else {
        bail!("four calls");
    };
    take_seats(core)?;
    wait(alloc, core, mkdir, mknod)?;
    ensure!(end(alloc, core), "all events");
    refuse(alloc, core, further, stat)?;
    look(alloc, core)?;
    look_back(core, mkdir)
}

/// All of this, by calls.
fn compare_by(alloc: Global, calls: &[Call]) -> Result<()> {
    let mut core = Core::new(alloc)?;
    let compared = compare_on(alloc, &mut core, calls);
    let left = take_apart(core);
    compared?;
    ensure!(left == (9, 2, 1), "the entries and the nodes");
    Ok(())
}

/// All of this.
pub fn compare(alloc: Global) -> Result<()> {
    let calls = calls_of(alloc, &["mkdir /a", "mknod /a/f", "mkdir /c", "stat /a"])?;
    compare_by(alloc, &calls)
}
