//! Acts that come one after the other.
ghost use Rattle.std.specs.Prelude.{IfOk};
ghost use Rattle.ost_types.specs.declared.limits.Limits.{Limits};
ghost use Rattle.lane_system.specs.Kept.{IsIdle};
ghost use Rattle.lane_system_check.specs.Family.{wait_means};

use crate::WaitTask;
use crate::words::WaitWords;
use command::Ended;
use fs_memory::MemFs;
use fs_watch::Watched;
use lane_system::{Ask, Lane, System};
use ost_types::Limits;
use std::alloc::Global;
use std::test::Fail;
use std::thread::Threads;
use sys_open::{Opened, adopt};

fn open_disk<R: Threads + Sync>(rt: &R, alloc: Global) -> Result<Opened<Watched<MemFs>>, Fail> {
    match adopt(
        rt,
        alloc,
        Watched::new(MemFs::new(alloc)?),
        Limits::standard(),
    ) {
        Ok(opened) => Ok(opened),
        Err(_) => Err("not opened")?,
    }
}

fn lane_of(alloc: Global, command: WaitWords) -> Result<Lane<WaitTask, WaitWords, u8>, Fail>
    ensures { IfOk result (λ lane. (limits : Limits) → IsIdle wait_means limits lane) }
{
    Ok(Lane::new(alloc, vec![in alloc; command]?)?)
}

// Two lanes, of a command each.
fn system_of<R: Threads + Sync>(
    rt: &R,
    alloc: Global,
    one: WaitWords,
    other: WaitWords,
) -> Result<System<Watched<MemFs>, WaitTask>, Fail> {
    let lanes = vec![in alloc; lane_of(alloc, one)?, lane_of(alloc, other)?]?;
    match System::new(alloc, open_disk(rt, alloc)?, lanes) {
        Ok(system) => Ok(system),
        Err(_) => Err("no memory")?,
    }
}

// Whether the lane's first command was answered so.
fn was_answered(system: &System<Watched<MemFs>, WaitTask>, lane: usize, wanted: u8) -> bool {
    let Some(lane) = system.lanes().get(lane) else {
        return false;
    };
    match lane.replies.first() {
        Some(reply) => match &reply.answer {
            Ended::Answered(answer) => *answer == wanted,
            _ => false,
        },
        None => false,
    }
}

// Whether so many replies had been given before that of the lane's first command.
fn came_after(system: &System<Watched<MemFs>, WaitTask>, lane: usize, replies: u32) -> bool {
    let Some(lane) = system.lanes().get(lane) else {
        return false;
    };
    match lane.replies.first() {
        Some(reply) => reply.order == replies,
        None => false,
    }
}

const fn done(lane: u8) -> Ask {
    Ask::Done { lane, command: 0 }
}

#[test]
fn acts_for_no_other_lane(rt: HostRuntime) -> Result<(), Fail> {
    let alloc = rt.alloc();
    let echo = WaitWords::Echo { number: 7 };
    let wait = WaitWords::Wait {
        number: 2,
        holds: false,
    };
    let mut system = system_of(&rt, alloc, echo, wait)?;
    assert!(rt; system.act(2) == Ask::Ended && system.act(255) == Ask::Ended);
    assert!(rt; system.act(0) == done(0) && system.act(0) == Ask::Ended);
    assert!(rt; system.act(1) == Ask::More && system.act(1) == Ask::More);
    assert!(rt; system.act(1) == done(1));
    assert!(rt; was_answered(&system, 0, 7) && was_answered(&system, 1, 2));
    Ok(())
}

#[test]
fn waits_for_the_ref_lock(rt: HostRuntime) -> Result<(), Fail> {
    let alloc = rt.alloc();
    let long = WaitWords::Wait {
        number: 3,
        holds: true,
    };
    let short = WaitWords::Wait {
        number: 1,
        holds: true,
    };
    let mut system = system_of(&rt, alloc, long, short)?;
    assert!(rt; system.act(0) == Ask::More && system.act(1) == Ask::Blocked);
    assert!(rt; system.act(0) == Ask::More && system.act(1) == Ask::Blocked);
    system.drive(&[0, 0]);
    assert!(rt; was_answered(&system, 0, 3) && was_answered(&system, 1, 1));
    assert!(rt; system.history().is_empty() && system.pending().is_none());
    Ok(())
}

#[test]
fn drives_by_the_schedule(rt: HostRuntime) -> Result<(), Fail> {
    let alloc = rt.alloc();
    let wait = WaitWords::Wait {
        number: 1,
        holds: false,
    };
    let echo = WaitWords::Echo { number: 7 };
    let mut system = system_of(&rt, alloc, wait, echo)?;
    system.drive(&[0, 0]);
    assert!(rt; came_after(&system, 0, 0) && came_after(&system, 1, 1));
    Ok(())
}
