//! The lines of use in the documentation of worlds and of the fence, run
//! (`tools/checks/check_uses` compares them).
use bg_fences::{FencedMemoryKeeper, save_referee};
use bg_match::{Rules, Terms};
use bg_protocol::{Event, Outcome, Plan, RefereeNode, Setup, simulate};
use std::process::Abort;
use std::test::Fail;

fn check_worlds(rt: &(impl AllocGlobal + Abort)) -> Result<(), Fail> {
    let alloc = rt.alloc();
    // bg_protocol
    let setup = Setup {
        id: 1,
        length: 5,
        rules: Rules::One,
        watchers: 0,
    };
    let no_failures = Plan {
        tears: Vec::new(alloc),
        sends: Vec::new(alloc),
        reads: Vec::new(alloc),
    };
    let events = [Event::Due { word: 12 }, Event::Save { party: 0 }];
    let (mut world, report) = simulate(alloc, setup, &no_failures, &events)?;
    assert!(rt; report.done == 2 && report.faults == 0);
    assert!(rt; world.step(Event::Tick { party: 1 }) == Outcome::Sent(1));
    // end
    Ok(())
}

#[test]
fn worlds(rt: HostRuntime) -> Result<(), Fail> {
    check_worlds(&rt)
}

fn check_fences(rt: &(impl AllocGlobal + Abort)) -> Result<(), Fail> {
    let alloc = rt.alloc();
    // bg_fences
    let terms = Terms {
        length: 1,
        rules: Rules::One,
    };
    let mut keeper = FencedMemoryKeeper::new(alloc, Vec::new(alloc), Vec::new(alloc));
    // Two processes of the referee begin over the same slots.
    let (mut first, _) = RefereeNode::begin(alloc, 1, terms, &mut keeper)?;
    let (mut second, _) = RefereeNode::begin(alloc, 1, terms, &mut keeper)?;
    assert!(rt; save_referee(&mut first, &mut keeper) == Outcome::Saved(1));
    // The other one is behind now. It is down until it restarts, from that save.
    assert!(rt; save_referee(&mut second, &mut keeper) == Outcome::SaveFault);
    assert!(rt; second.restart(&mut keeper) == Outcome::Restarted);
    // end
    Ok(())
}

#[test]
fn fences(rt: HostRuntime) -> Result<(), Fail> {
    check_fences(&rt)
}
