//! Runs of a scene without actors, and the bell.
ghost use Rattle.std.specs.Prelude.{◌≡◌, ◌≤◌, IfOk, length};
ghost use Rattle.kernel_types.specs.Opening.{opening};
ghost use Rattle.kernel_tests.specs.Quiet.{quiet};

use crate::quiet_kernel::Quiet;
use kernel_types::values::{ActorId, Items, NoMemory, Recorded, Scene, Turn};
use runners::bell::Bell;
use runners::{ReplayRefused, Shared, Taken, replay, serial};
use std::alloc::Global;
use std::test::Fail;

#[tactic(auto, unfolding(kernel_types::specs::Opening::opening))]
fn empty_scene(alloc: Global, turns: &[Turn]) -> Result<Scene, NoMemory>
    ensures state { IfOk result (λ scene. opening scene ≡ quiet) }
    ensures turns { IfOk result (λ scene. scene.turns ≡ turns.now) }
{
    Ok(Scene {
        apps: Items::new(alloc),
        clients: Items::new(alloc),
        queue: 16,
        turns: Items::from_slice(alloc, turns)?,
    })
}

// A scene without actors is whole at once, and needs no turn.
#[test]
#[tactic(auto, unfolding(kernel_types::specs::Turns::history_limit))]
fn no_actor_needs_no_turn(rt: HostRuntime) -> Result<(), Fail> {
    let none: [Turn; 0] = [];
    let scene = empty_scene(rt.alloc(), none.as_slice())?;
    let whole = match serial(rt.alloc(), Quiet, &scene) {
        Ok(logged) => logged.journal().len() == 0,
        Err(_refused) => false,
    };
    assert!(rt; whole);
    let replayed = match replay(rt.alloc(), Quiet, &scene) {
        Ok(logged) => logged.journal().len() == 0,
        Err(_refused) => false,
    };
    assert!(rt; replayed);
    Ok(())
}

// A turn after a whole run is refused by its number.
#[test]
#[tactic(auto, unfolding(kernel_types::specs::Turns::history_limit))]
fn a_turn_after_the_end_is_refused(rt: HostRuntime) -> Result<(), Fail> {
    for turn in [Turn::Actor(0), Turn::Device, Turn::Idle] {
        let scene = empty_scene(rt.alloc(), [turn].as_slice())?;
        let refused = match replay(rt.alloc(), Quiet, &scene) {
            Ok(_logged) => false,
            Err(refused) => refused == ReplayRefused::Turn(0),
        };
        assert!(rt; refused);
    }
    Ok(())
}

// All that a run shares, by hand.
#[test]
#[tactic(auto, unfolding(kernel_types::specs::Turns::history_limit))]
fn a_shared_kernel_of_nobody(rt: HostRuntime) -> Result<(), Fail> {
    let none: [Turn; 0] = [];
    let scene = empty_scene(rt.alloc(), none.as_slice())?;
    let mut shared = Shared::new(rt.alloc(), Quiet, &scene)?;
    assert!(rt; shared.turn(Turn::Idle)? == Taken::Unlawful);
    assert!(rt; shared.actors() == 0);
    assert!(rt; !shared.device_has_work());
    assert!(rt; !shared.idle_lawful());
    assert!(rt; shared.is_over());
    assert!(rt; shared.recorded() == 0);
    shared.legal();
    assert!(rt; shared.into_logged().journal().len() == 0);
    Ok(())
}

// A bell is rung for all who hold it, and tells who is recalled.
#[test]
fn a_bell_is_heard_by_all_who_hold_it(rt: HostRuntime) -> Result<(), Fail> {
    let bell = Bell::new(rt.alloc())?;
    let other = bell.again()?;
    assert!(rt; !other.has_failed());
    assert!(rt; !other.is_recalled(ActorId(3)));
    bell.ring();
    assert!(rt; other.strokes() == 1);
    bell.recall(ActorId(3));
    assert!(rt; other.is_recalled(ActorId(3)));
    bell.fail();
    assert!(rt; other.has_failed());
    other.sleep(&rt, 1);
    Ok(())
}
