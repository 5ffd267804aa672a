ghost use Rattle.std.specs.Prelude.{◌≡◌, ◌<◌, ◌∷◌, [], map};
ghost use Rattle.handle_set.specs.Sets.{id_of};

use super::*;
use handle_set::{Member, SetRefused, Sets, Steps};
use kernel_values::Events;
use object_store::ObjKey;
use std::marker::Brand;
use std::sync::ledger::{Blank, Ledger};
use std::test::Fail;

fn key(serial: u64) -> ObjKey
    ensures { result.serial ≡ serial }
{
    ObjKey { slot: 0, serial }
}

// Fills the one open set with 64 members, the objects 1 to 64, none of which is ready.
fn fill(sets: &mut Sets) -> Result<(), SetRefused>
    requires { map id_of sets.old.sets ≡ 0 ∷ [] }
    ensures { map id_of sets.new.sets ≡ 0 ∷ [] }
{
    let set = key(0);
    for label in 0..64u32 {
        let object = key(label as u64 + 1);
        let member = Member {
            label,
            object,
            mask: Events(31),
            cookie: 7,
        };
        sets.add(set, member, Events(0))?;
    }
    Ok(())
}

// The label that is reported of the set, and whether that took two looks at most.
fn picked_with<L: Ledger>(blank: Blank, sets: &mut Sets) -> Option<(u32, bool)>
    requires name { blank.name ≡ L.name }
    requires parts { blank.parts ≡ L.parts }
    requires some { 0 < blank.parts }
{
    let (book, share) = blank.open::<L>();
    let mut steps = Steps::new(book, share);
    match sets.pick(key(0), &mut steps) {
        Some(picked) => Some((picked.label, steps.count() <= 2)),
        None => None,
    }
}

// Of 64 members the last alone is ready: it is reported, with two looks at most.
#[test]
fn sixty_four_members(rt: HostRuntime) -> Result<(), Fail> {
    let mut sets = Sets::new(rt.alloc());
    let mut waits = Waits::new(rt.alloc(), 1)?;
    let set = key(0);
    sets.open_set(set)?;
    fill(&mut sets)?;
    let last = key(64);
    waits.changed(&mut sets, last, Events(8));
    let picked = picked_with::<Brand>(Blank::new(1), &mut sets);
    assert_eq!(rt; picked, Some((63, true)));
    Ok(())
}
