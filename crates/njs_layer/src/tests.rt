// A list over a shared one, at a concrete type.
ghost use Rattle.std.specs.Prelude.{◌≡◌, ◌<◌};

use crate::{Change, Copied, Layered};
use njs_text::{NoMemory, Steps};
use std::alloc::Global;
use std::marker::Brand;
use std::process::Abort;
use std::sync::ledger::{Blank, Ledger};
use std::test::Fail;

// A number that is copied by hand.
#[derive(Drop)]
struct Item(u32);

impl Copied for Item {
    fn copy(&self, alloc: Global) -> Result<Item, NoMemory> {
        Ok(Item(self.0))
    }
}

// Another number takes the place of the one there, which is answered.
#[derive(Drop)]
struct Replacement(u32);

impl Change<Item, u32> for Replacement {
    ghost use Rattle.std.specs.Prelude.{⊤, ◌≡◌};

    ghost can = { λ c old. ⊤ };

    ghost gives = { λ c old new out. (out ≡ old.0) × (new.0 ≡ c.0) };

    fn apply(&self, alloc: Global, item: &mut Item) -> Result<u32, NoMemory> {
        let before = item.0;
        item.0 = self.0;
        Ok(before)
    }
}

fn replace<L: Ledger>(
    rt: &impl Abort,
    alloc: Global,
    list: &mut Layered<'_, Item>,
    place: u32,
    number: u32,
    steps: &mut Steps<L>,
) -> Result<u32, NoMemory> {
    assert!(rt; (place as usize) < list.len());
    list.change(alloc, place, &Replacement(number), steps)
}

fn read(rt: &impl Abort, list: &Layered<'_, Item>, place: u32) -> u32 {
    assert!(rt; (place as usize) < list.len());
    list.get(place).0
}

fn writes<L: Ledger>(rt: &impl Abort, alloc: Global, blank: Blank) -> Result<(), Fail>
    requires name { blank.name ≡ L.name }
    requires parts { blank.parts ≡ L.parts }
    requires some { 0 < L.parts }
{
    let mut steps = Steps::<L>::new(blank);
    let base = [Item(1), Item(2), Item(3)];
    let mut list = Layered::over(alloc, &base);
    let other = Layered::over(alloc, &base);
    assert_eq!(rt; list.push(Item(4))?, 3);
    for (place, number, before) in [(1u32, 5u32, 2u32), (1, 6, 5), (3, 7, 4)] {
        assert_eq!(rt;
            replace(rt, alloc, &mut list, place, number, &mut steps)?,
            before
        );
        assert_eq!(rt; read(rt, &list, place), number);
    }
    assert_eq!(rt; read(rt, &other, 1), 2);
    let items = list.into_vec(alloc)?;
    let mut numbers = Vec::new(alloc);
    for item in &items {
        numbers.push(item.0)?;
    }
    assert_eq!(rt; numbers.as_slice(), [1u32, 6, 3, 7].as_slice());
    Ok(())
}

#[test]
fn a_write_is_seen_by_its_own_list_alone(rt: HostRuntime) -> Result<(), Fail> {
    writes::<Brand>(&rt, rt.alloc(), Blank::new(1))
}
