// A list over a shared one.
ghost use Rattle.std.specs.Prelude.{◌≡◌, ◌<◌, ◌≤◌, ◌+◌, ◌^◌, ◌++◌, [], ◌∷◌, Some, length, slice_get, slice_set, IfOk, OnErr, OnOk};
ghost use Rattle.std.specs.Prelude.{ℕ, unwrap_or, slice_index_or};
ghost use Rattle.std.specs.Ordering.{nat_cmp};
ghost use Rattle.std.specs.BTreeMap.{get as entry};
ghost use Rattle.njs_layer.specs.Layer.{IsChangedAt};

use njs_text::{NoMemory, Steps, Text};
use std::alloc::Global;
use std::collections::BTreeMap;
use std::marker::Model;
use std::sync::ledger::Ledger;

/// A value that can be copied where there is memory.
pub trait Copied: Drop + Sized {
    /// An equal value.
    fn copy(&self, alloc: Global) -> Result<Self, NoMemory>
        ensures { IfOk result (λ copy. copy ≡ self.now) };
}

impl Copied for Text {
    fn copy(&self, alloc: Global) -> Result<Text, NoMemory> {
        Text::copy(self, alloc)
    }
}

/// A change of one item.
pub trait Change<T, O> {
    // At which items the change may be asked.
    ghost can: { Self → T → Type 0 };
    // How the item before, the item after and the answer go together.
    ghost gives: { Self → T → T → O → Type 0 };

    /// Changes an item, or leaves it where there is no memory.
    fn apply(&self, alloc: Global, item: &mut T) -> Result<O, NoMemory>
        requires { can self.now item.old }
        ensures ok { IfOk result (λ out. gives self.now item.old item.new out) }
        ensures err { OnErr result (item.new ≡ item.old) };
}

/// A list that begins with a shared one, which it never changes: what is written there is copied first. Contracts see a
/// plain list.
#[derive(Drop)]
pub struct Layered<'s, T> {
    base: &'s [T],
    copies: BTreeMap<u32, T>,
    own: Vec<T>,
}

impl<'s, T> Model for Layered<'s, T> {
    ghost use Rattle.std.specs.Prelude.{List, ◌++◌, ◌+◌, ◌<◌, ◌^◌, length};
    ghost use Rattle.std.specs.Coded.{coded_list};
    ghost use Rattle.std.specs.Ordering.{nat_cmp};
    ghost use Rattle.std.specs.BTreeMap.{get};
    ghost use Rattle.njs_layer.specs.Layer.{overlaid};

    ghost Value = { List T };

    ghost coded = { coded_list T.code };

    ghost invariant = { λ l. length l.base.now + length l.own.items < 2 ^ 32 };

    ghost view = { λ l. overlaid (get nat_cmp l.copies) 0 l.base.now ++ l.own.items };
}

impl<'s, T> Layered<'s, T> {
    /// The shared list itself. It takes no memory.
    pub fn over(alloc: Global, base: &'s [T]) -> Layered<'s, T>
        requires { length base.now < 2 ^ 32 }
        ensures { result ≡ base.now }
    {
        Layered {
            base,
            copies: BTreeMap::new(alloc),
            own: Vec::new(alloc),
        }
    }

    /// How many items there are, which are fewer than 2^32.
    pub fn len(&self) -> usize
        ensures len { result ≡ length self.now }
        ensures small { length self.now < 2 ^ 32 }
    {
        self.base.len() + self.own.len()
    }

    /// The item at a place. It takes no memory.
    pub fn get(&self, place: u32) -> &T
        requires { place < length self.now }
        ensures { slice_get self.now place ≡ Some result.now }
    {
        let at = place as usize;
        if at >= self.base.len() {
            return &self.own[at - self.base.len()];
        }
        match self.copies.get(&place) {
            Some(copy) => copy,
            None => &self.base[at],
        }
    }
}

impl<'s, T: Copied> Layered<'s, T> {
    /// Changes the item at a place, which is copied first where it is shared: that counts one step, and no other change
    /// counts any. After want of memory the list is as it was.
    pub fn change<O: Drop, C: Change<T, O>, L: Ledger>(
        &mut self,
        alloc: Global,
        place: u32,
        change: &C,
        steps: &mut Steps<L>,
    ) -> Result<O, NoMemory>
        requires within { place < length self.old }
        requires can { (item : T) → slice_get self.old place ≡ Some item → C.can change.now item }
        ensures ok { IfOk result (λ out. IsChangedAt (C.gives change.now) self.old place self.new out) }
        ensures err { OnErr result (self.new ≡ self.old) }
        ensures cells { (steps.old ≤ steps.new) × (steps.new ≤ steps.old + 1) }
    {
        let at = place as usize;
        if at >= self.base.len() {
            let item = &mut self.own[at - self.base.len()];
            return change.apply(alloc, item);
        }
        if let Some(item) = self.copies.get_mut(&place) {
            return change.apply(alloc, item);
        }
        let mut copy = self.base[at].copy(alloc)?;
        let out = change.apply(alloc, &mut copy)?;
        self.copies.insert(place, copy)?;
        steps.tick();
        Ok(out)
    }
}

impl<'s, T: Drop> Layered<'s, T> {
    /// Puts an item behind the others, and answers its place. A list that has 2^32 - 1 items has no room for another.
    pub fn push(&mut self, item: T) -> Result<u32, NoMemory>
        ensures place { IfOk result (λ place. place ≡ length self.old) }
        ensures ok { OnOk result (self.new ≡ self.old ++ item ∷ []) }
        ensures err { OnErr result (self.new ≡ self.old) }
    {
        let place = self.base.len() + self.own.len();
        if place >= u32::MAX as usize {
            return Err(NoMemory);
        }
        self.own.push(item)?;
        Ok(place as u32)
    }
}

impl<'s, T: Copied> Layered<'s, T> {
    /// The same list in a vector of its own. Shared items are copied.
    pub fn into_vec(self, alloc: Global) -> Result<Vec<T>, NoMemory>
        ensures items { IfOk result (λ items. items.items ≡ self.entry) }
        ensures few { IfOk result (λ items. length items.items < 2 ^ 32) }
    {
        let Layered {
            base,
            mut copies,
            mut own,
        } = self;
        let mut items = Vec::new(alloc);
        for place in 0..base.len() {
            let item = taken(alloc, &mut copies, base, place as u32)?;
            items.push(item)?;
        }
        items.append(&mut own)?;
        Ok(items)
    }
}

// The copy of an item, which leaves the copies, or a new copy of the shared item.
fn taken<T: Copied>(
    alloc: Global,
    copies: &mut BTreeMap<u32, T>,
    base: &[T],
    place: u32,
) -> Result<T, NoMemory>
    requires { place < length base.now }
    ensures item { IfOk result (λ item. (d : T) → item ≡ unwrap_or (entry nat_cmp copies.old place) (slice_index_or base.now place d)) }
    ensures others { (q : ℕ) → place < q → entry nat_cmp copies.new q ≡ entry nat_cmp copies.old q }
{
    match copies.remove(&place) {
        Some(copy) => Ok(copy),
        None => base[place as usize].copy(alloc),
    }
}
