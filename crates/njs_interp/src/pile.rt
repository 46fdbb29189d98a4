// Stacks of values.
ghost use Rattle.std.specs.Prelude.{◌≡◌, ℕ, ◌+◌, ◌-◌, ◌<◌, ◌≤◌, List, [], ◌∷◌, ◌++◌, length, reverse, take, drop, slice_get, Some, OnOk, OnErr, IfOk};
ghost use Rattle.njs_interp.specs.Tucked.{tucked};

use njs_text::NoMemory;
use std::alloc::Global;
use std::marker::Model;

/// A stack, seen as a list with the top first.
#[derive(Drop)]
pub struct Pile<T> {
    items: Vec<T>,
}

impl<T> Model for Pile<T> {
    ghost use Rattle.std.specs.Prelude.{List, reverse};

    ghost Value = { List T };

    ghost view = { λ p. reverse p.items.items };
}

impl<T: Copy> Pile<T> {
    /// An empty stack, which takes no memory yet.
    pub fn new(alloc: Global) -> Self
        ensures { result ≡ [] }
    {
        Pile {
            items: Vec::new(alloc),
        }
    }

    /// How many there are.
    pub fn len(&self) -> usize
        ensures { result ≡ length self.now }
    {
        self.items.len()
    }

    /// One more on top.
    pub fn push(&mut self, item: T) -> Result<(), NoMemory>
        ensures ok { OnOk result (self.new ≡ item ∷ self.old) }
        ensures err { OnErr result (self.new ≡ self.old) }
    {
        self.items.push(item)?;
        Ok(())
    }

    /// The top, which stays.
    pub fn top(&self) -> T
        requires { 0 < length self.now }
        ensures { (rest : List T) × (self.now ≡ result ∷ rest) }
    {
        self.items[self.items.len() - 1]
    }

    /// The one below the top, which stays.
    pub fn second(&self) -> T
        requires { 1 < length self.now }
        ensures { (first : T) × (rest : List T) × (self.now ≡ first ∷ result ∷ rest) }
    {
        self.items[self.items.len() - 2]
    }

    /// Puts the top also under so many below it.
    pub fn tuck(&mut self, under: usize) -> Result<(), NoMemory>
        requires { under < length self.old }
        ensures ok { OnOk result ((top : T) × (below : List T) × (self.old ≡ top ∷ below) × (self.new ≡ tucked under top below)) }
        ensures err { OnErr result (self.new ≡ self.old) }
    {
        let value = self.top();
        let last = self.items.len() - 1;
        self.items.insert(last - under, value)?;
        Ok(())
    }

    /// Takes the top.
    pub fn pop(&mut self) -> T
        requires { 0 < length self.old }
        ensures { self.old ≡ result ∷ self.new }
    {
        self.items.pop().unwrap()
    }

    /// Keeps the lowest n.
    pub fn cut(&mut self, n: usize)
        ensures { self.new ≡ drop (length self.old - n) self.old }
    {
        self.items.truncate(n);
    }

    /// Takes the topmost n, and gives them in the order in which they were pushed.
    pub fn take_top(&mut self, n: usize) -> Result<Vec<T>, NoMemory>
        requires { n ≤ length self.old }
        ensures { IfOk result (λ taken. (self.old ≡ reverse taken.items ++ self.new) × (length taken.items ≡ n)) }
    {
        let keep = self.items.len() - n;
        Ok(self.items.split_off(keep)?)
    }
}
