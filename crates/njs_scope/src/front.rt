// Lists that grow at their front.
ghost use Rattle.std.specs.Prelude.{◌≡◌, [], ◌∷◌, MatchOption, OnOk, OnErr};

use njs_text::{List, NoMemory};
use std::alloc::Global;
use std::marker::Model;

/// A list that grows and shrinks at its front.
#[derive(Drop)]
pub struct Front<T> {
    reversed: Vec<T>,
}

impl<T> Model for Front<T> {
    ghost use Rattle.std.specs.Prelude.{List as Items, reverse};
    ghost use Rattle.std.specs.Coded.{coded_list};

    ghost Value = { Items T };

    ghost coded = { coded_list T.code };

    ghost view = { λ f. reverse f.reversed.items };
}

impl<T> Front<T> {
    /// A list without items. It takes no memory.
    pub fn new(alloc: Global) -> Front<T>
        ensures { result ≡ [] }
    {
        Front {
            reversed: Vec::new(alloc),
        }
    }

    /// The items, in order.
    pub fn into_list(self) -> List<T>
        ensures { result ≡ self }
    {
        let Front { mut reversed } = self;
        reversed.reverse();
        List::from_vec(reversed)
    }
}

impl<T: Drop> Front<T> {
    /// Puts an item before the others. A refused growth leaves the list as it was.
    pub fn push(&mut self, item: T) -> Result<(), NoMemory>
        ensures ok { OnOk result (self.new ≡ item ∷ self.old) }
        ensures err { OnErr result (self.new ≡ self.old) }
    {
        self.reversed.push(item)?;
        Ok(())
    }

    /// Takes the first item, if there is one.
    pub fn pop(&mut self) -> Option<T>
        ensures { MatchOption result ((self.old ≡ []) × (self.new ≡ [])) (λ item. self.old ≡ item ∷ self.new) }
    {
        self.reversed.pop()
    }
}
