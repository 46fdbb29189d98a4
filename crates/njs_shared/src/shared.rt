// A heap that nothing changes.
ghost use Rattle.std.specs.Prelude.{◌≡◌, ◌<◌, ◌^◌, [], Some, length, slice_get};
ghost use Rattle.njs_shared.specs.Fits.{FitsHeap};
ghost use Rattle.njs_shared.specs.Lengths.{HasLengths};
ghost use Rattle.njs_shared.specs.Ends.{HasEnds};

use crate::{Object, Scope};
use njs_text::{List, Text};
use njs_value::{ObjId, ScopeId, TextId};
use std::alloc::Global;
use std::marker::Model;

/// A heap that nothing changes, which machines share. Contracts see its lists of objects, scopes and texts.
///
/// Every number in it is that of an object, a scope or a text of its own; every array has an own `length`, neither enumerable
/// nor configurable, that is above each of its array indices (ECMA-262 5.1 §15.4); and every chain of prototypes, of scopes
/// and of bound functions ends. `sizes` hands these facts on.
#[derive(Drop)]
pub struct Shared {
    objects: List<Object>,
    scopes: List<Scope>,
    texts: List<Text>,
}

impl Model for Shared {
    ghost use Rattle.std.specs.Prelude.{◌<◌, ◌^◌, length};
    ghost use Rattle.njs_shared.specs.Heap.{Heap};
    ghost use Rattle.njs_shared.specs.Fits.{FitsHeap};
    ghost use Rattle.njs_shared.specs.Lengths.{HasLengths};
    ghost use Rattle.njs_shared.specs.Ends.{HasEnds};

    ghost Value = { Heap };

    ghost view = { λ s. record { objects = s.objects; scopes = s.scopes; texts = s.texts } };

    ghost invariant = { λ s.
        (length s.objects < 2 ^ 32) × (length s.scopes < 2 ^ 32) × (length s.texts < 2 ^ 32)
        × FitsHeap (record { objects = s.objects; scopes = s.scopes; texts = s.texts })
        × HasLengths (record { objects = s.objects; scopes = s.scopes; texts = s.texts })
        × HasEnds (record { objects = s.objects; scopes = s.scopes; texts = s.texts }) };
}

impl Shared {
    /// A heap without objects, scopes and texts. It takes no memory.
    pub fn empty(alloc: Global) -> Shared
        ensures objects { result.objects ≡ [] }
        ensures scopes { result.scopes ≡ [] }
        ensures texts { result.texts ≡ [] }
    {
        Shared {
            objects: List::new(alloc),
            scopes: List::new(alloc),
            texts: List::new(alloc),
        }
    }

    /// The heap of these lists. It takes no memory.
    pub fn of(objects: Vec<Object>, scopes: Vec<Scope>, texts: Vec<Text>) -> Shared
        requires objects { length objects.items < 2 ^ 32 }
        requires scopes { length scopes.items < 2 ^ 32 }
        requires texts { length texts.items < 2 ^ 32 }

        // Every number of an object, a scope or a text is a place of these lists.
        requires fits { FitsHeap (record { objects = objects.items; scopes = scopes.items; texts = texts.items }) }

        // Every array has its `length`, above each of its elements.
        requires lengths { HasLengths (record { objects = objects.items; scopes = scopes.items; texts = texts.items }) }

        // Every chain of prototypes, of scopes and of bound functions ends.
        requires ends { HasEnds (record { objects = objects.items; scopes = scopes.items; texts = texts.items }) }
        ensures { result ≡ record { objects = objects.items; scopes = scopes.items; texts = texts.items } }
    {
        Shared {
            objects: List::from_vec(objects),
            scopes: List::from_vec(scopes),
            texts: List::from_vec(texts),
        }
    }

    /// The object with a number.
    pub fn get(&self, id: ObjId) -> &Object
        requires { id.0 < length self.now.objects }
        ensures { slice_get self.now.objects id.0 ≡ Some result.now }
    {
        &self.objects.as_slice()[id.0 as usize]
    }

    /// The scope with a number.
    pub fn scope(&self, id: ScopeId) -> &Scope
        requires { id.0 < length self.now.scopes }
        ensures { slice_get self.now.scopes id.0 ≡ Some result.now }
    {
        &self.scopes.as_slice()[id.0 as usize]
    }

    /// The text with a number.
    pub fn text(&self, id: TextId) -> &Text
        requires { id.0 < length self.now.texts }
        ensures { slice_get self.now.texts id.0 ≡ Some result.now }
    {
        &self.texts.as_slice()[id.0 as usize]
    }

    /// How many objects, scopes and texts there are, and what holds of every such heap.
    pub fn sizes(&self) -> (u32, u32, u32)
        ensures objects { result.0 ≡ length self.now.objects }
        ensures scopes { result.1 ≡ length self.now.scopes }
        ensures texts { result.2 ≡ length self.now.texts }

        // Every number of an object, a scope or a text in the heap is a place of it.
        ensures fits { FitsHeap self.now }

        // Every array has its `length`, above each of its elements (ECMA-262 5.1 §15.4).
        ensures lengths { HasLengths self.now }

        // Every chain of prototypes, of scopes and of bound functions ends.
        ensures ends { HasEnds self.now }
    {
        (
            self.objects.len() as u32,
            self.scopes.len() as u32,
            self.texts.len() as u32,
        )
    }

    /// The objects, by their numbers.
    pub fn objects(&self) -> &[Object]
        ensures objects { result.now ≡ self.now.objects }
        ensures few { length self.now.objects < 2 ^ 32 }
    {
        self.objects.as_slice()
    }

    /// The scopes, by their numbers.
    pub fn scopes(&self) -> &[Scope]
        ensures scopes { result.now ≡ self.now.scopes }
        ensures few { length self.now.scopes < 2 ^ 32 }
    {
        self.scopes.as_slice()
    }

    /// The texts, by their numbers.
    pub fn texts(&self) -> &[Text]
        ensures texts { result.now ≡ self.now.texts }
        ensures few { length self.now.texts < 2 ^ 32 }
    {
        self.texts.as_slice()
    }
}
