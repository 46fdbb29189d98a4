// The properties of one object.
ghost use Rattle.std.specs.Prelude.{◌≡◌, ◌==◌, [], OnOk, OnErr, IfOk, is_some, slice_get, length, None};
ghost use Rattle.std.specs.List.{IsDistinct};
ghost use Rattle.std.specs.Option.{option_map};
ghost use Rattle.njs_props.specs.Names.{is_below, same_name};
ghost use Rattle.njs_props.specs.Props.{property, names_of, with_property, without_property, with_flags, with_value, kept_below, property_lent, entry_lent};

use crate::names::is_index_below;
use indexmap::IndexMap;
use njs_text::{NoMemory, Text};
use njs_value::Flags;
use std::alloc::Global;
use std::marker::Model;

/// The value of a property, and what may be done with it (ECMA-262 5.1 §8.6.1).
#[derive(Clone, Copy, Debug, Drop)]
pub struct Property<T> {
    pub value: T,
    pub flags: Flags,
}

/// The properties of an object by name (ECMA-262 5.1 §8.6). Contracts see the list of the names with their properties,
/// in order of creation.
#[derive(Drop)]
pub struct PropMap<T> {
    map: IndexMap<Text, Property<T>>,
}

impl<T> Model for PropMap<T> {
    ghost use Rattle.std.specs.Prelude.{List, ℕ};
    ghost use Rattle.njs_props.specs.declared.map.Property.{Property};

    ghost Value = { List (List ℕ × Property T) };

    ghost view = { λ m. m.map.entries };
}

impl<T> PropMap<T> {
    /// No properties. It takes no memory.
    pub fn new(alloc: Global) -> PropMap<T>
        ensures { result ≡ [] }
    {
        PropMap {
            map: IndexMap::new(alloc),
        }
    }

    /// The value and the flags of a name, or none exactly where the name isn't there. It takes no memory.
    pub fn get(&self, name: &Text) -> Option<(&T, Flags)>
        ensures { option_map property_lent result ≡ property name.now self.now }
    {
        let found = self.map.get(name)?;
        Some((&found.value, found.flags))
    }

    /// The name, the value and the flags at a place in order of creation, or none exactly from the number of properties
    /// on. It takes no memory.
    pub fn at(&self, place: usize) -> Option<(&Text, &T, Flags)>
        ensures { option_map entry_lent result ≡ slice_get self.now place }
    {
        let (name, found) = self.map.get_index(place)?;
        Some((name, &found.value, found.flags))
    }

    /// How many properties there are.
    pub fn len(&self) -> usize
        ensures len { result ≡ length self.now }

        // No two properties have one name.
        ensures distinct { IsDistinct same_name (names_of self.now) }
    {
        self.map.len()
    }

    /// Whether there is no property.
    pub fn is_empty(&self) -> bool
        ensures { result ≡ (length self.now == 0) }
    {
        self.map.len() == 0
    }
}

impl<T: Drop> PropMap<T> {
    /// Gives a name its value and its flags. A name that is there keeps its place, and then no memory is wanted. A
    /// refused growth leaves the properties as they were.
    pub fn insert(&mut self, name: Text, value: T, flags: Flags) -> Result<(), NoMemory>
        ensures ok { OnOk result (self.new ≡ with_property name (record { value = value; flags = flags }) self.old) }
        ensures err { OnErr result (self.new ≡ self.old) }
        ensures absent { OnErr result (property name self.old ≡ None) }
    {
        self.map.insert(name, Property { value, flags })?;
        Ok(())
    }

    /// Takes a property out; false exactly where the name isn't there. The others keep their order. It takes no memory.
    pub fn remove(&mut self, name: &Text) -> bool
        ensures found { result ≡ is_some (property name.now self.old) }
        ensures rest { self.new ≡ without_property name.now self.old }
    {
        self.map.shift_remove(name).is_some()
    }

    /// Gives a property another value; false exactly where the name isn't there. It takes no memory.
    pub fn set_value(&mut self, name: &Text, value: T) -> bool
        ensures found { result ≡ is_some (property name.now self.old) }
        ensures set { self.new ≡ with_value name.now value self.old }
    {
        let Some(found) = self.map.get_mut(name) else {
            return false;
        };
        found.value = value;
        true
    }

    /// Gives a property other flags; false exactly where the name isn't there. It takes no memory.
    pub fn set_flags(&mut self, name: &Text, flags: Flags) -> bool
        ensures found { result ≡ is_some (property name.now self.old) }
        ensures set { self.new ≡ with_flags name.now flags self.old }
    {
        let Some(found) = self.map.get_mut(name) else {
            return false;
        };
        found.flags = flags;
        true
    }

    /// Takes out the array indices at and past a length. All other properties keep their order. It takes no memory.
    pub fn keep_below(&mut self, length: u64)
        ensures { self.new ≡ kept_below length self.old }
    {
        self.map.retain(
            |name: &Text, property: &mut Property<T>| -> bool
                ensures { (result ≡ is_below length name.now) × (property.new ≡ property.old) }
            { is_index_below(name, length) },
        );
    }
}

impl<T: Copy> PropMap<T> {
    /// The same properties, in the same order.
    pub fn copy(&self, alloc: Global) -> Result<PropMap<T>, NoMemory>
        ensures { IfOk result (λ copy. copy ≡ self.now) }
    {
        let len = self.map.len();
        let mut map = IndexMap::new(alloc);
        for place in 0..len {
            let (name, found) = self.map.get_index(place).unwrap();
            map.insert(name.copy(alloc)?, *found)?;
        }
        Ok(PropMap { map })
    }
}
