// Changes of one object or scope, as values.
use crate::definitions::define_with;
use crate::properties::{delete_from, put_with};
use njs_layer::Change;
use njs_shared::{Object, Scope};
use njs_text::{NoMemory, Text};
use njs_value::{Cause, Desc, Flags, Value};
use std::alloc::Global;

/// A value is put under a name, whose nearest property on the chain of prototypes has these flags. It gives an array this
/// length, or none.
#[derive(Drop)]
pub(crate) struct Put<'a> {
    pub nearest: Option<Flags>,
    pub name: &'a Text,
    pub value: Value,
    pub length: Option<u32>,
}

impl Change<Object, Option<Cause>> for Put<'_> {
    ghost use Rattle.std.specs.Prelude.{⊤};
    ghost use Rattle.njs_meaning.specs.Objects.{put};
    ghost use Rattle.njs_clone.specs.Content.{stored, written};
    ghost use Rattle.njs_clone.specs.Gives.{LeavesObject};

    ghost can = { λ c old. ⊤ };

    ghost gives = { λ c old new thrown. LeavesObject (put stored written c.length old.class old.extensible c.nearest c.name.now c.value old.props) old new thrown };

    fn apply(&self, alloc: Global, object: &mut Object) -> Result<Option<Cause>, NoMemory> {
        put_with(
            alloc,
            object,
            self.length,
            self.nearest,
            self.name,
            self.value,
        )
    }
}

/// A property is deleted.
#[derive(Drop)]
pub(crate) struct Delete<'a> {
    pub name: &'a Text,
}

impl Change<Object, Option<Cause>> for Delete<'_> {
    ghost use Rattle.std.specs.Prelude.{⊤};
    ghost use Rattle.njs_meaning.specs.Properties.{delete};
    ghost use Rattle.njs_clone.specs.Gives.{LeavesObject};

    ghost can = { λ c old. ⊤ };

    ghost gives = { λ c old new thrown. LeavesObject (delete c.name.now old.props) old new thrown };

    fn apply(&self, alloc: Global, object: &mut Object) -> Result<Option<Cause>, NoMemory> {
        Ok(delete_from(object, self.name))
    }
}

/// A property is defined. The given value is another than the one there, or isn't, and it gives an array this length, or
/// none.
#[derive(Drop)]
pub(crate) struct Define<'a> {
    pub name: &'a Text,
    pub desc: &'a Desc,
    pub other: bool,
    pub length: Option<u32>,
}

impl Change<Object, Option<Cause>> for Define<'_> {
    ghost use Rattle.std.specs.Prelude.{⊤};
    ghost use Rattle.njs_value.specs.declared.Value.TheVariants.{Undefined};
    ghost use Rattle.njs_meaning.specs.Objects.{define};
    ghost use Rattle.njs_clone.specs.Content.{stored, written};
    ghost use Rattle.njs_clone.specs.Gives.{LeavesObject};

    ghost can = { λ c old. ⊤ };

    ghost gives = { λ c old new thrown. LeavesObject (define stored written Undefined c.length c.other old.class old.extensible c.name.now c.desc.now old.props) old new thrown };

    fn apply(&self, alloc: Global, object: &mut Object) -> Result<Option<Cause>, NoMemory> {
        define_with(alloc, object, self.other, self.length, self.name, self.desc)
    }
}

/// An object takes no new properties.
#[derive(Drop)]
pub(crate) struct StopExtensions;

impl Change<Object, ()> for StopExtensions {
    ghost use Rattle.std.specs.Prelude.{◌≡◌, ⊤, false};

    ghost can = { λ c old. ⊤ };

    ghost gives = { λ c old new done. new ≡ record old { extensible = false } };

    fn apply(&self, alloc: Global, object: &mut Object) -> Result<(), NoMemory> {
        object.extensible = false;
        Ok(())
    }
}

/// A slot of a scope takes a value.
#[derive(Drop)]
pub(crate) struct SetSlot {
    pub slot: u32,
    pub value: Value,
}

impl Change<Scope, ()> for SetSlot {
    ghost use Rattle.std.specs.Prelude.{◌≡◌, ◌<◌, length, slice_set};

    ghost can = { λ c old. c.slot < length old.slots };

    ghost gives = { λ c old new done. new ≡ record old { slots = slice_set old.slots c.slot c.value } };

    fn apply(&self, alloc: Global, scope: &mut Scope) -> Result<(), NoMemory> {
        scope.slots.set(self.slot as usize, self.value);
        Ok(())
    }
}
