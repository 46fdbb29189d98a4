// The heap of one machine.
ghost use Rattle.std.specs.Prelude.{◌≡◌, ◌<◌, ◌≤◌, ◌+◌, ◌==◌, [], ◌∷◌, ◌++◌, Some, None, IsOk, Err, MatchOption, length, slice_get, IfOk, OnErr, OnOk};
ghost use Rattle.std.specs.Option.{option_map, option_and_then, option_map_or, ForSome};
ghost use Rattle.njs_value.specs.declared.Class.TheVariants.{Array};
ghost use Rattle.njs_value.specs.declared.Value.TheVariants.{Undefined};
ghost use Rattle.njs_value.specs.declared.HeapStop.TheVariants.{Throw};
ghost use Rattle.njs_props.specs.Props.{property};
ghost use Rattle.njs_shared.specs.Heap.{sizes};
ghost use Rattle.njs_shared.specs.Fits.{FitsValue, FitsInner, FitsProperties, FitsObject, FitsHeap};
ghost use Rattle.njs_shared.specs.Lengths.{HasLength, HasLengthOfArray, HasLengths};
ghost use Rattle.njs_shared.specs.Ends.{HasEnds};
ghost use Rattle.njs_meaning.specs.Chains.{own_at, get, nearest, keys};
ghost use Rattle.njs_meaning.specs.Objects.{with_new_object, with_stopped, gives_other};
ghost use Rattle.njs_meaning.specs.Values.{length_from};
ghost use Rattle.njs_clone.specs.Content.{same_value, given, written};
ghost use Rattle.njs_clone.specs.Gives.{GivesAt, put_in, define_in, delete_in, property_copied};
ghost use Rattle.njs_clone.specs.Created.{with_object_of};
ghost use Rattle.njs_clone.specs.Scopes.{with_new_scope, with_slot, slot_count, slot_at};

use crate::changes::{Define, Delete, Put, SetSlot, StopExtensions};
use crate::properties::first_props;
use crate::reads::read_own;
use njs_layer::Layered;
use njs_meaning::number_of_text;
use njs_props::PropMap;
use njs_shared::{Inner, Object, Scope, Shared};
use njs_text::{List, NoMemory, Steps, Text};
use njs_value::{Cause, Class, Desc, Flags, HeapStop, ObjId, ScopeId, TextId, Value};
use std::alloc::Global;
use std::marker::Model;
use std::sync::ledger::Ledger;

/// The objects, scopes and texts of one machine, each by its number. It begins with those of a heap that machines share;
/// what it changes there it copies first, so no other machine sees the change. Contracts see the plain lists.
///
/// What holds of every `Shared` holds of every machine, and each call keeps it: numbers are the machine's own, every array has
/// a `length` above each of its array indices, and every chain of prototypes, of scopes and of bound functions ends. `sizes`
/// hands these facts on.
///
/// A call that makes an object or a scope counts one step, and so does a copy of one of the shared ones; nothing else does.
#[derive(Drop)]
pub struct Machine<'s> {
    objects: Layered<'s, Object>,
    scopes: Layered<'s, Scope>,
    texts: Layered<'s, Text>,
}

impl<'s> Model for Machine<'s> {
    ghost use Rattle.njs_shared.specs.Heap.{Heap};
    ghost use Rattle.njs_shared.specs.Fits.{FitsHeap};
    ghost use Rattle.njs_shared.specs.Lengths.{HasLengths};
    ghost use Rattle.njs_shared.specs.Ends.{HasEnds};

    ghost Value = { Heap };

    ghost view = { λ m. record { objects = m.objects; scopes = m.scopes; texts = m.texts } };

    ghost invariant = { λ m.
        FitsHeap (record { objects = m.objects; scopes = m.scopes; texts = m.texts })
        × HasLengths (record { objects = m.objects; scopes = m.scopes; texts = m.texts })
        × HasEnds (record { objects = m.objects; scopes = m.scopes; texts = m.texts }) };
}

impl<'s> Machine<'s> {
    /// A machine that stands for what the shared heap holds. It takes no memory.
    pub fn clone_of(alloc: Global, shared: &'s Shared) -> Machine<'s>
        ensures { result ≡ shared.now }
    {
        let _sizes = shared.sizes();
        Machine {
            objects: Layered::over(alloc, shared.objects()),
            scopes: Layered::over(alloc, shared.scopes()),
            texts: Layered::over(alloc, shared.texts()),
        }
    }

    /// A heap that nothing changes any more, of what the machine holds. What is still shared is copied; after want of memory
    /// nothing is left.
    pub fn freeze(self, alloc: Global) -> Result<Shared, NoMemory>
        ensures { IfOk result (λ shared. shared ≡ self.entry) }
    {
        let Machine {
            objects,
            scopes,
            texts,
        } = self;
        Ok(Shared::of(
            objects.into_vec(alloc)?,
            scopes.into_vec(alloc)?,
            texts.into_vec(alloc)?,
        ))
    }

    /// How many objects, scopes and texts there are, and what holds of every machine. It takes no memory.
    pub fn sizes(&self) -> (u32, u32, u32)
        ensures objects { result.0 ≡ length self.now.objects }
        ensures scopes { result.1 ≡ length self.now.scopes }
        ensures texts { result.2 ≡ length self.now.texts }

        // Every number of an object, a scope or a text in the machine is a place of it.
        ensures fits { FitsHeap self.now }

        // Every array has its `length`, above each of its elements (ECMA-262 5.1 §15.4).
        ensures lengths { HasLengths self.now }

        // Every chain of prototypes, of scopes and of bound functions ends.
        ensures ends { HasEnds self.now }
    {
        (
            self.objects.len() as u32,
            self.scopes.len() as u32,
            self.texts.len() as u32,
        )
    }

    /// The object with a number; an array has its `length` (ECMA-262 5.1 §15.4). It takes no memory.
    pub fn object(&self, object: ObjId) -> &Object
        requires { object.0 < length self.now.objects }
        ensures object { slice_get self.now.objects object.0 ≡ Some result.now }
        ensures fits { FitsObject (sizes self.now) result.now }
        ensures length { HasLengthOfArray result.now }
    {
        self.objects.get(object.0)
    }

    /// The value and the flags of an object's own property (ECMA-262 5.1 §8.12.1), or none exactly where it has none. It
    /// takes no memory.
    pub fn own(&self, object: ObjId, name: &Text) -> Option<(Value, Flags)>
        requires { object.0 < length self.now.objects }
        ensures property { option_map property_copied result ≡ own_at name.now self.now.objects object.0 }
        ensures fits { ForSome result (λ found. FitsValue (sizes self.now) found.0) }
    {
        let (value, flags) = self.object(object).props.get(name)?;
        Some((*value, flags))
    }

    /// The value that a name reads of an object (ECMA-262 5.1 §8.12.3), undefined where nothing on its chain has the name. It
    /// takes no memory.
    pub fn get(&self, object: ObjId, name: &Text) -> Value
        requires { object.0 < length self.now.objects }
        ensures value { result ≡ get Undefined name.now self.now.objects object.0 }
        ensures fits { FitsValue (sizes self.now) result }
    {
        let mut at = object;
        for step in 0..self.objects.len() {
            let object = self.object(at);
            if let Some((value, _)) = read_own(object, name) {
                return *value;
            }
            let Some(up) = object.prototype else {
                return Value::Undefined;
            };
            at = up;
        }
        Value::Undefined
    }

    // The flags of the nearest property of a name on the chain of prototypes.
    fn nearest(&self, object: ObjId, name: &Text) -> Option<Flags>
        requires { object.0 < length self.now.objects }
        ensures { result ≡ option_map (λ p. p.flags) (nearest name.now self.now.objects object.0) }
    {
        let mut at = object;
        for step in 0..self.objects.len() {
            let object = self.object(at);
            if let Some((_, flags)) = object.props.get(name) {
                return Some(flags);
            }
            at = object.prototype?;
        }
        None
    }

    // The number that a value is or stands for, where it gives an array a length.
    fn given_number(&self, value: Value) -> Option<i64>
        requires { FitsValue (sizes self.now) value }
        ensures { option_and_then length_from result ≡ given self.now.texts value }
    {
        match value {
            Value::Undefined => None,
            Value::Null => Some(0),
            Value::Bool(truth) => Some(i64::from(truth)),
            Value::Num(number) => Some(number),
            Value::Str(text) => number_of_text(self.text(text)),
            Value::Obj(_) => None,
        }
    }

    // The length that a value gives an array.
    fn given_length(&self, value: Value) -> Option<u32>
        requires { FitsValue (sizes self.now) value }
        ensures { result ≡ given self.now.texts value }
    {
        length_from(self.given_number(value)?)
    }

    /// Gives a property of an object its value (ECMA-262 5.1 §8.12.5, §15.4.5.1). After want of memory all is as before, and
    /// after a throw too, save that a smaller `length` of an array that meets an element which can't be deleted stays one past
    /// that element.
    pub fn put<L: Ledger>(
        &mut self,
        alloc: Global,
        object: ObjId,
        name: &Text,
        value: Value,
        steps: &mut Steps<L>,
    ) -> Result<(), HeapStop>
        requires object { object.0 < length self.old.objects }
        requires value { FitsValue (sizes self.old) value }
        ensures gives { GivesAt (put_in self.old object.0 name.now value) object.0 self.old self.new result }
        ensures cells { (steps.old ≤ steps.new) × (steps.new ≤ steps.old + 1) }
    {
        let put = Put {
            nearest: self.nearest(object, name),
            name,
            value,
            length: self.given_length(value),
        };
        let Ok(thrown) = self.objects.change(alloc, object.0, &put, steps) else {
            return Err(HeapStop::NoMemory);
        };
        answer(thrown)
    }

    /// Deletes a property of an object (ECMA-262 5.1 §8.12.7). A property that isn't there throws nothing.
    pub fn delete<L: Ledger>(
        &mut self,
        alloc: Global,
        object: ObjId,
        name: &Text,
        steps: &mut Steps<L>,
    ) -> Result<(), HeapStop>
        requires { object.0 < length self.old.objects }
        ensures gives { GivesAt (delete_in self.old object.0 name.now) object.0 self.old self.new result }
        ensures cells { (steps.old ≤ steps.new) × (steps.new ≤ steps.old + 1) }
    {
        let delete = Delete { name };
        let Ok(thrown) = self.objects.change(alloc, object.0, &delete, steps) else {
            return Err(HeapStop::NoMemory);
        };
        answer(thrown)
    }

    // Whether two values are the same, texts by content.
    fn is_same(&self, left: Value, right: Value) -> bool
        requires left { FitsValue (sizes self.now) left }
        requires right { FitsValue (sizes self.now) right }
        ensures { result ≡ same_value self.now.texts left right }
    {
        match (left, right) {
            (Value::Undefined, Value::Undefined) | (Value::Null, Value::Null) => true,
            (Value::Bool(left), Value::Bool(right)) => left == right,
            (Value::Num(left), Value::Num(right)) => left == right,
            (Value::Str(left), Value::Str(right)) => *self.text(left) == *self.text(right),
            (Value::Obj(left), Value::Obj(right)) => left.0 == right.0,
            _ => false,
        }
    }

    // Whether a definition gives another value than the one there.
    fn gives_other(&self, object: ObjId, name: &Text, desc: &Desc) -> bool
        requires object { object.0 < length self.now.objects }
        requires given { ForSome desc.now.value (FitsValue (sizes self.now)) }
        ensures { result ≡ gives_other (same_value self.now.texts) desc.now (own_at name.now self.now.objects object.0) }
    {
        let Some(given) = desc.value else {
            return false;
        };
        match self.own(object, name) {
            None => false,
            Some((present, _)) => !self.is_same(given, present),
        }
    }

    // The length that the value of a definition gives an array.
    fn defined_length(&self, desc: &Desc) -> Option<u32>
        requires { ForSome desc.now.value (FitsValue (sizes self.now)) }
        ensures { result ≡ option_and_then (given self.now.texts) desc.now.value }
    {
        self.given_length(desc.value?)
    }

    /// Defines a property of an object (ECMA-262 5.1 §8.12.9, §15.4.5.1). What is left after a throw or want of memory is as
    /// for `put`.
    pub fn define<L: Ledger>(
        &mut self,
        alloc: Global,
        object: ObjId,
        name: &Text,
        desc: Desc,
        steps: &mut Steps<L>,
    ) -> Result<(), HeapStop>
        requires object { object.0 < length self.old.objects }
        requires value { ForSome desc.value (FitsValue (sizes self.old)) }
        ensures gives { GivesAt (define_in self.old object.0 name.now desc) object.0 self.old self.new result }
        ensures cells { (steps.old ≤ steps.new) × (steps.new ≤ steps.old + 1) }
    {
        let define = Define {
            name,
            desc: &desc,
            other: self.gives_other(object, name, &desc),
            length: self.defined_length(&desc),
        };
        let Ok(thrown) = self.objects.change(alloc, object.0, &define, steps) else {
            return Err(HeapStop::NoMemory);
        };
        answer(thrown)
    }

    /// Lets an object take no new properties (ECMA-262 5.1 §15.2.3.10).
    pub fn stop_extensions<L: Ledger>(
        &mut self,
        alloc: Global,
        object: ObjId,
        steps: &mut Steps<L>,
    ) -> Result<(), NoMemory>
        requires { object.0 < length self.old.objects }
        ensures ok { OnOk result (self.new ≡ record self.old { objects = with_stopped self.old.objects object.0 }) }
        ensures err { OnErr result (self.new ≡ self.old) }
        ensures cells { (steps.old ≤ steps.new) × (steps.new ≤ steps.old + 1) }
    {
        self.objects
            .change(alloc, object.0, &StopExtensions, steps)?;
        Ok(())
    }

    /// The names of an object's own properties: array indices rising, and then the others in order of creation.
    pub fn keys(&self, alloc: Global, object: ObjId) -> Result<Vec<Text>, NoMemory>
        requires { object.0 < length self.now.objects }
        ensures { IfOk result (λ names. Some names.items ≡ option_map keys (slice_get self.now.objects object.0)) }
    {
        self.object(object).props.keys(alloc)
    }

    /// Makes an object, which takes new properties and has the next number. An array has its `length`, 0, which can be
    /// written; any other object has no property.
    pub fn new_object<L: Ledger>(
        &mut self,
        alloc: Global,
        class: Class,
        prototype: Option<ObjId>,
        inner: Inner,
        steps: &mut Steps<L>,
    ) -> Result<ObjId, NoMemory>
        requires prototype { ForSome prototype (λ up. up.0 < length self.old.objects) }
        requires inner { FitsInner (sizes self.old) inner }
        ensures number { IfOk result (λ object. object.0 ≡ length self.old.objects) }
        ensures ok { OnOk result (self.new ≡ record self.old { objects = with_new_object written class prototype inner self.old.objects }) }
        ensures err { OnErr result (self.new ≡ self.old) }
        ensures cell { OnOk result (steps.new ≡ steps.old + 1) }
        ensures no_cell { OnErr result (steps.new ≡ steps.old) }
    {
        let props = first_props(alloc, class)?;
        self.new_object_with(class, prototype, props, inner, steps)
    }

    /// Makes an object with these properties, which takes new ones and has the next number. An array has its `length` among
    /// them (ECMA-262 5.1 §15.4). It counts one step, as `new_object`, and the properties none.
    pub fn new_object_with<L: Ledger>(
        &mut self,
        class: Class,
        prototype: Option<ObjId>,
        props: PropMap<Value>,
        inner: Inner,
        steps: &mut Steps<L>,
    ) -> Result<ObjId, NoMemory>
        requires prototype { ForSome prototype (λ up. up.0 < length self.old.objects) }
        requires props { FitsProperties (sizes self.old) props }
        requires length { class ≡ Array → HasLength props }
        requires inner { FitsInner (sizes self.old) inner }
        ensures number { IfOk result (λ object. object.0 ≡ length self.old.objects) }
        ensures ok { OnOk result (self.new ≡ record self.old { objects = with_object_of class prototype props inner self.old.objects }) }
        ensures err { OnErr result (self.new ≡ self.old) }
        ensures cell { OnOk result (steps.new ≡ steps.old + 1) }
        ensures no_cell { OnErr result (steps.new ≡ steps.old) }
    {
        let object = self.objects.push(Object {
            class,
            prototype,
            extensible: true,
            props,
            inner,
        })?;
        steps.tick();
        Ok(ObjId(object))
    }

    // Puts a scope with undefined slots behind the others.
    fn push_scope<L: Ledger>(
        &mut self,
        alloc: Global,
        parent: Option<ScopeId>,
        slots: u32,
        steps: &mut Steps<L>,
    ) -> Result<ScopeId, NoMemory>
        requires { ForSome parent (λ up. up.0 < length self.old.scopes) }
        ensures number { IfOk result (λ scope. scope.0 ≡ length self.old.scopes) }
        ensures ok { OnOk result (self.new ≡ record self.old { scopes = with_new_scope parent slots self.old.scopes }) }
        ensures err { OnErr result (self.new ≡ self.old) }
        ensures cell { OnOk result (steps.new ≡ steps.old + 1) }
        ensures no_cell { OnErr result (steps.new ≡ steps.old) }
    {
        let slots = vec![in alloc; Value::Undefined; slots as usize]?;
        let scope = self.scopes.push(Scope {
            parent,
            slots: List::from_vec(slots),
        })?;
        steps.tick();
        Ok(ScopeId(scope))
    }

    /// Makes the outermost scope, with undefined slots, which has the number 0.
    pub fn first_scope<L: Ledger>(
        &mut self,
        alloc: Global,
        slots: u32,
        steps: &mut Steps<L>,
    ) -> Result<ScopeId, NoMemory>
        requires { self.old.scopes ≡ [] }
        ensures number { IfOk result (λ scope. scope.0 ≡ 0) }
        ensures ok { OnOk result (self.new ≡ record self.old { scopes = with_new_scope None slots [] }) }
        ensures err { OnErr result (self.new ≡ self.old) }
        ensures cell { OnOk result (steps.new ≡ steps.old + 1) }
        ensures no_cell { OnErr result (steps.new ≡ steps.old) }
    {
        self.push_scope(alloc, None, slots, steps)
    }

    /// Makes a scope below another, with undefined slots. It has the next number.
    pub fn new_scope<L: Ledger>(
        &mut self,
        alloc: Global,
        parent: ScopeId,
        slots: u32,
        steps: &mut Steps<L>,
    ) -> Result<ScopeId, NoMemory>
        requires { parent.0 < length self.old.scopes }
        ensures number { IfOk result (λ scope. scope.0 ≡ length self.old.scopes) }
        ensures ok { OnOk result (self.new ≡ record self.old { scopes = with_new_scope (Some parent) slots self.old.scopes }) }
        ensures err { OnErr result (self.new ≡ self.old) }
        ensures cell { OnOk result (steps.new ≡ steps.old + 1) }
        ensures no_cell { OnErr result (steps.new ≡ steps.old) }
    {
        self.push_scope(alloc, Some(parent), slots, steps)
    }

    /// The scope around a scope, or none exactly where it has none. It takes no memory.
    pub fn parent(&self, scope: ScopeId) -> Option<ScopeId>
        requires { scope.0 < length self.now.scopes }
        ensures parent { Some result ≡ option_map (λ s. s.parent) (slice_get self.now.scopes scope.0) }
        ensures fits { ForSome result (λ up. up.0 < length self.now.scopes) }
    {
        self.scopes.get(scope.0).parent
    }

    /// The value in a slot of a scope. It takes no memory.
    pub fn scope_get(&self, scope: ScopeId, slot: u32) -> Value
        requires scope { scope.0 < length self.now.scopes }
        requires slot { slot < slot_count self.now.scopes scope.0 }
        ensures value { slot_at self.now.scopes scope.0 slot ≡ Some result }
        ensures fits { FitsValue (sizes self.now) result }
    {
        *self.scopes.get(scope.0).slots.get(slot as usize).unwrap()
    }

    /// Gives a slot of a scope its value.
    pub fn scope_put<L: Ledger>(
        &mut self,
        alloc: Global,
        scope: ScopeId,
        slot: u32,
        value: Value,
        steps: &mut Steps<L>,
    ) -> Result<(), NoMemory>
        requires scope { scope.0 < length self.old.scopes }
        requires slot { slot < slot_count self.old.scopes scope.0 }
        requires value { FitsValue (sizes self.old) value }
        ensures ok { OnOk result (self.new ≡ record self.old { scopes = with_slot scope.0 slot value self.old.scopes }) }
        ensures err { OnErr result (self.new ≡ self.old) }
        ensures cells { (steps.old ≤ steps.new) × (steps.new ≤ steps.old + 1) }
    {
        self.scopes
            .change(alloc, scope.0, &SetSlot { slot, value }, steps)?;
        Ok(())
    }

    /// The text with a number. It takes no memory.
    pub fn text(&self, text: TextId) -> &Text
        requires { text.0 < length self.now.texts }
        ensures { slice_get self.now.texts text.0 ≡ Some result.now }
    {
        self.texts.get(text.0)
    }

    /// Gives a text the next number.
    pub fn add_text(&mut self, text: Text) -> Result<TextId, NoMemory>
        ensures number { IfOk result (λ id. id.0 ≡ length self.old.texts) }
        ensures ok { OnOk result (self.new ≡ record self.old { texts = self.old.texts ++ text ∷ [] }) }
        ensures err { OnErr result (self.new ≡ self.old) }
    {
        Ok(TextId(self.texts.push(text)?))
    }
}

// The length of an array that a number is.
fn length_from(number: i64) -> Option<u32>
    ensures { result ≡ length_from number }
{
    u32::try_from(number).ok()
}

// What a writing call answers where this was thrown.
fn answer(thrown: Option<Cause>) -> Result<(), HeapStop>
    ensures { MatchOption thrown (IsOk result) (λ cause. result ≡ Err (Throw cause)) }
{
    match thrown {
        None => Ok(()),
        Some(cause) => Err(HeapStop::Throw(cause)),
    }
}
