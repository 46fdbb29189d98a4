// Members that are read or asked for.
ghost use Rattle.std.specs.Prelude.{◌≡◌, ◌≤◌, ◌<◌, length, IfOk, OnErr};
ghost use Rattle.njs_shared.specs.Heap.{sizes};
ghost use Rattle.njs_shared.specs.Fits.{FitsValue};
ghost use Rattle.njs_clone.specs.Content.{content};
ghost use Rattle.njs_clone.specs.StandsFor.{plain_objects};
ghost use Rattle.njs_meaning.specs.Errors.{first_count};
ghost use Rattle.njs_meaning.specs.Members.{get_member, has_member};
ghost use Rattle.njs_members.specs.Starts.{text_at};
ghost use Rattle.njs_members.specs.Gains.{GainsTexts};

use crate::found::{inherited, is_found};
use crate::own::{has_own, own, value_of};
use njs_clone::Machine;
use njs_text::{NoMemory, Text};
use njs_value::{TextId, Value};
use std::alloc::Global;

/// The value that a name reads of any value (ECMA-262 5.1 §8.7.1): of a text its length or one of its characters, and else
/// what is found on the chain of prototypes, undefined where nothing is. Only a character takes memory, as a new text; after
/// want of memory all is as before.
pub fn get_member(
    alloc: Global,
    machine: &mut Machine<'_>,
    base: Value,
    name: TextId,
) -> Result<Value, NoMemory>
    requires first { first_count ≤ length machine.old.objects }
    requires base { FitsValue (sizes machine.old) base }
    requires name { name.0 < length machine.old.texts }
    ensures value { IfOk result (λ v. content machine.new.texts v ≡ get_member (text_at machine.old.texts name) (content machine.old.texts base) (plain_objects machine.old)) }
    ensures fits { IfOk result (FitsValue (sizes machine.new)) }
    ensures texts { GainsTexts machine.old machine.new }
    ensures err { OnErr result (machine.new ≡ machine.old) }
{
    let found = own(machine, base, machine.text(name));
    match found {
        Some(member) => value_of(alloc, machine, member),
        None => Ok(inherited(machine, base, machine.text(name))),
    }
}

/// Whether any value has a member, itself or on its chain of prototypes (ECMA-262 5.1 §8.12.6, §11.8.7, where the value is an
/// object). It takes no memory.
pub fn has_member(machine: &Machine<'_>, base: Value, name: &Text) -> bool
    requires first { first_count ≤ length machine.now.objects }
    requires base { FitsValue (sizes machine.now) base }
    ensures { result ≡ has_member name.now (content machine.now.texts base) (plain_objects machine.now) }
{
    has_own(machine, base, name) || is_found(machine, base, name)
}
