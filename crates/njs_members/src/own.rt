// What a value that is no object has itself: of a text its length and its characters (ECMA-262 5.1 §15.5.5).
ghost use Rattle.std.specs.Prelude.{◌≡◌, ◌≤◌, ◌<◌, ◌∷◌, [], length, is_some, IfOk, OnErr};
ghost use Rattle.std.specs.List.{list_any};
ghost use Rattle.std.specs.Option.{option_map};
ghost use Rattle.njs_props.specs.Names.{length_name, same_name};
ghost use Rattle.njs_shared.specs.Heap.{sizes};
ghost use Rattle.njs_shared.specs.Fits.{FitsValue};
ghost use Rattle.njs_clone.specs.Content.{content};
ghost use Rattle.njs_meaning.specs.Members.{text_member};
ghost use Rattle.njs_members.specs.Listed.{own_names_of};
ghost use Rattle.njs_members.specs.Own.{member_value, own_of, IsShort};
ghost use Rattle.njs_members.specs.Gains.{GainsTexts};

use njs_clone::Machine;
use njs_props::array_index;
use njs_text::{NoMemory, Text, TextFault};
use njs_value::Value;
use std::alloc::Global;

// A member of a text: its length, or one of its characters.
#[derive(Clone, Copy)]
pub(crate) enum TextMember {
    Length(u32),
    Character(char),
}

fn length_text() -> Text
    ensures { result ≡ length_name }
{
    Text::fixed("length")
}

fn is_length(name: &Text) -> bool
    ensures { result ≡ same_name name.now length_name }
{
    *name == length_text()
}

// The length of a text, which is at most 1,048,576.
pub(crate) fn length_of(text: &Text) -> u32
    ensures length { result ≡ length text.now }
    ensures few { length text.now ≤ 1048576 }
{
    let _bytes = text.as_bytes();
    text.len() as u32
}

// The member of a text.
fn member_of(text: &Text, name: &Text) -> Option<TextMember>
    ensures member { option_map member_value result ≡ text_member name.now text.now }
    ensures few { length text.now ≤ 1048576 }
{
    let length = length_of(text);
    if is_length(name) {
        return Some(TextMember::Length(length));
    }
    let index = array_index(name)?;
    let character = text.at(index as usize)?;
    Some(TextMember::Character(character))
}

// The member that a value has itself, where it is no object.
pub(crate) fn own(machine: &Machine<'_>, base: Value, name: &Text) -> Option<TextMember>
    requires { FitsValue (sizes machine.now) base }
    ensures member { option_map member_value result ≡ own_of name.now (content machine.now.texts base) }
    ensures short { IsShort (content machine.now.texts base) }
{
    match base {
        Value::Str(text) => member_of(machine.text(text), name),
        Value::Undefined | Value::Null | Value::Bool(_) | Value::Num(_) | Value::Obj(_) => None,
    }
}

// Whether a value that is no object has a member itself.
pub(crate) fn has_own(machine: &Machine<'_>, base: Value, name: &Text) -> bool
    requires { FitsValue (sizes machine.now) base }
    ensures own { result ≡ is_some (own_of name.now (content machine.now.texts base)) }
    ensures named { result ≡ list_any (same_name name.now) (own_names_of (content machine.now.texts base)) }
{
    own(machine, base, name).is_some()
}

fn text_of_char(alloc: Global, character: char) -> Result<Text, NoMemory>
    ensures { IfOk result (λ text. text ≡ character ∷ []) }
{
    match Text::from_chars(alloc, &[character]) {
        Ok(text) => Ok(text),
        Err(TextFault::NoMemory) => Err(NoMemory),
        Err(TextFault::NotUtf8(_)) => unreachable!(),
        Err(TextFault::TooLong) => unreachable!(),
    }
}

// Gives a character a number, as a text.
fn add_character(
    alloc: Global,
    machine: &mut Machine<'_>,
    character: char,
) -> Result<Value, NoMemory>
    ensures value { IfOk result (λ v. content machine.new.texts v ≡ member_value (TextMember.Character character)) }
    ensures fits { IfOk result (FitsValue (sizes machine.new)) }
    ensures texts { GainsTexts machine.old machine.new }
    ensures err { OnErr result (machine.new ≡ machine.old) }
{
    let _sizes = machine.sizes();
    let text = text_of_char(alloc, character)?;
    let id = machine.add_text(text)?;
    Ok(Value::Str(id))
}

// The value that a member of a text is. A character becomes a new text.
pub(crate) fn value_of(
    alloc: Global,
    machine: &mut Machine<'_>,
    member: TextMember,
) -> Result<Value, NoMemory>
    ensures value { IfOk result (λ v. content machine.new.texts v ≡ member_value member) }
    ensures fits { IfOk result (FitsValue (sizes machine.new)) }
    ensures texts { GainsTexts machine.old machine.new }
    ensures err { OnErr result (machine.new ≡ machine.old) }
{
    match member {
        TextMember::Length(length) => Ok(Value::Num(i64::from(length))),
        TextMember::Character(character) => add_character(alloc, machine, character),
    }
}
