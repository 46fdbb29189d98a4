// What is done with the properties of an array.
ghost use Rattle.std.specs.Prelude.{◌≡◌, ◌<◌, ◌+◌, ◌^◌, OnErr, IfOk, max, if◌then◌else◌};
ghost use Rattle.std.specs.Option.{option_map_or};
ghost use Rattle.njs_props.specs.Names.{length_name, index_of};
ghost use Rattle.njs_meaning.specs.Arrays as spec;
ghost use Rattle.njs_meaning.specs.Arrays.{array_length, least_length, with_length, put_element};
ghost use Rattle.njs_clone.specs.Content.{stored, written};
ghost use Rattle.njs_clone.specs.Gives.{Leaves};

use crate::properties::{flags_of, put_value};
use njs_props::{PropMap, array_index};
use njs_text::{NoMemory, Text};
use njs_value::{Cause, Flags, Value};
use std::alloc::Global;

// The name `length`. It takes no memory.
pub(crate) fn length_text() -> Text
    ensures { result ≡ length_name }
{
    Text::fixed("length")
}

// The length of an array that has this value as its `length`.
fn stored_length(value: Value) -> u32
    ensures { result ≡ stored value }
{
    match value {
        Value::Num(number) => u32::try_from(number).unwrap_or(0),
        _ => 0,
    }
}

// The length of an array.
pub(crate) fn length_in(props: &PropMap<Value>) -> u32
    ensures { result ≡ array_length stored written props.now }
{
    match props.get(&length_text()) {
        None => 0,
        Some((value, _)) => stored_length(*value),
    }
}

// Whether the length of an array can't be written.
pub(crate) fn has_fixed_length(props: &PropMap<Value>) -> bool
    ensures { result ≡ spec.has_fixed_length props.now }
{
    match flags_of(props, &length_text()) {
        None => false,
        Some(flags) => !flags.writable,
    }
}

// One past the last element at or past a length that can't be deleted, else that length.
fn shortest(props: &PropMap<Value>, length: u32) -> u64
    ensures least { result ≡ least_length length props.now }
    ensures small { result < 2 ^ 33 }
{
    let mut least = u64::from(length);
    for place in 0..props.len() {
        let (name, _, flags) = props.at(place).unwrap();
        least = raised(least, name, flags);
    }
    least
}

// The least length so far, raised past one more element that can't be deleted.
fn raised(least: u64, name: &Text, flags: Flags) -> u64
    ensures value { result ≡ (if flags.configurable then least else max least (option_map_or (λ i. i + 1) (index_of name.now) 0)) }
    ensures small { least < 2 ^ 33 → result < 2 ^ 33 }
{
    if flags.configurable {
        least
    } else {
        least.max(element_end(name))
    }
}

// One past an array index, and 0 for any other name.
fn element_end(name: &Text) -> u64
    ensures end { result ≡ option_map_or (λ i. i + 1) (index_of name.now) 0 }
    ensures small { result < 2 ^ 33 }
{
    match array_index(name) {
        None => 0,
        Some(index) => u64::from(index) + 1,
    }
}

// Sets the length of an array, as far as its elements can be deleted.
pub(crate) fn set_length(props: &mut PropMap<Value>, length: u32) -> Option<Cause>
    ensures { Leaves (with_length stored written length props.old) props.new result }
{
    let least = shortest(props, length);
    props.keep_below(least);
    props.set_value(&length_text(), Value::Num(least as i64));
    if least != u64::from(length) {
        return Some(Cause::NotConfigurable);
    }
    None
}

// Makes an array as long as it must be to have an index.
pub(crate) fn lengthen(props: &mut PropMap<Value>, index: u32)
    ensures { props.new ≡ spec.lengthened stored written index props.old }
{
    props.set_value(&length_text(), Value::Num(i64::from(index) + 1));
}

// Puts an element into an array.
fn put_at(
    alloc: Global,
    props: &mut PropMap<Value>,
    name: &Text,
    index: u32,
    value: Value,
) -> Result<Option<Cause>, NoMemory>
    ensures ok { IfOk result (Leaves (put_element stored written name.now index value props.old) props.new) }
    ensures err { OnErr result (props.new ≡ props.old) }
{
    if index < length_in(props) {
        put_value(alloc, props, name, value)?;
        return Ok(None);
    }
    if has_fixed_length(props) {
        return Ok(Some(Cause::ReadOnly));
    }
    put_value(alloc, props, name, value)?;
    lengthen(props, index);
    Ok(None)
}

// Puts a value into an array, which gives it this length or none.
pub(crate) fn put_in_array(
    alloc: Global,
    props: &mut PropMap<Value>,
    length: Option<u32>,
    name: &Text,
    value: Value,
) -> Result<Option<Cause>, NoMemory>
    ensures ok { IfOk result (Leaves (spec.put_in_array stored written length name.now value props.old) props.new) }
    ensures err { OnErr result (props.new ≡ props.old) }
{
    if *name == length_text() {
        return match length {
            None => Ok(Some(Cause::BadLength)),
            Some(length) => Ok(set_length(props, length)),
        };
    }
    match array_index(name) {
        None => {
            put_value(alloc, props, name, value)?;
            Ok(None)
        }
        Some(index) => put_at(alloc, props, name, index, value),
    }
}
