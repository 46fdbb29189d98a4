// What operands stand for as truth values, numbers and texts (ECMA-262 5.1 §9).
ghost use Rattle.std.specs.Prelude.{◌≡◌, IfSome, IfOk};
ghost use Rattle.std.specs.Fmt.{signed_decimal};
ghost use Rattle.njs_value.specs.Number.{IsSafe};
ghost use Rattle.njs_meaning.specs.Primitives.{IsSafeValue};
ghost use Rattle.njs_meaning.specs.Numbers.{boolean_of, number_of, text_of};
ghost use Rattle.njs_meaning.specs.Operators.{numbers_of, is_text, type_name};
ghost use Rattle.njs_ops.specs.Values.{operand};

use crate::Prim;
use njs_meaning::number_of_text;
use njs_text::{NoMemory, Text, TextFault};
use std::alloc::Global;

pub fn boolean_of(value: Prim<'_>) -> bool
    ensures { result ≡ boolean_of (operand value.entry) }
{
    match value {
        Prim::Undefined | Prim::Null => false,
        Prim::Bool(truth) => truth,
        Prim::Num(number) => number != 0,
        Prim::Str(text) => !text.is_empty(),
    }
}

pub fn number_of(value: Prim<'_>) -> Option<i64>
    requires { IsSafeValue (operand value) }
    ensures number { result ≡ number_of (operand value.entry) }
    ensures safe { IfSome result IsSafe }
{
    match value {
        Prim::Undefined => None,
        Prim::Null => Some(0),
        Prim::Bool(truth) => Some(i64::from(truth)),
        Prim::Num(number) => Some(number),
        Prim::Str(text) => number_of_text(text),
    }
}

pub fn numbers_of(left: Prim<'_>, right: Prim<'_>) -> Option<(i64, i64)>
    requires left { IsSafeValue (operand left) }
    requires right { IsSafeValue (operand right) }
    ensures numbers { result ≡ numbers_of (operand left.entry) (operand right.entry) }
    ensures safe { IfSome result (λ pair. IsSafe pair.0 × IsSafe pair.1) }
{
    let first = number_of(left)?;
    let second = number_of(right)?;
    Some((first, second))
}

fn decimal(alloc: Global, number: i64) -> Result<Text, NoMemory>
    ensures { IfOk result (λ text. text ≡ signed_decimal number) }
{
    let digits = number.to_string(alloc)?;
    match Text::from_utf8(alloc, digits.as_bytes()) {
        Ok(text) => Ok(text),
        Err(TextFault::NoMemory) => Err(NoMemory),
        Err(TextFault::NotUtf8(_)) => unreachable!(),
        Err(TextFault::TooLong) => unreachable!(),
    }
}

/// ToString (§9.8) of a value that is no object. The text of a text is copied, and only a number's is made anew.
pub fn text_of(alloc: Global, value: Prim<'_>) -> Result<Text, NoMemory>
    ensures { IfOk result (λ text. text ≡ text_of (operand value.entry)) }
{
    match value {
        Prim::Undefined => Ok(Text::fixed("undefined")),
        Prim::Null => Ok(Text::fixed("null")),
        Prim::Bool(true) => Ok(Text::fixed("true")),
        Prim::Bool(false) => Ok(Text::fixed("false")),
        Prim::Num(number) => decimal(alloc, number),
        Prim::Str(text) => text.copy(alloc),
    }
}

pub fn is_text(value: Prim<'_>) -> bool
    ensures { result ≡ is_text (operand value.entry) }
{
    matches!(value, Prim::Str(_))
}

/// `typeof` (§11.4.3).
pub fn type_name(value: Prim<'_>) -> Text
    ensures { result ≡ type_name (operand value.entry) }
{
    match value {
        Prim::Undefined => Text::fixed("undefined"),
        Prim::Null => Text::fixed("object"),
        Prim::Bool(_) => Text::fixed("boolean"),
        Prim::Num(_) => Text::fixed("number"),
        Prim::Str(_) => Text::fixed("string"),
    }
}
