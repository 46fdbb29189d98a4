// The tables of the operators.
ghost use Rattle.std.specs.Prelude.{◌≡◌, false};
ghost use Rattle.njs_meaning.specs.Primitives.{IsSafeValue};
ghost use Rattle.njs_meaning.specs.Numbers.{text_of};
ghost use Rattle.njs_meaning.specs.Operators.{joined, is_text, binary_of, unary_of};
ghost use Rattle.njs_ops.specs.Values.{operand, Answers, AnswersIfRoom, IsAnswered, IsSafeResult, joins};

use crate::comparison::{is_at_least, is_at_most, is_equal, is_greater, is_identical, is_less};
use crate::conversion::{boolean_of, is_text, text_of, type_name};
use crate::{OpStop, OpValue, Prim, arithmetic};
use njs_text::{Text, TextFault};
use njs_tree::{BinaryOp, UnaryOp};
use njs_value::Cause;
use std::alloc::Global;

fn joined(alloc: Global, first: &Text, second: &Text) -> Result<OpValue, OpStop>
    ensures answers { AnswersIfRoom (joined first.now second.now) result }
    ensures safe { IsSafeResult result }
{
    match first.join(alloc, second) {
        Ok(text) => Ok(OpValue::Str(text)),
        Err(TextFault::TooLong) => Err(OpStop::Throw(Cause::TextTooLong)),
        Err(_) => Err(OpStop::NoMemory),
    }
}

fn joined_to(alloc: Global, first: &Text, right: Prim<'_>) -> Result<OpValue, OpStop>
    ensures answers { AnswersIfRoom (joined first.now (text_of (operand right.entry))) result }
    ensures safe { IsSafeResult result }
{
    if let Prim::Str(second) = right {
        return joined(alloc, first, second);
    }
    match text_of(alloc, right) {
        Ok(second) => joined(alloc, first, &second),
        Err(_) => Err(OpStop::NoMemory),
    }
}

// The texts of two values, one after the other (ECMA-262 5.1 §11.6.1).
fn concatenation(alloc: Global, left: Prim<'_>, right: Prim<'_>) -> Result<OpValue, OpStop>
    ensures answers { AnswersIfRoom (joined (text_of (operand left.entry)) (text_of (operand right.entry))) result }
    ensures safe { IsSafeResult result }
{
    if let Prim::Str(first) = left {
        return joined_to(alloc, first, right);
    }
    match text_of(alloc, left) {
        Ok(first) => joined_to(alloc, &first, right),
        Err(_) => Err(OpStop::NoMemory),
    }
}

// The operators of two values, but for the joining of texts.
fn plain(op: BinaryOp, left: Prim<'_>, right: Prim<'_>) -> Result<OpValue, Cause>
    requires left { IsSafeValue (operand left) }
    requires right { IsSafeValue (operand right) }
    requires plain { joins op (operand left) (operand right) ≡ false }
    ensures answers { Answers (binary_of op (operand left.entry) (operand right.entry)) result }
    ensures safe { IsSafeResult result }
{
    match op {
        BinaryOp::BitOr => arithmetic::bit_or(left, right),
        BinaryOp::BitXor => arithmetic::bit_xor(left, right),
        BinaryOp::BitAnd => arithmetic::bit_and(left, right),
        BinaryOp::Eq => Ok(OpValue::Bool(is_equal(left, right))),
        BinaryOp::Ne => Ok(OpValue::Bool(!is_equal(left, right))),
        BinaryOp::StrictEq => Ok(OpValue::Bool(is_identical(left, right))),
        BinaryOp::StrictNe => Ok(OpValue::Bool(!is_identical(left, right))),
        BinaryOp::Lt => Ok(OpValue::Bool(is_less(left, right))),
        BinaryOp::Gt => Ok(OpValue::Bool(is_greater(left, right))),
        BinaryOp::Le => Ok(OpValue::Bool(is_at_most(left, right))),
        BinaryOp::Ge => Ok(OpValue::Bool(is_at_least(left, right))),
        BinaryOp::InstanceOf => Err(Cause::NotFunction),
        BinaryOp::In => Err(Cause::NotObject),
        BinaryOp::Shl => arithmetic::shift_left(left, right),
        BinaryOp::Shr => arithmetic::shift_right(left, right),
        BinaryOp::UShr => arithmetic::shift_right_unsigned(left, right),
        BinaryOp::Add => arithmetic::add(left, right),
        BinaryOp::Sub => arithmetic::subtract(left, right),
        BinaryOp::Mul => arithmetic::multiply(left, right),
        BinaryOp::Div => arithmetic::divide(left, right),
        BinaryOp::Rem => arithmetic::remainder(left, right),
    }
}

fn joins(op: BinaryOp, left: Prim<'_>, right: Prim<'_>) -> bool
    ensures { result ≡ joins op (operand left.entry) (operand right.entry) }
{
    match op {
        BinaryOp::Add => is_text(left) || is_text(right),
        _ => false,
    }
}

/// An operator of two values that are no objects (ECMA-262 5.1 §11.5 to §11.10). Numbers are whole: a quotient that
/// isn't is `Fraction`, and a result beyond `MAX_SAFE` is `OutOfRange`. `instanceof` and `in` throw, since no operand is
/// an object. Memory is taken where texts are joined, and nowhere else.
pub fn binary(
    alloc: Global,
    op: BinaryOp,
    left: Prim<'_>,
    right: Prim<'_>,
) -> Result<OpValue, OpStop>
    requires left { IsSafeValue (operand left) }
    requires right { IsSafeValue (operand right) }
    ensures answers { AnswersIfRoom (binary_of op (operand left.entry) (operand right.entry)) result }
    ensures safe { IsSafeResult result }
    ensures memory { joins op (operand left.entry) (operand right.entry) ≡ false → IsAnswered result }
{
    if joins(op, left, right) {
        return concatenation(alloc, left, right);
    }
    match plain(op, left, right) {
        Ok(value) => Ok(value),
        Err(cause) => Err(OpStop::Throw(cause)),
    }
}

// The operators of one value.
fn plain_unary(op: UnaryOp, value: Prim<'_>) -> Result<OpValue, Cause>
    requires { IsSafeValue (operand value) }
    ensures answers { Answers (unary_of op (operand value.entry)) result }
    ensures safe { IsSafeResult result }
{
    match op {
        UnaryOp::Delete => Ok(OpValue::Bool(true)),
        UnaryOp::Void => Ok(OpValue::Undefined),
        UnaryOp::TypeOf => Ok(OpValue::Str(type_name(value))),
        UnaryOp::Plus => arithmetic::plus(value),
        UnaryOp::Minus => arithmetic::minus(value),
        UnaryOp::BitNot => arithmetic::bit_not(value),
        UnaryOp::Not => Ok(OpValue::Bool(!boolean_of(value))),
    }
}

/// An operator of one value that is no object (ECMA-262 5.1 §11.4). `delete` is that of a value that is no member of an
/// object. No memory is taken.
pub fn unary(alloc: Global, op: UnaryOp, value: Prim<'_>) -> Result<OpValue, OpStop>
    requires { IsSafeValue (operand value) }
    ensures answers { AnswersIfRoom (unary_of op (operand value.entry)) result }
    ensures safe { IsSafeResult result }
    ensures memory { IsAnswered result }
{
    let _ = alloc;
    match plain_unary(op, value) {
        Ok(value) => Ok(value),
        Err(cause) => Err(OpStop::Throw(cause)),
    }
}
