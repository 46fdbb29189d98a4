// Relations and equality (ECMA-262 5.1 §11.8, §11.9).
ghost use Rattle.std.specs.Prelude.{◌≡◌, Ok, false};
ghost use Rattle.std.specs.Option.{option_map_or};
ghost use Rattle.std.specs.Ordering.{is_lt, is_gt, is_le, is_ge};
ghost use Rattle.njs_meaning.specs.Primitives.{IsSafeValue};
ghost use Rattle.njs_meaning.specs.Operators.{order_of, relation, is_identical, is_nothing, has_same_number, is_equal};
ghost use Rattle.njs_ops.specs.Values.{operand};

use crate::Prim;
use crate::conversion::numbers_of;
use std::cmp::Ordering;

pub fn order_of(left: Prim<'_>, right: Prim<'_>) -> Option<Ordering>
    requires left { IsSafeValue (operand left) }
    requires right { IsSafeValue (operand right) }
    ensures { result ≡ order_of (operand left.entry) (operand right.entry) }
{
    if let (Prim::Str(first), Prim::Str(second)) = (left, right) {
        return Some(first.compare(second));
    }
    let (first, second) = numbers_of(left, right)?;
    Some(first.cmp(&second))
}

pub fn is_identical(left: Prim<'_>, right: Prim<'_>) -> bool
    ensures { result ≡ is_identical (operand left.entry) (operand right.entry) }
{
    match (left, right) {
        (Prim::Undefined, Prim::Undefined) | (Prim::Null, Prim::Null) => true,
        (Prim::Bool(first), Prim::Bool(second)) => first == second,
        (Prim::Num(first), Prim::Num(second)) => first == second,
        (Prim::Str(first), Prim::Str(second)) => first == second,
        _ => false,
    }
}

fn is_nothing(value: Prim<'_>) -> bool
    ensures { result ≡ is_nothing (operand value.entry) }
{
    matches!(value, Prim::Undefined | Prim::Null)
}

fn has_same_number(left: Prim<'_>, right: Prim<'_>) -> bool
    requires left { IsSafeValue (operand left) }
    requires right { IsSafeValue (operand right) }
    ensures { result ≡ has_same_number (operand left.entry) (operand right.entry) }
{
    match numbers_of(left, right) {
        Some((first, second)) => first == second,
        None => false,
    }
}

pub fn is_equal(left: Prim<'_>, right: Prim<'_>) -> bool
    requires left { IsSafeValue (operand left) }
    requires right { IsSafeValue (operand right) }
    ensures { result ≡ is_equal (operand left.entry) (operand right.entry) }
{
    if let (Prim::Str(first), Prim::Str(second)) = (left, right) {
        return first == second;
    }
    if is_nothing(left) || is_nothing(right) {
        return is_nothing(left) && is_nothing(right);
    }
    has_same_number(left, right)
}

/// `<` (§11.8).
pub fn is_less(left: Prim<'_>, right: Prim<'_>) -> bool
    requires left { IsSafeValue (operand left) }
    requires right { IsSafeValue (operand right) }
    ensures { result ≡ option_map_or is_lt (order_of (operand left.entry) (operand right.entry)) false }
{
    match order_of(left, right) {
        Some(order) => order.is_lt(),
        None => false,
    }
}

/// `>` (§11.8).
pub fn is_greater(left: Prim<'_>, right: Prim<'_>) -> bool
    requires left { IsSafeValue (operand left) }
    requires right { IsSafeValue (operand right) }
    ensures { result ≡ option_map_or is_gt (order_of (operand left.entry) (operand right.entry)) false }
{
    match order_of(left, right) {
        Some(order) => order.is_gt(),
        None => false,
    }
}

/// `<=` (§11.8).
pub fn is_at_most(left: Prim<'_>, right: Prim<'_>) -> bool
    requires left { IsSafeValue (operand left) }
    requires right { IsSafeValue (operand right) }
    ensures { result ≡ option_map_or is_le (order_of (operand left.entry) (operand right.entry)) false }
{
    match order_of(left, right) {
        Some(order) => order.is_le(),
        None => false,
    }
}

/// `>=` (§11.8).
pub fn is_at_least(left: Prim<'_>, right: Prim<'_>) -> bool
    requires left { IsSafeValue (operand left) }
    requires right { IsSafeValue (operand right) }
    ensures { result ≡ option_map_or is_ge (order_of (operand left.entry) (operand right.entry)) false }
{
    match order_of(left, right) {
        Some(order) => order.is_ge(),
        None => false,
    }
}
