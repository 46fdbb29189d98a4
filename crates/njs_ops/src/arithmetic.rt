// Operators on numbers (ECMA-262 5.1 §11.5 to §11.7, §11.10). Both values are made numbers before anything else is tested.
ghost use Rattle.std.specs.Prelude.{◌≡◌, ◌-◌, ◌^◌, Ok, None, Some, ◌+ℤ◌, ◌-ℤ◌, ◌*ℤ◌, neg_ℤ, bit_and, bit_or, bit_xor, IfOk, MatchResult};
ghost use Rattle.njs_value.specs.Number.{IsSafe};
ghost use Rattle.njs_value.specs.declared.Cause.TheVariants.{NotNumber};
ghost use Rattle.njs_meaning.specs.Primitives.{Number, IsSafeValue};
ghost use Rattle.njs_meaning.specs.Numbers.{number_of, unsigned_32, signed};
ghost use Rattle.njs_meaning.specs.Operators.{numbers_of, safe, on_number, on_numbers, on_bits, quotient, remainder, shifted_left, shifted_right, shifted_right_unsigned};
ghost use Rattle.njs_ops.specs.Values.{operand, given, Answers, IsSafeResult};

use crate::conversion::{number_of, numbers_of};
use crate::{OpValue, Prim};
use njs_meaning::{signed_32, unsigned_32};
use njs_value::{Cause, MAX_SAFE};

fn numbers(left: Prim<'_>, right: Prim<'_>) -> Result<(i64, i64), Cause>
    requires left { IsSafeValue (operand left) }
    requires right { IsSafeValue (operand right) }
    ensures numbers { MatchResult result (λ pair. numbers_of (operand left.entry) (operand right.entry) ≡ Some pair) (λ cause. (cause ≡ NotNumber) × (numbers_of (operand left.entry) (operand right.entry) ≡ None)) }
    ensures safe { IfOk result (λ pair. IsSafe pair.0 × IsSafe pair.1) }
{
    match numbers_of(left, right) {
        Some(pair) => Ok(pair),
        None => Err(Cause::NotNumber),
    }
}

fn number(value: Prim<'_>) -> Result<i64, Cause>
    requires { IsSafeValue (operand value) }
    ensures number { MatchResult result (λ number. number_of (operand value.entry) ≡ Some number) (λ cause. (cause ≡ NotNumber) × (number_of (operand value.entry) ≡ None)) }
    ensures safe { IfOk result IsSafe }
{
    match number_of(value) {
        Some(number) => Ok(number),
        None => Err(Cause::NotNumber),
    }
}

fn safe(number: i64) -> Result<OpValue, Cause>
    ensures answers { Answers (safe number) result }
    ensures safe { IsSafeResult result }
{
    if (-MAX_SAFE..=MAX_SAFE).contains(&number) {
        Ok(OpValue::Num(number))
    } else {
        Err(Cause::OutOfRange)
    }
}

fn sum(first: i64, second: i64) -> Result<OpValue, Cause>
    requires first { IsSafe first }
    requires second { IsSafe second }
    ensures answers { Answers (safe (first +ℤ second)) result }
    ensures safe { IsSafeResult result }
{
    safe(first + second)
}

fn difference(first: i64, second: i64) -> Result<OpValue, Cause>
    requires first { IsSafe first }
    requires second { IsSafe second }
    ensures answers { Answers (safe (first -ℤ second)) result }
    ensures safe { IsSafeResult result }
{
    safe(first - second)
}

fn quotient(first: i64, second: i64) -> Result<OpValue, Cause>
    requires first { IsSafe first }
    requires second { IsSafe second }
    ensures answers { Answers (quotient first second) result }
    ensures safe { IsSafeResult result }
{
    if second == 0 {
        return Err(Cause::DivideByZero);
    }
    if first % second != 0 {
        return Err(Cause::Fraction);
    }
    Ok(OpValue::Num(first / second))
}

fn remainder_of(first: i64, second: i64) -> Result<OpValue, Cause>
    requires first { IsSafe first }
    requires second { IsSafe second }
    ensures answers { Answers (remainder first second) result }
    ensures safe { IsSafeResult result }
{
    if second == 0 {
        return Err(Cause::DivideByZero);
    }
    Ok(OpValue::Num(first % second))
}

// The signed number with these bits.
fn signed(bits: u32) -> OpValue
    ensures signed { given result ≡ Number (signed bits) }
    ensures safe { IsSafeValue (given result) }
{
    OpValue::Num(i64::from(bits.cast_signed()))
}

/// `+`, where no value is a text (§11.6.1).
pub fn add(left: Prim<'_>, right: Prim<'_>) -> Result<OpValue, Cause>
    requires left { IsSafeValue (operand left) }
    requires right { IsSafeValue (operand right) }
    ensures answers { Answers (on_numbers (λ a b. safe (a +ℤ b)) (operand left.entry) (operand right.entry)) result }
    ensures safe { IsSafeResult result }
{
    let (first, second) = numbers(left, right)?;
    sum(first, second)
}

/// `-` (§11.6.2).
pub fn subtract(left: Prim<'_>, right: Prim<'_>) -> Result<OpValue, Cause>
    requires left { IsSafeValue (operand left) }
    requires right { IsSafeValue (operand right) }
    ensures answers { Answers (on_numbers (λ a b. safe (a -ℤ b)) (operand left.entry) (operand right.entry)) result }
    ensures safe { IsSafeResult result }
{
    let (first, second) = numbers(left, right)?;
    difference(first, second)
}

/// `*` (§11.5.1).
pub fn multiply(left: Prim<'_>, right: Prim<'_>) -> Result<OpValue, Cause>
    requires left { IsSafeValue (operand left) }
    requires right { IsSafeValue (operand right) }
    ensures answers { Answers (on_numbers (λ a b. safe (a *ℤ b)) (operand left.entry) (operand right.entry)) result }
    ensures safe { IsSafeResult result }
{
    let (first, second) = numbers(left, right)?;
    match first.checked_mul(second) {
        Some(product) => safe(product),
        None => Err(Cause::OutOfRange),
    }
}

/// `/` (§11.5.2).
pub fn divide(left: Prim<'_>, right: Prim<'_>) -> Result<OpValue, Cause>
    requires left { IsSafeValue (operand left) }
    requires right { IsSafeValue (operand right) }
    ensures answers { Answers (on_numbers quotient (operand left.entry) (operand right.entry)) result }
    ensures safe { IsSafeResult result }
{
    let (first, second) = numbers(left, right)?;
    quotient(first, second)
}

/// `%` (§11.5.3).
pub fn remainder(left: Prim<'_>, right: Prim<'_>) -> Result<OpValue, Cause>
    requires left { IsSafeValue (operand left) }
    requires right { IsSafeValue (operand right) }
    ensures answers { Answers (on_numbers remainder (operand left.entry) (operand right.entry)) result }
    ensures safe { IsSafeResult result }
{
    let (first, second) = numbers(left, right)?;
    remainder_of(first, second)
}

/// `&` (§11.10).
pub fn bit_and(left: Prim<'_>, right: Prim<'_>) -> Result<OpValue, Cause>
    requires left { IsSafeValue (operand left) }
    requires right { IsSafeValue (operand right) }
    ensures answers { Answers (on_numbers (on_bits bit_and) (operand left.entry) (operand right.entry)) result }
    ensures safe { IsSafeResult result }
{
    let (first, second) = numbers(left, right)?;
    Ok(signed(unsigned_32(first) & unsigned_32(second)))
}

/// `^` (§11.10).
pub fn bit_xor(left: Prim<'_>, right: Prim<'_>) -> Result<OpValue, Cause>
    requires left { IsSafeValue (operand left) }
    requires right { IsSafeValue (operand right) }
    ensures answers { Answers (on_numbers (on_bits bit_xor) (operand left.entry) (operand right.entry)) result }
    ensures safe { IsSafeResult result }
{
    let (first, second) = numbers(left, right)?;
    Ok(signed(unsigned_32(first) ^ unsigned_32(second)))
}

/// `|` (§11.10).
pub fn bit_or(left: Prim<'_>, right: Prim<'_>) -> Result<OpValue, Cause>
    requires left { IsSafeValue (operand left) }
    requires right { IsSafeValue (operand right) }
    ensures answers { Answers (on_numbers (on_bits bit_or) (operand left.entry) (operand right.entry)) result }
    ensures safe { IsSafeResult result }
{
    let (first, second) = numbers(left, right)?;
    Ok(signed(unsigned_32(first) | unsigned_32(second)))
}

/// `<<` (§11.7.1).
pub fn shift_left(left: Prim<'_>, right: Prim<'_>) -> Result<OpValue, Cause>
    requires left { IsSafeValue (operand left) }
    requires right { IsSafeValue (operand right) }
    ensures answers { Answers (on_numbers (λ a b. Ok (Number (shifted_left a b))) (operand left.entry) (operand right.entry)) result }
    ensures safe { IsSafeResult result }
{
    let (first, second) = numbers(left, right)?;
    Ok(signed(unsigned_32(first).wrapping_shl(unsigned_32(second))))
}

/// `>>` (§11.7.2).
pub fn shift_right(left: Prim<'_>, right: Prim<'_>) -> Result<OpValue, Cause>
    requires left { IsSafeValue (operand left) }
    requires right { IsSafeValue (operand right) }
    ensures answers { Answers (on_numbers (λ a b. Ok (Number (shifted_right a b))) (operand left.entry) (operand right.entry)) result }
    ensures safe { IsSafeResult result }
{
    let (first, second) = numbers(left, right)?;
    let shifted = signed_32(first).wrapping_shr(unsigned_32(second));
    Ok(OpValue::Num(i64::from(shifted)))
}

/// `>>>` (§11.7.3).
pub fn shift_right_unsigned(left: Prim<'_>, right: Prim<'_>) -> Result<OpValue, Cause>
    requires left { IsSafeValue (operand left) }
    requires right { IsSafeValue (operand right) }
    ensures answers { Answers (on_numbers (λ a b. Ok (Number (shifted_right_unsigned a b))) (operand left.entry) (operand right.entry)) result }
    ensures safe { IsSafeResult result }
{
    let (first, second) = numbers(left, right)?;
    let shifted = unsigned_32(first).wrapping_shr(unsigned_32(second));
    Ok(OpValue::Num(i64::from(shifted)))
}

/// `+` before a value (§11.4.6).
pub fn plus(value: Prim<'_>) -> Result<OpValue, Cause>
    requires { IsSafeValue (operand value) }
    ensures answers { Answers (on_number (λ n. Ok (Number n)) (operand value.entry)) result }
    ensures safe { IsSafeResult result }
{
    let number = number(value)?;
    Ok(OpValue::Num(number))
}

/// `-` before a value (§11.4.7).
pub fn minus(value: Prim<'_>) -> Result<OpValue, Cause>
    requires { IsSafeValue (operand value) }
    ensures answers { Answers (on_number (λ n. Ok (Number (neg_ℤ n))) (operand value.entry)) result }
    ensures safe { IsSafeResult result }
{
    let number = number(value)?;
    Ok(OpValue::Num(-number))
}

/// `~` (§11.4.8).
pub fn bit_not(value: Prim<'_>) -> Result<OpValue, Cause>
    requires { IsSafeValue (operand value) }
    ensures answers { Answers (on_number (λ n. Ok (Number (signed (2 ^ 32 - 1 - unsigned_32 n)))) (operand value.entry)) result }
    ensures safe { IsSafeResult result }
{
    let number = number(value)?;
    Ok(signed(!unsigned_32(number)))
}
