// Whether an operation may stand at its place in a function: what it names is there, and so is where it goes on.
ghost use Rattle.std.specs.Prelude.{◌≡◌, nat_lt, length, slice_get};
ghost use Rattle.std.specs.Option.{option_copied};
ghost use Rattle.njs_code.specs.Effects.{depth_left, depth_next, depth_at_jump};
ghost use Rattle.njs_code.specs.Valid.{op_at, carries, is_charge, charges, ends_part, next_valid, jump_valid, past_valid, around_valid, names_valid, is_safe, op_valid};

use crate::depth::{holds, is_at_jump, is_covered, is_next, same_depth};
use crate::effects::{goes_on, is_ending, jump_of, past_of};
use crate::slots::{is_outermost_slot, is_slot, stands_in};
use crate::{Address, FunctionCode, Kind, Op};
use njs_value::MAX_SAFE;

/// The operation at an address, which counts from the end.
pub fn op_at(ops: &[Op], at: usize) -> Option<&Op>
    ensures { option_copied result ≡ op_at ops.now at }
{
    if ops.len() < at {
        return None;
    }
    ops.get(ops.len() - at)
}

fn next_valid(ops: &[Op], at: usize, op: &Op) -> bool
    ensures { result ≡ next_valid ops.now at op.now }
{
    if !goes_on(&op.kind) {
        return true;
    }
    match op_at(ops, at.saturating_sub(1)) {
        None => false,
        Some(next) => is_next(&next.depth, &op.kind, &op.depth),
    }
}

#[tactic(auto, unfolding(crate::specs::Valid::is_charge))]
fn is_charge(kind: &Kind) -> bool
    ensures { result ≡ is_charge kind.now }
{
    matches!(kind, Kind::Charge)
}

fn jump_valid(ops: &[Op], at: usize, op: &Op, jump: Option<Address>) -> bool
    ensures { result ≡ jump_valid ops.now at op.now jump }
{
    match jump {
        None => true,
        Some(Address(to)) => match op_at(ops, to as usize) {
            None => false,
            Some(target) => {
                is_at_jump(&target.depth, &op.kind, &op.depth)
                    && ((to as usize) < at || is_charge(&target.kind))
            }
        },
    }
}

fn past_valid(ops: &[Op], at: usize, op: &Op, past: Option<Address>) -> bool
    ensures { result ≡ past_valid ops.now at op.now past }
{
    match past {
        None => true,
        Some(Address(to)) => match op_at(ops, to as usize) {
            None => false,
            Some(target) => (to as usize) < at && same_depth(&target.depth, &op.depth),
        },
    }
}

fn around_valid(ops: &[Op], at: usize, op: &Op, around: Option<Address>) -> bool
    ensures { result ≡ around_valid ops.now at op.now around }
{
    match around {
        None => true,
        Some(Address(to)) => match op_at(ops, to as usize) {
            None => false,
            Some(end) => {
                (to as usize) < at
                    && is_ending(&end.kind)
                    && is_covered(&end.depth, &op.kind, &op.depth)
            }
        },
    }
}

fn is_safe(number: i64) -> bool
    ensures { result ≡ is_safe number }
{
    -MAX_SAFE <= number && number <= MAX_SAFE
}

#[tactic(auto, unfolding(crate::specs::Valid::names_valid))]
fn names_valid(functions: &[FunctionCode], slots: &[u32], scopes: u32, kind: &Kind) -> bool
    ensures { result ≡ names_valid functions.now slots.now scopes kind.now }
{
    match kind {
        Kind::Num(number) => is_safe(*number),
        Kind::Load { up, slot } | Kind::Store { up, slot } => is_slot(slots, scopes, *up, *slot),
        Kind::LoadGlobal(slot) | Kind::StoreGlobal(slot) => is_outermost_slot(slots, *slot),
        Kind::Closure { number, name, .. } => {
            stands_in(functions.get(*number as usize), scopes, slots, name)
        }
        _ => true,
    }
}

/// Whether an operation may stand at an address of a function.
#[tactic(auto, unfolding(crate::specs::Valid::op_valid))]
pub fn op_valid(functions: &[FunctionCode], f: &FunctionCode, at: usize, op: &Op) -> bool
    ensures { result ≡ op_valid functions.now f.now at op.now }
{
    let ops = f.ops.as_slice();
    holds(&op.kind, &op.depth)
        && names_valid(functions, f.slots.as_slice(), op.depth.scopes, &op.kind)
        && next_valid(ops, at, op)
        && jump_valid(ops, at, op, jump_of(&op.kind))
        && past_valid(ops, at, op, past_of(&op.kind))
        && around_valid(ops, at, op, op.around)
}
