// Whether code may run.
ghost use Rattle.std.specs.Prelude.{◌≡◌, if◌then◌else◌, slice_get};
ghost use Rattle.std.specs.List.{list_all};
ghost use Rattle.njs_code.specs.Valid.{at_entry, same_depth, begins, params_fit, ops_valid, part_valid, function_valid, body_valid, is_valid};

use crate::place::op_valid;
use crate::valid::ValidCode;
use crate::{Code, Depth, FunctionCode, Op};

fn is_entry(depth: &Depth) -> bool
    ensures { result ≡ same_depth depth.now at_entry }
{
    depth.operands == 0 && depth.scopes == 1 && depth.lists == 0 && depth.endings == 0
}

fn begins(ops: &[Op]) -> bool
    ensures { result ≡ begins ops.now }
{
    match ops {
        [] => false,
        [op, ..] => is_entry(&op.depth),
    }
}

fn params_fit(params: u32, slots: &[u32]) -> bool
    ensures { result ≡ params_fit params (slice_get slots.now 0) }
{
    match slots {
        [] => false,
        [own, ..] => params <= *own,
    }
}

#[tactic(auto, using(crate::proofs::Ops::ops_all))]
fn ops_valid(functions: &[FunctionCode], f: &FunctionCode, ops: &[Op]) -> bool
    ensures { result ≡ ops_valid functions.now f.now ops.now }
{
    for i in 0..ops.len() {
        if !op_valid(functions, f, ops.len() - i, &ops[i]) {
            return false;
        }
    }
    true
}

#[tactic(auto, unfolding(crate::specs::Valid::part_valid))]
fn part_valid(functions: &[FunctionCode], f: &FunctionCode) -> bool
    ensures { result ≡ part_valid functions.now f.now }
{
    let ops = f.ops.as_slice();
    params_fit(f.params, f.slots.as_slice()) && begins(ops) && ops_valid(functions, f, ops)
}

fn function_valid(functions: &[FunctionCode], f: &FunctionCode) -> bool
    ensures { result ≡ function_valid functions.now f.now }
{
    2 <= f.slots.len() && part_valid(functions, f)
}

fn body_valid(functions: &[FunctionCode], body: &FunctionCode) -> bool
    ensures { result ≡ body_valid functions.now body.now }
{
    body.slots.len() == 2 && part_valid(functions, body)
}

fn functions_valid(functions: &[FunctionCode]) -> bool
    ensures { result ≡ list_all (function_valid functions.now) functions.now }
{
    functions.iter().all(|f| function_valid(functions, f))
}

#[tactic(auto, unfolding(crate::specs::Valid::is_valid))]
fn is_valid(code: &Code) -> bool
    ensures { result ≡ is_valid code.now }
{
    let functions = code.functions.as_slice();
    body_valid(functions, &code.body) && functions_valid(functions)
}

/// The code, where it keeps the rule by which it never meets a missing operand, slot or operation, and else none.
pub fn validate(code: Code) -> Option<ValidCode>
    ensures { result ≡ (if is_valid code then Some code else None) }
{
    if is_valid(&code) {
        return Some(ValidCode::new(code));
    }
    None
}
