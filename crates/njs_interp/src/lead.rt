// Endings that lead out of a part of the code (ECMA-262 5.1 §8.9, §12.6 to §12.14).
ghost use Rattle.std.specs.Prelude.{◌≡◌, ℕ, ◌≤◌, length, IfOk, OnOk};
ghost use Rattle.njs_shared.specs.Heap.{Heap, sizes};
ghost use Rattle.njs_code.specs.Effects.{depth_left};
ghost use Rattle.njs_code.specs.Facts.{PartRule, StandsAt};
ghost use Rattle.njs_interp.specs.Sits.{Sits, FitsEnding};
ghost use Rattle.njs_interp.specs.Leading.{place_by, IsCut, TakenUp, FoundThere, Outward, Led, LeavesLed, Further};

use crate::taking::{Taking, taken_up};
use crate::{At, Ending, Stacks};
use njs_code::{Depth, FunctionCode, Op};
use njs_text::NoMemory;

/// An operation that takes up an ending, its place, which counts from the end, and how it does.
#[derive(Clone, Copy)]
pub(crate) struct Found<'a> {
    pub op: &'a Op,
    pub place: usize,
    pub way: Taking,
}

/// The operation at a place.
pub(crate) fn op_at<'a>(function: &'a FunctionCode, place: usize) -> &'a Op
    requires some { 1 ≤ place }
    requires within { place ≤ length function.now.ops }
    ensures { StandsAt function.now.ops place result.now }
{
    let ops = function.ops.as_slice();
    &ops[ops.len() - place]
}

// Keeps so much as stands at a depth.
fn cut_to(stacks: &mut Stacks<'_>, depth: &Depth)
    ensures { IsCut depth.now stacks.old stacks.new }
{
    stacks.operands.cut(depth.operands as usize);
    stacks.scopes.cut(depth.scopes as usize);
    stacks.lists.truncate(depth.lists as usize);
    stacks.endings.cut(depth.endings as usize);
}

// Takes up an ending, and says where the code goes on.
fn take_up<'a>(
    found: &Found<'a>,
    ending: Ending<'a>,
    stacks: &mut Stacks<'a>,
) -> Result<usize, NoMemory>
    requires { 1 ≤ found.now.place }
    ensures place { IfOk result (λ to. to ≡ place_by found.now.place found.now.way) }
    ensures taken { OnOk result (TakenUp found.now.way ending.entry found.now.op.now.depth stacks.old stacks.new) }
{
    cut_to(stacks, &found.op.depth);
    match found.way {
        Taking::Past(past) => Ok(past.0 as usize),
        Taking::Behind => Ok(found.place - 1),
        Taking::Catches(v) => {
            stacks.operands.push(v)?;
            Ok(found.place - 1)
        }
        Taking::Waits => {
            stacks.endings.push(ending)?;
            Ok(found.place - 1)
        }
    }
}

// The operation that takes up an ending which leads out of the part around an operation.
fn outward<'a>(at: &At<'a>, place: usize, ending: Ending<'a>) -> Option<Found<'a>>
    requires part { PartRule at.now.functions.now at.now.function.now }
    requires place { StandsAt at.now.function.now.ops place at.now.op.now }
    ensures told { Outward at.now.function.now.ops at.now.op.now.around ending.entry result }
    ensures there { FoundThere at.now.function.now place (depth_left at.now.op.now.kind at.now.op.now.depth) ending.entry result }
{
    let mut around = at.op.around;
    loop {
        let Some(to) = around else {
            return None;
        };
        let end = to.0 as usize;
        let op = op_at(at.function, end);
        match taken_up(&op.kind, ending) {
            Some(way) => {
                return Some(Found {
                    op,
                    place: end,
                    way,
                });
            }
            None => around = op.around,
        }
    }
}

/// Leads an ending out of the part of the code around an operation: to the place where the code goes on, which counts from the
/// end, or out of the function.
pub(crate) fn lead<'a>(
    at: &At<'a>,
    place: usize,
    ending: Ending<'a>,
    stacks: &mut Stacks<'a>,
) -> Result<Option<usize>, NoMemory>
    requires part { PartRule at.now.functions.now at.now.function.now }
    requires place { StandsAt at.now.function.now.ops place at.now.op.now }
    requires operands { (depth_left at.now.op.now.kind at.now.op.now.depth).operands ≤ length stacks.old.operands }
    ensures led { Led at.now.function.now.ops at.now.op.now.around ending.entry stacks.old stacks.new result }
    ensures leaves { (h : Heap) → Sits h at.now.function.now.slots (depth_left at.now.op.now.kind at.now.op.now.depth) stacks.old → FitsEnding (sizes h) ending.entry → LeavesLed at.now.function.now h stacks.new result }
    ensures further { Further place result }
{
    match outward(at, place, ending) {
        None => Ok(None),
        Some(found) => match take_up(&found, ending, stacks) {
            Ok(to) => Ok(Some(to)),
            Err(refused) => Err(refused),
        },
    }
}
