// Operations that may go on elsewhere, by families.
ghost use Rattle.std.specs.Prelude.{◌≡◌, ◌≤◌, length};
ghost use Rattle.njs_code.specs.declared.op.Kind.TheVariants as kind;
ghost use Rattle.njs_meaning.specs.Errors.{first_count};
ghost use Rattle.njs_interp.specs.declared.families.Family.TheVariants as family;
ghost use Rattle.njs_interp.specs.Sits.{Ready};
ghost use Rattle.njs_interp.specs.Jumps.{JumpsOnHeap, LeavesNext};
ghost use Rattle.njs_interp.specs.Stepping.{GoesTo};
ghost use Rattle.njs_interp.specs.Dispatch.{family_of};

use crate::{At, More, Next, Stacks, endings, jumps, lists};
use njs_clone::Machine;
use njs_code::{Address, Kind};
use njs_convert::Stop;

// Skips names that aren't there any more: on behind where one is left, and else at the address.
fn skip_names<'a>(
    at: &At<'_>,
    machine: &Machine<'_>,
    stacks: &mut Stacks<'a>,
    to: Address,
) -> Result<Next<'a>, Stop>
    requires kind { at.now.op.now.kind ≡ kind.MoreNames to }
    requires ready { Ready at.now.functions.now at.now.function.now at.now.op.now machine.now stacks.old }
    requires first { first_count ≤ length machine.now.objects }
    ensures told { JumpsOnHeap (kind.MoreNames to) machine.now machine.now stacks.old stacks.new result }
    ensures goes { GoesTo at.now.op.now.kind result }
    ensures leaves { LeavesNext at.now.function.now at.now.op.now machine.now stacks.new result }
{
    match lists::more_names(at, machine, stacks, to) {
        More::Name => Ok(Next::On),
        More::None => Ok(Next::To(to)),
    }
}

/// Does a jump.
pub(crate) fn jump<'a>(
    at: &At<'_>,
    machine: &Machine<'_>,
    stacks: &mut Stacks<'a>,
) -> Result<Next<'a>, Stop>
    requires family { family_of at.now.op.now.kind ≡ family.Jump }
    requires ready { Ready at.now.functions.now at.now.function.now at.now.op.now machine.now stacks.old }
    requires first { first_count ≤ length machine.now.objects }
    ensures told { JumpsOnHeap at.now.op.now.kind machine.now machine.now stacks.old stacks.new result }
    ensures goes { GoesTo at.now.op.now.kind result }
    ensures leaves { LeavesNext at.now.function.now at.now.op.now machine.now stacks.new result }
{
    match &at.op.kind {
        Kind::Jump(to) => jumps::jump(at, machine, stacks, *to),
        Kind::JumpFalse(to) => jumps::jump_false(at, machine, stacks, *to),
        Kind::JumpLogical(op, to) => jumps::jump_logical(at, machine, stacks, *op, *to),
        Kind::JumpSame(to) => jumps::jump_same(at, machine, stacks, *to),
        Kind::MoreNames(to) => skip_names(at, machine, stacks, *to),
        _ => unreachable!(),
    }
}

/// Does an operation that leads out of the part of the code around it.
pub(crate) fn lead_out<'a>(
    at: &At<'a>,
    machine: &Machine<'_>,
    stacks: &mut Stacks<'a>,
) -> Result<Next<'a>, Stop>
    requires family { family_of at.now.op.now.kind ≡ family.Leading }
    requires ready { Ready at.now.functions.now at.now.function.now at.now.op.now machine.now stacks.old }
    ensures told { JumpsOnHeap at.now.op.now.kind machine.now machine.now stacks.old stacks.new result }
    ensures goes { GoesTo at.now.op.now.kind result }
    ensures leaves { LeavesNext at.now.function.now at.now.op.now machine.now stacks.new result }
{
    match &at.op.kind {
        Kind::Return => endings::return_top(at, machine, stacks),
        Kind::Throw => endings::throw_top(at, machine, stacks),
        Kind::Break(label) => endings::break_out(at, machine, stacks, label),
        Kind::Continue(label) => endings::continue_out(at, machine, stacks, label),
        Kind::Resume => endings::resume(at, machine, stacks),
        _ => unreachable!(),
    }
}
