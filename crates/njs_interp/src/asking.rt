// Operations that ask a caller.
ghost use Rattle.std.specs.Prelude.{◌≡◌, ◌≤◌, ◌<◌, ◌∷◌, [], ℕ, length, OnOk, OnErr, Err};
ghost use Rattle.njs_shared.specs.Heap.{sizes};
ghost use Rattle.njs_shared.specs.Fits.{FitsValue};
ghost use Rattle.njs_clone.specs.Content.{content};
ghost use Rattle.njs_code.specs.declared.op.Kind.TheVariants as Kind;
ghost use Rattle.njs_code.specs.Effects.{depth_left};
ghost use Rattle.njs_meaning.specs.Errors.{first_count};
ghost use Rattle.njs_meaning.specs.Running.{Calls, Context};
ghost use Rattle.njs_meaning.specs.Replies.{Known};
ghost use Rattle.njs_meaning.specs.Meaning.{member_by};
ghost use Rattle.njs_convert.specs.Tells.{Means, Counts, Grows, FitsAnswer, FitsText};
ghost use Rattle.njs_interp.specs.Sits.{Sits, Ready};
ghost use Rattle.njs_interp.specs.Tells.{Leaves};
ghost use Rattle.njs_interp.specs.Grown.{Widens};
ghost use Rattle.njs_interp.specs.Operands.{Gives};
ghost use Rattle.njs_interp.specs.Asked.{ActsAsked, Finished, alone, with_name, number_answer, ShowsMember, ListAdded};

use crate::lists::listing_of;
use crate::operands::{push, take, take_two};
use crate::{At, Listing, Runner, Stacks, operators};
use njs_clone::Machine;
use njs_convert::{Caller, Stop, throw, to_text};
use njs_members::has_members;
use njs_text::Steps;
use njs_tree::{BinaryOp, UnaryOp};
use njs_value::{Cause, TextId, Value};
use std::alloc::Global;
use std::sync::ledger::Ledger;

/// The value that an answer gives goes on top. What it throws, the operation throws.
pub(crate) fn finish(
    at: &At<'_>,
    machine: &Machine<'_>,
    stacks: &mut Stacks<'_>,
    answer: Result<Value, Stop>,
) -> Result<(), Stop>
    requires gives { Gives at.now.op.now.kind 1 }
    requires sits { Sits machine.now at.now.function.now.slots (depth_left at.now.op.now.kind at.now.op.now.depth) stacks.old }
    requires fits { FitsAnswer (FitsValue (sizes machine.now)) (sizes machine.now) answer }
    ensures finished { Finished alone answer stacks.old stacks.new result }
    ensures leaves { Leaves at.now.function.now at.now.op.now machine.now stacks.new result }
{
    match answer {
        Ok(value) => push(at, machine, stacks, value),
        Err(stop) => Err(stop),
    }
}

/// An operator of two values (ECMA-262 5.1 §11.5 to §11.11): `[left, right] → [value]`
pub(crate) fn binary<C: Runner<L>, L: Ledger>(
    alloc: Global,
    at: &At<'_>,
    caller: &mut C,
    machine: &mut Machine<'_>,
    stacks: &mut Stacks<'_>,
    op: BinaryOp,
    steps: &mut Steps<L>,
) -> Result<(), Stop>
    requires kind { at.now.op.now.kind ≡ Kind.Binary op }
    requires ready { Ready at.now.functions.now at.now.function.now at.now.op.now machine.old stacks.old }
    requires may { C.may_call caller.old }
    requires fits { C.fits caller.old machine.old }
    requires first { first_count ≤ length machine.old.objects }
    ensures told { (k : Known) → ActsAsked (C.follows caller.old k) (C.agrees caller.new k) (C.stands caller.old k machine.old) (C.holds caller.new k machine.new) (C.stopped caller.new k) (Kind.Binary op) machine.old machine.new stacks.old stacks.new result }
    ensures leaves { Leaves at.now.function.now at.now.op.now machine.new stacks.new result }
    ensures kept { (calls : Calls) (k : Known) → C.follows caller.old k calls → C.follows caller.new k calls }
    ensures agrees { (k : Known) → C.agrees caller.new k → C.agrees caller.old k }
    ensures may { C.may_call caller.new }
    ensures fits { C.fits caller.new machine.new }
    ensures same { C.lent caller.new ≡ C.lent caller.old }
    ensures spent { C.ticks_of caller.new ≤ C.ticks_of caller.old }
    ensures widens { Widens machine.old machine.new }
    ensures steps { steps.old ≤ steps.new }
{
    let (left, right) = take_two(at, machine, stacks);
    let answer = operators::binary(alloc, caller, machine, op, left, right, steps);
    finish(at, machine, stacks, answer)
}

/// An operator of one value (ECMA-262 5.1 §11.4): `[value] → [value]`
pub(crate) fn unary<C: Runner<L>, L: Ledger>(
    alloc: Global,
    at: &At<'_>,
    caller: &mut C,
    machine: &mut Machine<'_>,
    stacks: &mut Stacks<'_>,
    op: UnaryOp,
    steps: &mut Steps<L>,
) -> Result<(), Stop>
    requires kind { at.now.op.now.kind ≡ Kind.Unary op }
    requires ready { Ready at.now.functions.now at.now.function.now at.now.op.now machine.old stacks.old }
    requires may { C.may_call caller.old }
    requires fits { C.fits caller.old machine.old }
    requires first { first_count ≤ length machine.old.objects }
    ensures told { (k : Known) → ActsAsked (C.follows caller.old k) (C.agrees caller.new k) (C.stands caller.old k machine.old) (C.holds caller.new k machine.new) (C.stopped caller.new k) (Kind.Unary op) machine.old machine.new stacks.old stacks.new result }
    ensures leaves { Leaves at.now.function.now at.now.op.now machine.new stacks.new result }
    ensures kept { (calls : Calls) (k : Known) → C.follows caller.old k calls → C.follows caller.new k calls }
    ensures agrees { (k : Known) → C.agrees caller.new k → C.agrees caller.old k }
    ensures may { C.may_call caller.new }
    ensures fits { C.fits caller.new machine.new }
    ensures same { C.lent caller.new ≡ C.lent caller.old }
    ensures spent { C.ticks_of caller.new ≤ C.ticks_of caller.old }
    ensures widens { Widens machine.old machine.new }
    ensures steps { steps.old ≤ steps.new }
{
    let value = take(at, machine, stacks);
    let answer = operators::unary(alloc, caller, machine, op, value, steps);
    finish(at, machine, stacks, answer)
}

// A number as a value.
fn number_value(answer: Result<i64, Stop>) -> Result<Value, Stop>
    ensures { result ≡ number_answer answer }
{
    match answer {
        Ok(number) => Ok(Value::Num(number)),
        Err(stop) => Err(stop),
    }
}

/// ToNumber (ECMA-262 5.1 §9.3): `[value] → [number]`
pub(crate) fn to_number<C: Runner<L>, L: Ledger>(
    alloc: Global,
    at: &At<'_>,
    caller: &mut C,
    machine: &mut Machine<'_>,
    stacks: &mut Stacks<'_>,
    steps: &mut Steps<L>,
) -> Result<(), Stop>
    requires kind { at.now.op.now.kind ≡ Kind.ToNumber }
    requires ready { Ready at.now.functions.now at.now.function.now at.now.op.now machine.old stacks.old }
    requires may { C.may_call caller.old }
    requires fits { C.fits caller.old machine.old }
    requires first { first_count ≤ length machine.old.objects }
    ensures told { (k : Known) → ActsAsked (C.follows caller.old k) (C.agrees caller.new k) (C.stands caller.old k machine.old) (C.holds caller.new k machine.new) (C.stopped caller.new k) (Kind.ToNumber) machine.old machine.new stacks.old stacks.new result }
    ensures leaves { Leaves at.now.function.now at.now.op.now machine.new stacks.new result }
    ensures kept { (calls : Calls) (k : Known) → C.follows caller.old k calls → C.follows caller.new k calls }
    ensures agrees { (k : Known) → C.agrees caller.new k → C.agrees caller.old k }
    ensures may { C.may_call caller.new }
    ensures fits { C.fits caller.new machine.new }
    ensures same { C.lent caller.new ≡ C.lent caller.old }
    ensures spent { C.ticks_of caller.new ≤ C.ticks_of caller.old }
    ensures widens { Widens machine.old machine.new }
    ensures steps { steps.old ≤ steps.new }
{
    let value = take(at, machine, stacks);
    let answer = number_value(njs_convert::to_number(alloc, caller, machine, value, steps));
    finish(at, machine, stacks, answer)
}

// The name of a member of a base: the base must have members, and the key is made a text (ECMA-262 5.1 §11.2.1).
fn member_by<C: Caller<L>, L: Ledger>(
    alloc: Global,
    caller: &mut C,
    machine: &mut Machine<'_>,
    base: Value,
    key: Value,
    steps: &mut Steps<L>,
) -> Result<TextId, Stop>
    requires may { C.may_call caller.old }
    requires fits { C.fits caller.old machine.old }
    requires first { first_count ≤ length machine.old.objects }
    requires base { FitsValue (sizes machine.old) base }
    requires key { FitsValue (sizes machine.old) key }
    ensures told { (calls : Calls) (k : Known) (x : Context) → C.follows caller.old k calls → C.agrees caller.new k → x.calls ≡ calls → Means (C.stands caller.old k machine.old) (C.stands caller.new k machine.new) (C.stopped caller.new k) machine.new.texts (ShowsMember machine.new.texts base) result (member_by (content machine.old.texts base) (content machine.old.texts key) x) }
    ensures kept { (calls : Calls) (k : Known) → C.follows caller.old k calls → C.follows caller.new k calls }
    ensures agrees { (k : Known) → C.agrees caller.new k → C.agrees caller.old k }
    ensures may { C.may_call caller.new }
    ensures fits { C.fits caller.new machine.new }
    ensures same { C.lent caller.new ≡ C.lent caller.old }
    ensures grows { Grows machine.old machine.new }
    ensures value { FitsAnswer (FitsText (sizes machine.new)) (sizes machine.new) result }
    ensures spent { C.ticks_of caller.new ≤ C.ticks_of caller.old }
    ensures steps { Counts (C.adds caller.old steps.old caller.new) steps.new result }
{
    if !has_members(base) {
        return Err(throw(alloc, machine, Cause::NullBase, steps));
    }
    to_text(alloc, caller, machine, key, steps)
}

// A base and the name that an answer gives go on top. What it throws, the operation throws.
fn finish_member(
    at: &At<'_>,
    machine: &Machine<'_>,
    stacks: &mut Stacks<'_>,
    base: Value,
    answer: Result<TextId, Stop>,
) -> Result<(), Stop>
    requires gives { Gives at.now.op.now.kind 2 }
    requires sits { Sits machine.now at.now.function.now.slots (depth_left at.now.op.now.kind at.now.op.now.depth) stacks.old }
    requires base { FitsValue (sizes machine.now) base }
    requires fits { FitsAnswer (FitsText (sizes machine.now)) (sizes machine.now) answer }
    ensures finished { Finished (with_name base) answer stacks.old stacks.new result }
    ensures leaves { Leaves at.now.function.now at.now.op.now machine.now stacks.new result }
{
    let _op = at.op;
    let _sizes = machine.sizes();
    let name = match answer {
        Ok(name) => name,
        Err(stop) => return Err(stop),
    };
    if stacks.operands.push(base).is_err() {
        return Err(Stop::NoMemory);
    }
    match stacks.operands.push(Value::Str(name)) {
        Ok(()) => Ok(()),
        Err(_) => Err(Stop::NoMemory),
    }
}

/// Throws where the base has no members, and then makes the key a text (ECMA-262 5.1 §11.2.1): `[base, key] → [base, name]`
pub(crate) fn key<C: Runner<L>, L: Ledger>(
    alloc: Global,
    at: &At<'_>,
    caller: &mut C,
    machine: &mut Machine<'_>,
    stacks: &mut Stacks<'_>,
    steps: &mut Steps<L>,
) -> Result<(), Stop>
    requires kind { at.now.op.now.kind ≡ Kind.Key }
    requires ready { Ready at.now.functions.now at.now.function.now at.now.op.now machine.old stacks.old }
    requires may { C.may_call caller.old }
    requires fits { C.fits caller.old machine.old }
    requires first { first_count ≤ length machine.old.objects }
    ensures told { (k : Known) → ActsAsked (C.follows caller.old k) (C.agrees caller.new k) (C.stands caller.old k machine.old) (C.holds caller.new k machine.new) (C.stopped caller.new k) (Kind.Key) machine.old machine.new stacks.old stacks.new result }
    ensures leaves { Leaves at.now.function.now at.now.op.now machine.new stacks.new result }
    ensures kept { (calls : Calls) (k : Known) → C.follows caller.old k calls → C.follows caller.new k calls }
    ensures agrees { (k : Known) → C.agrees caller.new k → C.agrees caller.old k }
    ensures may { C.may_call caller.new }
    ensures fits { C.fits caller.new machine.new }
    ensures same { C.lent caller.new ≡ C.lent caller.old }
    ensures spent { C.ticks_of caller.new ≤ C.ticks_of caller.old }
    ensures widens { Widens machine.old machine.new }
    ensures steps { steps.old ≤ steps.new }
{
    let (base, key) = take_two(at, machine, stacks);
    let answer = member_by(alloc, caller, machine, base, key, steps);
    finish_member(at, machine, stacks, base, answer)
}

/// Takes one tick.
pub(crate) fn charge<C: Runner<L>, L: Ledger>(
    at: &At<'_>,
    caller: &mut C,
    machine: &Machine<'_>,
    stacks: &Stacks<'_>,
) -> Result<(), Stop>
    requires kind { at.now.op.now.kind ≡ Kind.Charge }
    requires ready { Ready at.now.functions.now at.now.function.now at.now.op.now machine.now stacks.now }
    requires may { C.may_call caller.old }
    requires fits { C.fits caller.old machine.now }
    ensures told { (k : Known) → ActsAsked (C.follows caller.old k) (C.agrees caller.new k) (C.stands caller.old k machine.now) (C.holds caller.new k machine.now) (C.stopped caller.new k) Kind.Charge machine.now machine.now stacks.now stacks.now result }
    ensures leaves { Leaves at.now.function.now at.now.op.now machine.now stacks.now result }
    ensures kept { (calls : Calls) (k : Known) → C.follows caller.old k calls → C.follows caller.new k calls }
    ensures agrees { (k : Known) → C.agrees caller.new k → C.agrees caller.old k }
    ensures may { C.may_call caller.new }
    ensures fits { C.fits caller.new machine.now }
    ensures same { C.lent caller.new ≡ C.lent caller.old }
    ensures spent { C.ticks_of caller.new ≤ C.ticks_of caller.old }
    ensures falls { OnOk result (C.ticks_of caller.new < C.ticks_of caller.old) }
    ensures spends { OnErr result (result ≡ Err Stop.Fuel) }
    ensures steps { (n : ℕ) → C.adds caller.old n caller.new n }
{
    let _op = at.op;
    let _sizes = machine.sizes();
    caller.charge(1)
}

// Puts a list on top.
fn push_list(stacks: &mut Stacks<'_>, listing: Listing) -> Result<(), Stop>
    ensures { ListAdded listing stacks.old stacks.new result }
{
    match stacks.lists.push(listing) {
        Ok(()) => Ok(()),
        Err(_) => Err(Stop::NoMemory),
    }
}

/// Lists the names of a value (ECMA-262 5.1 §12.6.4), which costs a tick for each: `[value] → []`
pub(crate) fn list_names<C: Runner<L>, L: Ledger>(
    alloc: Global,
    at: &At<'_>,
    caller: &mut C,
    machine: &Machine<'_>,
    stacks: &mut Stacks<'_>,
) -> Result<(), Stop>
    requires kind { at.now.op.now.kind ≡ Kind.ListNames }
    requires ready { Ready at.now.functions.now at.now.function.now at.now.op.now machine.now stacks.old }
    requires may { C.may_call caller.old }
    requires fits { C.fits caller.old machine.now }
    requires first { first_count ≤ length machine.now.objects }
    ensures told { (k : Known) → ActsAsked (C.follows caller.old k) (C.agrees caller.new k) (C.stands caller.old k machine.now) (C.holds caller.new k machine.now) (C.stopped caller.new k) Kind.ListNames machine.now machine.now stacks.old stacks.new result }
    ensures leaves { Leaves at.now.function.now at.now.op.now machine.now stacks.new result }
    ensures kept { (calls : Calls) (k : Known) → C.follows caller.old k calls → C.follows caller.new k calls }
    ensures agrees { (k : Known) → C.agrees caller.new k → C.agrees caller.old k }
    ensures may { C.may_call caller.new }
    ensures fits { C.fits caller.new machine.now }
    ensures same { C.lent caller.new ≡ C.lent caller.old }
    ensures spent { C.ticks_of caller.new ≤ C.ticks_of caller.old }
    ensures steps { (n : ℕ) → C.adds caller.old n caller.new n }
{
    let value = take(at, machine, stacks);
    let listing = match listing_of(alloc, machine, value) {
        Ok(listing) => listing,
        Err(_) => return Err(Stop::NoMemory),
    };
    match caller.charge(listing.names.len() as u64) {
        Ok(()) => push_list(stacks, listing),
        Err(stop) => Err(stop),
    }
}
