// Runs that a host begins.
ghost use Rattle.std.specs.Prelude.{◌≡◌, ◌≤◌, ◌<◌, [], ◌∷◌, ℕ, List, length, map};
ghost use Rattle.std.specs.List.{AllByRecursion};
ghost use Rattle.njs_shared.specs.Heap.{sizes};
ghost use Rattle.njs_shared.specs.Fits.{FitsValue};
ghost use Rattle.njs_clone.specs.Content.{content};
ghost use Rattle.njs_meaning.specs.Errors.{first_count};
ghost use Rattle.njs_meaning.specs.Functions.{Program};
ghost use Rattle.njs_meaning.specs.Replies.{Known};
ghost use Rattle.njs_meaning.specs.Running.{Calls};
ghost use Rattle.njs_convert.specs.Tells.{Means, ShowsValue, Grows, FitsAnswer};
ghost use Rattle.njs_simul.specs.Fits.{Scoped};
ghost use Rattle.njs_interp.specs.Grown.{Widens};
ghost use Rattle.njs_interp.specs.Hosts.{counts_of};
ghost use Rattle.njs_interp.specs.Calling.{CodesOf};
ghost use Rattle.njs_interp.specs.Entries.{module_by, BodyThere, answer_of};

use crate::script::{code_at, run_in_scope};
use crate::{InCall, Runner};
use njs_clone::Machine;
use njs_code::{ValidCode, valid_code_keeps_its_rule};
use njs_convert::{Caller, Stop};
use njs_text::Steps;
use njs_value::{Row, ScopeId, Value};
use std::alloc::Global;
use std::sync::ledger::Ledger;

const OUTERMOST: ScopeId = ScopeId(0);

/// What is run.
#[derive(Clone, Copy)]
pub enum Entry<'a> {
    /// The body of a module, by its number (ECMA-262 5.1 §10.4.1).
    Body(u32),
    Call {
        callee: Value,
        this: Value,
        args: &'a [Value],
    },
    /// A built-in function, by its row in the table of built-in functions.
    Row {
        row: Row,
        this: Value,
        args: &'a [Value],
    },
}

/// How a run ended.
#[derive(Clone, Copy, Debug, PartialEq, Eq)]
pub enum Outcome {
    Normal(Value),
    Throw(Value),
    /// The ticks were spent.
    Fuel,
    NoMemory,
}

// Runs the body of a module in a new scope below the outermost one.
pub(crate) fn run_body<C: Runner<L>, L: Ledger>(
    alloc: Global,
    codes: &[ValidCode],
    unit: u32,
    caller: &mut C,
    machine: &mut Machine<'_>,
    steps: &mut Steps<L>,
) -> Result<Value, Stop>
    requires there { BodyThere codes.now machine.old.scopes unit }
    requires counts { (C.lent caller.old).counts ≡ counts_of codes.now }
    requires may { C.may_call caller.old }
    requires fits { C.fits caller.old machine.old }
    requires first { first_count ≤ length machine.old.objects }
    ensures told { (calls : Calls) (k : Known) (program : Program) (of : CodesOf codes.now k program) → C.follows caller.old k calls → C.agrees caller.new k → Means (λ s. C.stands caller.old k machine.old s × Scoped (of.outermost ∷ []) s.scopes 0) (C.holds caller.new k machine.new) (C.stopped caller.new k) machine.new.texts (ShowsValue machine.new.texts) result (module_by of.scripts calls unit) }
    ensures value { FitsAnswer (FitsValue (sizes machine.new)) (sizes machine.new) result }
    ensures kept { (calls : Calls) (k : Known) → C.follows caller.old k calls → C.follows caller.new k calls }
    ensures agrees { (k : Known) → C.agrees caller.new k → C.agrees caller.old k }
    ensures may { C.may_call caller.new }
    ensures fits { C.fits caller.new machine.new }
    ensures same { C.lent caller.new ≡ C.lent caller.old }
    ensures spent { C.ticks_of caller.new ≤ C.ticks_of caller.old }
    ensures widens { Widens machine.old machine.new }
    ensures steps { steps.old ≤ steps.new }
{
    valid_code_keeps_its_rule();
    let code = code_at(codes, unit).code();
    let call = InCall {
        unit,
        this: Value::Undefined,
        args: &[],
    };
    run_in_scope(
        alloc,
        code.functions.as_slice(),
        &code.body,
        &call,
        OUTERMOST,
        caller,
        machine,
        steps,
    )
}

// How a run ended, by its answer.
pub(crate) fn outcome_of(answer: Result<Value, Stop>) -> Outcome
    ensures { answer_of result ≡ answer }
{
    match answer {
        Ok(value) => Outcome::Normal(value),
        Err(Stop::Throw(value)) => Outcome::Throw(value),
        Err(Stop::Fuel) => Outcome::Fuel,
        Err(Stop::NoMemory) => Outcome::NoMemory,
    }
}
