// The code of a script.
ghost use Rattle.std.specs.Prelude.{◌≡◌, ◌≤◌, ◌∷◌, ℕ, List, [], length, IfOk, MatchResult};
ghost use Rattle.njs_tree.specs.declared.tree.Script.{Script};
ghost use Rattle.njs_meaning.specs.Places.{Around, Bindings};
ghost use Rattle.njs_simul.specs.Counts.{operations_of, max_operations};
ghost use Rattle.njs_simul.specs.EmissionOfStatements.{slots_of};
ghost use Rattle.njs_simul.specs.Compiled.{code_of, items_part, item_part};
ghost use Rattle.njs_scope.specs.Planned.{planned};
ghost use Rattle.njs_scope.specs.Uses as uses;
ghost use Rattle.njs_gen_stmt.specs.Functions.{IsIn, Refused};
ghost use Rattle.njs_gen_stmt.specs.Generated.{IsPlanned, Explains, script_code};
ghost use Rattle.njs_gen_stmt.specs.Walked.{Walked, Alike, Reached, Made, IsInside, found, coded};

use crate::function::{Known, module_ops};
use crate::walk::{MAX_SLOTS, Walk, in_expression, in_statement};
use njs_code::{Code, FunctionCode, ValidCode};
use njs_gen_expr::{Fault, MAX_OPS};
use njs_meaning::Place;
use njs_scope::Plan;
use njs_simul::accepted_scripts_have_valid_code;
use njs_text::{List, NoMemory, Text};
use njs_tree::{Checked, Item};
use std::alloc::Global;

/// Why the code of a script was not made.
#[derive(Clone, Copy, Debug, PartialEq, Eq)]
pub enum GenFault {
    /// A function of the script, or its module, has more than 65,535 names in its scope.
    TooManySlots,
    /// The code would have more than 16,777,216 operations in all.
    TooLong,
    NoMemory,
}

fn in_item(w: &mut Walk<'_>, part: &Item, around: &[u32])
    ensures { Walked (item_part part.now) (uses.item part.now) around.now w.old w.new }
{
    match part {
        Item::Stmt(s) => in_statement(w, s, around),
        Item::Export(_, e) => in_expression(w, e, around),
    }
}

fn in_items(w: &mut Walk<'_>, list: &[Item], around: &[u32])
    ensures { Walked (items_part list.now) (uses.items_part list.now) around.now w.old w.new }
{
    for i in 0..list.len() {
        in_item(w, &list[i], around);
    }
}

// How many slots a module's scope and the outermost one have.
fn module_slots(alloc: Global, own: usize, outermost: usize) -> Result<List<u32>, NoMemory>
    ensures { IfOk result (λ slots. slots ≡ own ∷ outermost ∷ []) }
{
    let Ok(own) = u32::try_from(own) else {
        return Err(NoMemory)
    };
    let Ok(outermost) = u32::try_from(outermost) else {
        return Err(NoMemory)
    };
    let mut slots = List::new(alloc);
    slots.push(own)?;
    slots.push(outermost)?;
    Ok(slots)
}

// What the walk over the items of a script finds.
fn walked<'a>(
    alloc: Global,
    list: &[Item],
    scopes: &'a [List<(Text, bool)>],
    places: &'a [Place],
    around: &[u32],
) -> Walk<'a>
    ensures alike { Alike (items_part list.now) (uses.items_part list.now) }
    ensures reached { (names : Around) → IsInside names → around.now ≡ slots_of names → scopes.now ≡ ((uses.items_part list.now).means 0).scopes names → places.now ≡ ((uses.items_part list.now).means 0).places names → Reached result (found (coded (items_part list.now) 0 names) ((items_part list.now).declared 0) ((items_part list.now).names_arguments) [] []) }
{
    let mut w = Walk {
        alloc,
        scopes,
        places,
        functions: List::new(alloc),
        declared: List::new(alloc),
        names_arguments: false,
        crowded: false,
        operations: 0,
        fault: None,
    };
    in_items(&mut w, list, around);
    w
}

// The code of a script, of whose functions the walk made the code.
fn with_body(
    list: &[Item],
    w: Walk<'_>,
    own: &[(Text, bool)],
    around: List<u32>,
    places: &[Place],
) -> Result<Code, Fault>
    ensures { (names : Around) → IsIn own.now names → around ≡ slots_of names → places.now ≡ ((uses.items_part list.now).means 0).places names → ((first : ℕ) → length ((items_part list.now).functions first) ≡ (items_part list.now).size) → Made w.entry.fault w.entry (found (coded (items_part list.now) 0 names) ((items_part list.now).declared 0) ((items_part list.now).names_arguments) [] []) → MatchResult result (λ code. (code ≡ script_code list.now names) × (operations_of (script_code list.now names) ≤ max_operations)) (λ fault. Refused fault (operations_of (script_code list.now names))) }
{
    if let Some(fault) = w.fault {
        return Err(fault);
    }
    let Ok(behind) = u32::try_from(w.functions.len()) else {
        return Err(Fault::NoMemory)
    };
    let known = Known {
        names: own,
        declared: w.declared.as_slice(),
        takes_arguments: false,
        places,
    };
    let ops = match module_ops(w.alloc, list, known, behind) {
        Ok(ops) => ops,
        Err(fault) => return Err(fault),
    };
    if w.operations.saturating_add(ops.len()) > MAX_OPS {
        return Err(Fault::TooLong);
    }
    let Walk { functions, .. } = w;
    let body = FunctionCode {
        params: 0,
        builds: true,
        slots: around,
        ops,
    };
    Ok(Code { functions, body })
}

// The code of a script, by the names of its scopes and the places of the names in use.
fn code(
    alloc: Global,
    list: &[Item],
    scopes: &[List<(Text, bool)>],
    places: &[Place],
) -> Result<Code, GenFault>
    ensures { (script : Script) (outermost : Bindings) → script.items ≡ list.now → let plan = planned script outermost in scopes.now ≡ plan.scopes → places.now ≡ plan.places → IfOk result (λ code. code ≡ code_of script outermost) × Explains result (code_of script outermost) }
{
    let [outermost, own, inner @ ..] = scopes else {
        return Err(GenFault::NoMemory)
    };
    let Ok(around) = module_slots(alloc, own.len(), outermost.len()) else {
        return Err(GenFault::NoMemory);
    };
    let w = walked(alloc, list, inner, places, around.as_slice());
    if w.crowded || own.len() > MAX_SLOTS {
        return Err(GenFault::TooManySlots);
    }
    match with_body(list, w, own.as_slice(), around, places) {
        Ok(code) => Ok(code),
        Err(Fault::TooLong) => Err(GenFault::TooLong),
        Err(Fault::NoMemory) => Err(GenFault::NoMemory),
    }
}

/// The code of a script, by a plan of its names (ECMA-262 5.1 §10, §11 to §14). It is valid, so that no test is needed.
pub fn generate(alloc: Global, checked: &Checked, plan: &Plan) -> Result<ValidCode, GenFault>
    requires planned { IsPlanned checked.now plan.now }
    ensures code { (outermost : Bindings) → plan.now ≡ planned checked.now outermost → IfOk result (λ code. code ≡ code_of checked.now outermost) }
    ensures faults { (outermost : Bindings) → plan.now ≡ planned checked.now outermost → Explains result (code_of checked.now outermost) }
{
    accepted_scripts_have_valid_code();
    let script = checked.script();
    match code(alloc, script.items.as_slice(), plan.scopes(), plan.places()) {
        Ok(code) => Ok(ValidCode::new(code)),
        Err(fault) => Err(fault),
    }
}
