// The names of a whole script.
#![tactic(auto, using(crate::proofs::Trees::trees), unfolding(crate::specs::Walked::around_of))]

ghost use Rattle.std.specs.Prelude.{◌≡◌, ℕ, [], ◌∷◌, ◌++◌, codes, IfOk, OnOk};
ghost use Rattle.njs_scope.specs.Uses.{item, items_part};
ghost use Rattle.njs_scope.specs.Planned.{module_names, planned, outermost};
ghost use Rattle.njs_scope.specs.Walked.{declared_names, places_of, scopes_of};

use crate::Plan;
use crate::around::Around;
use crate::front::Front;
use crate::names::add_all;
use crate::own::{self, Own};
use crate::walk::{self, Found};
use njs_text::{List, NoMemory, Text};
use njs_tree::{Checked, Item, Script};
use std::alloc::Global;

fn own_of_item(
    alloc: Global,
    declared: &mut Front<Text>,
    own: &mut Own,
    part: &Item,
) -> Result<(), NoMemory>
    ensures declared { (first : ℕ) → OnOk result (declared.new ≡ declared_names (item part.now) first ++ declared.old) }
    ensures vars { OnOk result (own.new.vars ≡ (item part.now).vars ++ own.old.vars) }
{
    match part {
        Item::Stmt(s) => own::in_statement(alloc, declared, own, s)?,
        Item::Export(_, e) => own::mention(own, e),
    }
    Ok(())
}

fn own_of_items(
    alloc: Global,
    declared: &mut Front<Text>,
    own: &mut Own,
    list: &[Item],
) -> Result<(), NoMemory>
    ensures declared { (first : ℕ) → OnOk result (declared.new ≡ declared_names (items_part list.now) first ++ declared.old) }
    ensures vars { OnOk result (own.new.vars ≡ (items_part list.now).vars ++ own.old.vars) }
{
    for i in (0..list.len()).rev() {
        own_of_item(alloc, declared, own, &list[i])?;
    }
    Ok(())
}

// The names of the module's scope, each once.
fn module_names(alloc: Global, list: &[Item]) -> Result<List<(Text, bool)>, NoMemory>
    ensures { IfOk result (λ names. names ≡ module_names (items_part list.now)) }
{
    let mut declared = Front::new(alloc);
    let mut own = Own {
        vars: Front::new(alloc),
        names_arguments: false,
    };
    own_of_items(alloc, &mut declared, &mut own, list)?;
    let Own { vars, .. } = own;
    let mut names = List::new(alloc);
    add_all(&mut names, declared)?;
    add_all(&mut names, vars)?;
    Ok(names)
}

// The global names that always stand first, and the others.
fn outermost(alloc: Global, others: &[(Text, bool)]) -> Result<List<(Text, bool)>, NoMemory>
    ensures { IfOk result (λ names. names ≡ outermost others.now) }
{
    let mut names = List::new(alloc);
    names.push((undefined(), false))?;
    for other in others {
        names.push((other.0.copy(alloc)?, other.1))?;
    }
    Ok(names)
}

fn undefined() -> Text
    ensures { result ≡ codes "undefined" }
{
    Text::fixed("undefined")
}

fn in_item(
    alloc: Global,
    found: &mut Found,
    part: &Item,
    around: &Around<'_>,
) -> Result<(), NoMemory>
    ensures places { (first : ℕ) → OnOk result (found.new.places ≡ places_of (item part.now) first around.now ++ found.old.places) }
    ensures scopes { (first : ℕ) → OnOk result (found.new.scopes ≡ scopes_of (item part.now) first around.now ++ found.old.scopes) }
{
    match part {
        Item::Stmt(s) => walk::in_statement(alloc, found, s, around)?,
        Item::Export(_, e) => walk::in_expression(alloc, found, e, around)?,
    }
    Ok(())
}

fn in_items(
    alloc: Global,
    found: &mut Found,
    list: &[Item],
    around: &Around<'_>,
) -> Result<(), NoMemory>
    ensures places { (first : ℕ) → OnOk result (found.new.places ≡ places_of (items_part list.now) first around.now ++ found.old.places) }
    ensures scopes { (first : ℕ) → OnOk result (found.new.scopes ≡ scopes_of (items_part list.now) first around.now ++ found.old.scopes) }
{
    for i in (0..list.len()).rev() {
        in_item(alloc, found, &list[i], around)?;
    }
    Ok(())
}

// All that was found in a script whose module and outermost scopes have these names.
fn all_found(
    alloc: Global,
    list: &[Item],
    own: &List<(Text, bool)>,
    outermost: &List<(Text, bool)>,
) -> Result<Found, NoMemory>
    ensures places { IfOk result (λ found. found.places ≡ ((items_part list.now).means 0).places (own.now ∷ outermost.now ∷ [])) }
    ensures scopes { IfOk result (λ found. found.scopes ≡ ((items_part list.now).means 0).scopes (own.now ∷ outermost.now ∷ [])) }
{
    let mut found = Found {
        scopes: Front::new(alloc),
        places: Front::new(alloc),
    };
    let outside = Around::Outermost(&*outermost);
    in_items(alloc, &mut found, list, &Around::Inside(&*own, &outside))?;
    Ok(found)
}

/// What is known of the names of a script, also of one that was not checked.
pub fn plan_of(alloc: Global, script: &Script, names: &[(Text, bool)]) -> Result<Plan, NoMemory>
    ensures { IfOk result (λ p. p ≡ planned script.now (outermost names.now)) }
{
    let items = script.items.as_slice();
    let outermost = outermost(alloc, names)?;
    let own = module_names(alloc, items)?;
    let Found { mut scopes, places } = all_found(alloc, items, &own, &outermost)?;
    scopes.push(own)?;
    scopes.push(outermost)?;
    Plan::new(scopes.into_list(), places.into_list())
}

/// What is known of the names of a script before it runs, by the names of the outermost scope after those that always stand
/// there (ECMA-262 5.1 §10.2.2.1, §10.5). More than 4,294,967,295 scopes, names of one scope or names in use are `NoMemory`.
pub fn plan(alloc: Global, checked: &Checked, names: &[(Text, bool)]) -> Result<Plan, NoMemory>
    ensures { IfOk result (λ p. p ≡ planned checked.now (outermost names.now)) }
{
    plan_of(alloc, checked.script(), names)
}
