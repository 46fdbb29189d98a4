//! The code of a function (ECMA-262 5.1 §10.4, §10.5, §10.6, §13), and of the body of a module (§10.4.1, §14).
ghost use Rattle.std.specs.Prelude.{◌≡◌, ◌+◌, ◌++◌, ◌∷◌, ◌<◌, ℕ, List, [], codes, length, map, suc, MatchResult};
ghost use Rattle.njs_tree.specs.declared.tree.FunctionTree.{out-FunctionTree};
ghost use Rattle.njs_meaning.specs.Places.{Around, place_in};
ghost use Rattle.njs_simul.specs.Emission as emit;
ghost use Rattle.njs_simul.specs.EmissionOfStatements as step;
ghost use Rattle.njs_simul.specs.Sizes.{declared_size, arguments_size, function_size, body_size, items_size};
ghost use Rattle.njs_simul.specs.Compiled.{item_part, items_part, items_in_turn, body_of};
ghost use Rattle.njs_scope.specs.Uses as uses;
ghost use Rattle.njs_gen_expr.specs.Written.{IsGoing, Draft, Holds, Stands};
ghost use Rattle.njs_gen_expr.specs.Parts.{Wrote};
ghost use Rattle.njs_gen_stmt.specs.Functions.{IsIn, WroteIn, Refused, told, told_all};
ghost use Rattle.njs_gen_stmt.specs.Statements.{WrotePart, in_turn, in_turn_uses};

use crate::parts::bind;
use crate::statement::{statement, statements};
use njs_code::{Kind, Op};
use njs_gen_expr::{Fault, Here, Reference, Writer, value};
use njs_meaning::Place;
use njs_scope::slot_of;
use njs_text::{List, Text};
use njs_tree::{FunctionTree, Item};
use std::alloc::Global;

/// A function that is declared in another: its name, its number, and how many parameters it has (ECMA-262 5.1 §10.5).
#[derive(Drop)]
pub struct Declaration {
    pub name: Text,
    pub number: u32,
    pub params: u32,
}

// Where a name of the innermost scope stands.
#[tactic(auto, using(crate::proofs::Functions::own_is))]
fn own_place(w: &mut Writer<'_>, names: &[(Text, bool)], name: &Text) -> Place
    ensures stays { IsGoing w.new → IsGoing w.old }
    ensures holds { (d : Draft) → Holds w.old d → Holds w.new d }
    ensures given { (around : Around) → IsGoing w.new → IsIn names.now around → result ≡ place_in name.now around }
{
    match slot_of(name, names) {
        None => {
            w.refuse();
            Place::Nowhere
        }
        Some((slot, assignable)) => match u32::try_from(slot) {
            Ok(slot) => Place::Slot {
                up: 0,
                slot,
                assignable,
            },
            Err(_) => {
                w.refuse();
                Place::Nowhere
            }
        },
    }
}

// The value on top goes into a name of the innermost scope, and nothing is left.
fn bind_own(w: &mut Writer<'_>, names: &[(Text, bool)], name: &Text, here: Here)
    ensures stays { IsGoing w.new → IsGoing w.old }
    ensures written { WroteIn names.now (step.bind name.now) 2 here w.old w.new }
{
    let place = own_place(w, names, name);
    bind(w, &Reference::Name(name, place), here);
}

fn declare_function(w: &mut Writer<'_>, names: &[(Text, bool)], d: &Declaration, here: Here)
    ensures stays { IsGoing w.new → IsGoing w.old }
    ensures written { WroteIn names.now (step.declared (told d.now ∷ [])) 3 here w.old w.new }
{
    bind_own(w, names, &d.name, here);
    let kind = Kind::Closure {
        number: d.number,
        params: d.params,
        name: None,
    };
    w.write(kind, here);
}

// The declared functions are made, in order of the text (ECMA-262 5.1 §10.5).
fn declare_functions(w: &mut Writer<'_>, names: &[(Text, bool)], list: &[Declaration], here: Here)
    ensures stays { IsGoing w.new → IsGoing w.old }
    ensures written { WroteIn names.now (step.declared (told_all list.now)) (declared_size (told_all list.now)) here w.old w.new }
{
    for i in (0..list.len()).rev() {
        declare_function(w, names, &list[i], here);
    }
}

/// The name `arguments`.
pub fn arguments() -> Text
    ensures { result ≡ codes "arguments" }
{
    Text::fixed("arguments")
}

// `arguments`, where it is named (ECMA-262 5.1 §10.6).
fn take_arguments(w: &mut Writer<'_>, names: &[(Text, bool)], takes_arguments: bool, here: Here)
    ensures stays { IsGoing w.new → IsGoing w.old }
    ensures written { WroteIn names.now (step.with_arguments takes_arguments) (arguments_size takes_arguments) here w.old w.new }
{
    if takes_arguments {
        let name = arguments();
        bind_own(w, names, &name, here);
        w.write(Kind::Arguments, here);
    }
}

/// What is known of a function beside its tree.
#[derive(Clone, Copy)]
pub struct Known<'a> {
    /// The names of its scope, in order of its slots.
    pub names: &'a [(Text, bool)],
    /// What it declares.
    pub declared: &'a [Declaration],
    pub takes_arguments: bool,
    /// The places of the names in use in it.
    pub places: &'a [Place],
}

/// The operations of a function.
pub fn function_ops(
    alloc: Global,
    f: &FunctionTree,
    known: Known<'_>,
    behind: u32,
) -> Result<List<Op>, Fault>
    ensures { (around : Around) (first start : ℕ) → let body = (out-FunctionTree f.now).body in IsIn known.entry.names.now around → known.entry.places.now ≡ ((in_turn_uses body).means start).places around → behind ≡ first + (in_turn body).size → let ds = told_all known.entry.declared.now in let coded = (in_turn body).means first in MatchResult result (λ ops. ops ≡ step.function_body ds known.entry.takes_arguments coded (step.at_start around) []) (λ fault. Refused fault (function_size ds known.entry.takes_arguments coded)) }
{
    let mut w = Writer::new(alloc, known.places, behind);
    let here = Here::at_start();
    w.write(Kind::Return, here.deeper(1));
    w.write(Kind::Undefined, here);
    statements(&mut w, &f.body, here);
    take_arguments(&mut w, known.names, known.takes_arguments, here);
    declare_functions(&mut w, known.names, known.declared, here);
    w.finish()
}

// An item of a script; what is exported stands below all that follows.
fn item(w: &mut Writer<'_>, part: &Item, here: Here)
    ensures stays { IsGoing w.new → IsGoing w.old }
    ensures written { WrotePart (item_part part.now) (uses.item part.now) here w.old w.new }
{
    match part {
        Item::Stmt(s) => {
            let none = List::new(w.alloc());
            statement(w, s, none, here);
        }
        Item::Export(_, e) => {
            w.write(Kind::Nip, here.deeper(1));
            value(w, e, here);
        }
    }
}

fn items(w: &mut Writer<'_>, list: &[Item], here: Here)
    ensures stays { IsGoing w.new → IsGoing w.old }
    ensures written { Wrote items_size items_in_turn (items_part list.now) (uses.items_part list.now) here w.old w.new }
{
    for i in (0..list.len()).rev() {
        item(w, &list[i], here);
    }
}

/// The operations of the body of a module (ECMA-262 5.1 §14).
pub fn module_ops(
    alloc: Global,
    list: &[Item],
    known: Known<'_>,
    behind: u32,
) -> Result<List<Op>, Fault>
    ensures { (around : Around) (first start : ℕ) → IsIn known.entry.names.now around → known.entry.places.now ≡ ((uses.items_part list.now).means start).places around → behind ≡ first + (items_part list.now).size → let ds = told_all known.entry.declared.now in let coded = (items_part list.now).means first in MatchResult result (λ ops. ops ≡ body_of ds coded (step.at_start around) []) (λ fault. Refused fault (body_size ds coded)) }
{
    let mut w = Writer::new(alloc, known.places, behind);
    let here = Here::at_start();
    w.write(Kind::Return, here.deeper(1));
    items(&mut w, list, here.deeper(1));
    w.write(Kind::Undefined, here);
    declare_functions(&mut w, known.names, known.declared, here);
    w.finish()
}
