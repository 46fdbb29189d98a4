// The names of the scope of a function.
ghost use Rattle.std.specs.Prelude.{◌≡◌, ℕ, IfOk, OnOk};
ghost use Rattle.njs_tree.specs.declared.tree.FunctionTree.{out-FunctionTree};
ghost use Rattle.njs_meaning.specs.Places.{assignable};
ghost use Rattle.njs_meaning.specs.Functions.{scope_names};
ghost use Rattle.njs_scope.specs.Walked.{each_once_more, arguments_if, statements};

use crate::front::Front;
use crate::mentions::arguments;
use crate::names::{add, add_all, add_copies};
use crate::own::{Own, in_statements};
use njs_text::{List, NoMemory, Text};
use njs_tree::FunctionTree;
use std::alloc::Global;

fn add_arguments(names: &mut List<(Text, bool)>, takes_arguments: bool) -> Result<(), NoMemory>
    ensures { OnOk result (names.new ≡ each_once_more names.old (arguments_if takes_arguments)) }
{
    if takes_arguments {
        add(names, arguments())?;
    }
    Ok(())
}

/// The names of the scope of a function's calls, each once (ECMA-262 5.1 §10.5): its parameters, the functions that it declares,
/// `arguments` where it names it, and its `var`s.
pub fn scope_names(alloc: Global, f: &FunctionTree) -> Result<List<(Text, bool)>, NoMemory>
    ensures { (first : ℕ) → IfOk result (λ names. let tree = out-FunctionTree f.now in let body = statements tree.body in names ≡ assignable (scope_names tree.params (body.declared first) body.names_arguments body.vars)) }
{
    let mut declared = Front::new(alloc);
    let mut own = Own {
        vars: Front::new(alloc),
        names_arguments: false,
    };
    in_statements(alloc, &mut declared, &mut own, f.body.as_slice())?;
    let Own {
        vars,
        names_arguments,
    } = own;
    let mut names = List::new(alloc);
    add_copies(alloc, &mut names, f.params.as_slice())?;
    add_all(&mut names, declared)?;
    add_arguments(&mut names, names_arguments)?;
    add_all(&mut names, vars)?;
    Ok(names)
}
