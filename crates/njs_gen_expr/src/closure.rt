// The making of a function.
ghost use Rattle.std.specs.Prelude.{ℕ, List, ◌≡◌, ◌+◌, ◌++◌, map, Option};
ghost use Rattle.njs_meaning.specs.declared.place.Place.{Place as SomePlace};
ghost use Rattle.njs_meaning.specs.Parts.{one, each};
ghost use Rattle.njs_meaning.specs.Places.{Around};
ghost use Rattle.njs_simul.specs.Compiled as code;
ghost use Rattle.njs_scope.specs.Uses as uses;
ghost use Rattle.njs_gen_expr.specs.Trees.{function};
ghost use Rattle.njs_gen_expr.specs.Written.{IsGoing, draft, Holds};
ghost use Rattle.njs_gen_expr.specs.Parts.{Passed, WroteTarget};

use crate::count::{self, uses_in, uses_in_function};
use crate::functions::{self, functions_in};
use crate::operators::{constant, counted};
use crate::{Here, Writer};
use njs_code::Kind;
use njs_text::{List, Text};
use njs_tree::{Expr, FunctionTree, Stmt};
use sqlite_items::Items;

/// The same text, if it is there, or what is written is refused.
pub fn copy_held(w: &mut Writer<'_>, name: &Option<Text>) -> Option<Text>
    ensures stays { IsGoing w.new → IsGoing w.old }
    ensures copied { IsGoing w.new → result ≡ name.now }
    ensures holds { (d : _) → Holds w.old d → Holds w.new d }
{
    match name {
        None => None,
        Some(text) => Some(w.copy(text)),
    }
}

/// Goes on in front of a function, for which nothing is written: its names in use, and the functions in it, itself among them.
pub fn pass_function(w: &mut Writer<'_>, f: &FunctionTree)
    ensures stays { IsGoing w.new → IsGoing w.old }
    ensures passed { (names : Around) (first start n : ℕ) (ops : List _) (front : List SomePlace) → Holds w.old (draft ops n (front ++ ((uses.function f.now).means start).uses.places names) (first + (function f.now).size)) → Holds w.new (draft ops n front first) }
{
    w.pass(uses_in_function(f, 0), functions_in(f, 0));
}

/// Goes on in front of an expression, for which nothing is written.
pub fn pass_expression(w: &mut Writer<'_>, e: &Expr)
    ensures stays { IsGoing w.new → IsGoing w.old }
    ensures passed { Passed (code.expression e.now) (uses.expression e.now) w.old w.new }
{
    w.pass(uses_in(e, 0), functions::in_expression(e, 0));
}

/// Goes on in front of a statement, for which nothing is written.
pub fn pass_statement(w: &mut Writer<'_>, s: &Stmt)
    ensures stays { IsGoing w.new → IsGoing w.old }
    ensures passed { Passed (code.statement s.now) (uses.statement s.now) w.old w.new }
{
    w.pass(count::in_statement(s, 0), functions::in_statement(s, 0));
}

/// Goes on in front of statements, for which nothing is written.
pub fn pass_statements(w: &mut Writer<'_>, list: &Items<Stmt>)
    ensures stays { IsGoing w.new → IsGoing w.old }
    ensures passed { Passed (each (map code.statement list.now)) (uses.all_of (map uses.statement list.now)) w.old w.new }
{
    w.pass(
        count::in_statements(list, 0),
        functions::in_statements(list, 0),
    );
}

/// A function as an expression (ECMA-262 5.1 §13).
pub fn closure(w: &mut Writer<'_>, f: &FunctionTree, here: Here)
    ensures stays { IsGoing w.new → IsGoing w.old }
    ensures written { WroteTarget (code.function_expression (function f.now)) (one (uses.function f.now) uses.function_expression) here w.old w.new }
{
    pass_function(w, f);
    let number = w.functions();
    let params = counted(w, f.params.len());
    let name = copy_held(w, &f.name);
    let kind = Kind::Closure {
        number,
        params,
        name,
    };
    constant(w, kind, here);
}
