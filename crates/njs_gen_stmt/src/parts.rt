//! The parts of statements that hold no statements.
ghost use Rattle.std.specs.Prelude.{◌≡◌, ◌+◌, ℕ, List, suc};
ghost use Rattle.njs_code.specs.declared.op.Address.{Address as SomeAddress};
ghost use Rattle.njs_code.specs.declared.op.Kind.{Kind as SomeKind};
ghost use Rattle.njs_meaning.specs.Parts.{one, leaf};
ghost use Rattle.njs_simul.specs.Emission as emit;
ghost use Rattle.njs_simul.specs.Emission.{value, value_size};
ghost use Rattle.njs_simul.specs.EmissionOfStatements as step;
ghost use Rattle.njs_simul.specs.Compiled.{declaration};
ghost use Rattle.njs_scope.specs.Uses as uses;
ghost use Rattle.njs_gen_expr.specs.Trees as code;
ghost use Rattle.njs_gen_expr.specs.Written.{IsGoing, Draft, Holds, Stands};
ghost use Rattle.njs_gen_expr.specs.References.{form_of, IsPlaced};
ghost use Rattle.njs_gen_expr.specs.Parts.{Wrote};
ghost use Rattle.njs_gen_stmt.specs.Statements.{WrotePart, WroteTest, WroteLabelled, Within, declared_in, declared_uses, optional, optional_uses, first, first_uses};

use njs_code::{Address, Kind};
use njs_gen_expr::{
    Here, Reference, Writer, assign_to, over, pass_function, reference_of, target, uses_in, value,
};
use njs_text::Text;
use njs_tree::{Expr, ForFirst, ForInHead, FunctionTree};
use sqlite_items::Items;

/// A value that nothing is done with (ECMA-262 5.1 §12.4).
pub fn evaluate(w: &mut Writer<'_>, e: &Expr, here: Here)
    ensures stays { IsGoing w.new → IsGoing w.old }
    ensures written { WrotePart (one (code.expression e.now) step.evaluate) (uses.expression e.now) here w.old w.new }
{
    w.write(Kind::Drop, here.deeper(1));
    value(w, e, here);
}

/// A test of a loop, which goes on behind it or at the address (ECMA-262 5.1 §12.6).
pub fn test(w: &mut Writer<'_>, e: &Expr, past: Address, here: Here)
    ensures stays { IsGoing w.new → IsGoing w.old }
    ensures written { (p : SomeAddress) → (IsGoing w.old → past ≡ p) → WroteTest p (one (code.expression e.now) step.test_of) (uses.expression e.now) here w.old w.new }
{
    w.write(Kind::JumpFalse(past), here.deeper(1));
    value(w, e, here);
}

/// The same, where there is a test.
pub fn test_if_any(w: &mut Writer<'_>, e: &Option<Expr>, past: Address, here: Here)
    ensures stays { IsGoing w.new → IsGoing w.old }
    ensures written { (p : SomeAddress) → (IsGoing w.old → past ≡ p) → WroteTest p (one (optional e.now) step.tests_if_any) (optional_uses e.now) here w.old w.new }
{
    match e {
        None => {}
        Some(e) => test(w, e, past, here),
    }
}

/// What a `for` does behind each turn (ECMA-262 5.1 §12.6.3).
pub fn update_if_any(w: &mut Writer<'_>, e: &Option<Expr>, here: Here)
    ensures stays { IsGoing w.new → IsGoing w.old }
    ensures written { (p : SomeAddress) → WroteTest p (one (optional e.now) step.does_if_any) (optional_uses e.now) here w.old w.new }
{
    match e {
        None => {}
        Some(e) => evaluate(w, e, here),
    }
}

/// The value of a `return` (ECMA-262 5.1 §12.9).
pub fn value_or_undefined(w: &mut Writer<'_>, e: &Option<Expr>, here: Here)
    ensures stays { IsGoing w.new → IsGoing w.old }
    ensures written { WrotePart (one (optional e.now) step.value_or_undefined) (optional_uses e.now) here w.old w.new }
{
    match e {
        None => w.write(Kind::Undefined, here),
        Some(e) => value(w, e, here),
    }
}

/// The value on top goes into a name, and nothing is left.
pub fn bind(w: &mut Writer<'_>, r: &Reference<'_>, here: Here)
    ensures stays { IsGoing w.new → IsGoing w.old }
    ensures written { (at : emit.Here) (d : Draft) → (IsGoing w.old → IsPlaced r.now at.names) → Stands here at → Holds w.old d → Holds w.new (record d { ops = emit.assign_to (form_of r.now) at (emit.op SomeKind.Drop (emit.deeper 1 at) d.ops); count = suc (suc d.count) }) }
{
    w.write(Kind::Drop, here.deeper(1));
    assign_to(w, r, here);
}

// A name with its value.
fn declare_one(w: &mut Writer<'_>, name: &Text, e: &Expr, here: Here)
    ensures stays { IsGoing w.new → IsGoing w.old }
    ensures written { Wrote (λ c. value_size c + 2) (λ c at rest. value c at (step.bind name.now at rest)) (code.expression e.now) (one (uses.expression e.now) (λ u. uses.both (uses.use_of name.now) u)) here w.old w.new }
{
    let between = uses_in(e, 0);
    let place = w.place(between);
    bind(w, &Reference::Name(name, place), here);
    value(w, e, here);
    w.pass(1, 0);
}

/// What a `var` declares, each with its value, if it has one (ECMA-262 5.1 §12.2).
pub fn declare(w: &mut Writer<'_>, list: &Items<(Text, Option<Expr>)>, here: Here)
    ensures stays { IsGoing w.new → IsGoing w.old }
    ensures written { Wrote step.declare_size step.declare (declared_in list.now) (declared_uses list.now) here w.old w.new }
{
    let list = list.as_slice();
    for i in (0..list.len()).rev() {
        let variable = &list[i];
        if let Some(e) = &variable.1 {
            declare_one(w, &variable.0, e, here);
        }
    }
}

/// What stands first in the head of a `for` (ECMA-262 5.1 §12.6.3).
pub fn first_if_any(w: &mut Writer<'_>, part: &Option<ForFirst>, here: Here)
    ensures stays { IsGoing w.new → IsGoing w.old }
    ensures written { WrotePart (one (first part.now) step.first_of) (first_uses part.now) here w.old w.new }
{
    match part {
        None => {}
        Some(ForFirst::Var(list)) => declare(w, list, here),
        Some(ForFirst::Expr(e)) => evaluate(w, e, here),
    }
}

// What assigns the next name of a list.
fn assign_next(w: &mut Writer<'_>, r: &Reference<'_>, here: Here)
    ensures stays { IsGoing w.new → IsGoing w.old }
    ensures written { (at : emit.Here) (d : Draft) → (IsGoing w.old → IsPlaced r.now at.names) → Stands here at → Holds w.old d → Holds w.new (record d { ops = emit.op SomeKind.NextName (emit.deeper (emit.width (form_of r.now)) at) (emit.assign_to (form_of r.now) at (emit.op SomeKind.Drop (emit.deeper 1 at) d.ops)); count = suc (suc (suc d.count)) }) }
{
    bind(w, r, here);
    w.write(Kind::NextName, over(here, r, 0));
}

/// What a turn of a `for in` begins with: the next name goes into the head (ECMA-262 5.1 §12.6.4).
pub fn next_name(w: &mut Writer<'_>, head: &ForInHead, here: Here)
    ensures stays { IsGoing w.new → IsGoing w.old }
    ensures written { Wrote (λ c. c.size + 3) step.next_name (code.head head.now) (uses.head head.now) here w.old w.new }
{
    match head {
        ForInHead::Var(name) => {
            let place = w.place(0);
            assign_next(w, &Reference::Name(name, place), here);
            w.pass(1, 0);
        }
        ForInHead::Target(e) => {
            let r = reference_of(w, e, 0);
            assign_next(w, &r, here);
            target(w, e, here);
        }
    }
}

/// The statement of a `var` (ECMA-262 5.1 §12.2).
pub fn variables(w: &mut Writer<'_>, list: &Items<(Text, Option<Expr>)>, here: Here)
    ensures stays { IsGoing w.new → IsGoing w.old }
    ensures written { (ls : List (List ℕ)) → WroteLabelled ls (one (one (declared_in list.now) step.declaring) step.statement_of) (declared_uses list.now) here w.old w.new }
{
    declare(w, list, here);
    w.write(Kind::Charge, here);
}

/// The statement of an expression (ECMA-262 5.1 §12.4).
pub fn expression(w: &mut Writer<'_>, e: &Expr, here: Here)
    ensures stays { IsGoing w.new → IsGoing w.old }
    ensures written { (ls : List (List ℕ)) → WroteLabelled ls (one (code.expression e.now) (λ a. step.statement_of (step.evaluate a))) (uses.expression e.now) here w.old w.new }
{
    evaluate(w, e, here);
    w.write(Kind::Charge, here);
}

/// What ends a turn or a loop (ECMA-262 5.1 §12.7, §12.8).
pub fn ends(w: &mut Writer<'_>, kind: Kind, here: Here)
    ensures stays { IsGoing w.new → IsGoing w.old }
    ensures written { (k : SomeKind) (ls : List (List ℕ)) → (IsGoing w.old → kind ≡ k) → WroteLabelled ls (leaf (step.ends_with k)) (leaf uses.none) here w.old w.new }
{
    w.write(kind, here);
    w.write(Kind::Charge, here);
}

/// A `return` (ECMA-262 5.1 §12.9).
pub fn returns(w: &mut Writer<'_>, e: &Option<Expr>, here: Here)
    ensures stays { IsGoing w.new → IsGoing w.old }
    ensures written { (ls : List (List ℕ)) → WroteLabelled ls (one (optional e.now) step.return) (optional_uses e.now) here w.old w.new }
{
    w.write(Kind::Return, here.deeper(1));
    value_or_undefined(w, e, here);
    w.write(Kind::Charge, here);
}

/// A `throw` (ECMA-262 5.1 §12.13).
pub fn throws(w: &mut Writer<'_>, e: &Expr, here: Here)
    ensures stays { IsGoing w.new → IsGoing w.old }
    ensures written { (ls : List (List ℕ)) → WroteLabelled ls (one (code.expression e.now) step.throw_value) (uses.expression e.now) here w.old w.new }
{
    w.write(Kind::Throw, here.deeper(1));
    value(w, e, here);
    w.write(Kind::Charge, here);
}

/// The declaration of a function, which was made as the function around it began (ECMA-262 5.1 §10.5, §13).
pub fn declaration(w: &mut Writer<'_>, f: &FunctionTree, here: Here)
    ensures stays { IsGoing w.new → IsGoing w.old }
    ensures written { (ls : List (List ℕ)) → WroteLabelled ls (one (code.function f.now) declaration) (one (uses.function f.now) uses.declared_function) here w.old w.new }
{
    pass_function(w, f);
    w.write(Kind::Charge, here);
}

/// A statement that does nothing (ECMA-262 5.1 §12.3).
pub fn empty(w: &mut Writer<'_>, here: Here)
    ensures stays { IsGoing w.new → IsGoing w.old }
    ensures written { (ls : List (List ℕ)) → WroteLabelled ls (leaf step.empty) (leaf uses.none) here w.old w.new }
{
    w.write(Kind::Charge, here);
}

/// In the part that ends where what is written begins; none where something was refused.
pub fn ended(w: &Writer<'_>, here: Here) -> Option<Here>
    ensures { Within w.now here result }
{
    if w.is_going() {
        Some(here.inside(w.address()))
    } else {
        None
    }
}
