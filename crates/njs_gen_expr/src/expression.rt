//! The code of an expression (ECMA-262 5.1 §11), which begins with one tick. The recursion is as deep as the tree.
ghost use Rattle.std.specs.Prelude.{ℕ, suc, List, map, ◌≡◌, ◌+◌, ◌++◌};
ghost use Rattle.std.specs.Option.{option_map};
ghost use Rattle.njs_meaning.specs.Parts.{one, each, each_held, each_named};
ghost use Rattle.njs_simul.specs.Emission as emit;
ghost use Rattle.njs_simul.specs.Compiled as code;
ghost use Rattle.njs_scope.specs.Uses as uses;
ghost use Rattle.njs_gen_expr.specs.Written.{IsGoing, Draft, Holds, Stands};
ghost use Rattle.njs_gen_expr.specs.Parts.{Wrote, WroteTarget, WroteValue, begun_count, begun_target, begun_value};

use crate::closure::closure;
use crate::operators::{
    assigned, constant, counted, element_name, key, name, number, operator, step_before,
    step_behind, string, with_length,
};
use crate::reference::{assign_to, fetch, fetch_kept, method, over, reference_of};
use crate::{Here, Writer};
use njs_code::Kind;
use njs_text::Text;
use njs_tree::{Expr, ExprNode};
use sqlite_items::Items;

/// Writes the operations that give the value of an expression.
#[cycle(expression)]
pub fn value(w: &mut Writer<'_>, e: &Expr, here: Here)
    ensures stays { IsGoing w.new → IsGoing w.old }
    ensures written { WroteValue (code.expression e.now) (uses.expression e.now) here w.old w.new }
{
    let r = reference_of(w, e, 0);
    fetch(w, &r, here);
    target(w, e, here);
}

// The first part of an expression, its value, and the tick before it.
#[cycle(expression)]
fn first(w: &mut Writer<'_>, e: &Expr, here: Here)
    ensures stays { IsGoing w.new → IsGoing w.old }
    ensures written { Wrote begun_count begun_value (code.expression e.now) (uses.expression e.now) here w.old w.new }
{
    value(w, e, here);
    w.write(Kind::Charge, here);
}

// The same of a part that is a target.
#[cycle(expression)]
fn first_target(w: &mut Writer<'_>, e: &Expr, here: Here)
    ensures stays { IsGoing w.new → IsGoing w.old }
    ensures written { Wrote (λ c. suc c.size) begun_target (code.expression e.now) (uses.expression e.now) here w.old w.new }
{
    target(w, e, here);
    w.write(Kind::Charge, here);
}

/// Writes the operations of an expression that is a target, all but what asks for its value.
#[cycle(expression)]
pub fn target(w: &mut Writer<'_>, e: &Expr, here: Here)
    ensures stays { IsGoing w.new → IsGoing w.old }
    ensures written { WroteTarget (code.expression e.now) (uses.expression e.now) here w.old w.new }
{
    match &e.node {
        ExprNode::Comma(a, b) => {
            value(w, b.get(), here);
            w.write(Kind::Drop, here.deeper(1));
            first(w, a.get(), here);
        }
        ExprNode::Assign(None, a, b) => {
            let r = assigned(w, a.get(), b.get());
            assign_to(w, &r, here);
            value(w, b.get(), over(here, &r, 0));
            first_target(w, a.get(), here);
        }
        ExprNode::Assign(Some(op), a, b) => {
            let r = assigned(w, a.get(), b.get());
            assign_to(w, &r, here);
            w.write(Kind::Binary(*op), over(here, &r, 2));
            value(w, b.get(), over(here, &r, 1));
            fetch_kept(w, &r, here);
            first_target(w, a.get(), here);
        }
        ExprNode::Cond(a, b, c) => {
            let past = w.address();
            value(w, c.get(), here);
            let other = w.address();
            w.write(Kind::Jump(past), here.deeper(1));
            value(w, b.get(), here);
            w.write(Kind::JumpFalse(other), here.deeper(1));
            first(w, a.get(), here);
        }
        ExprNode::Logical(op, a, b) => {
            let past = w.address();
            value(w, b.get(), here);
            w.write(Kind::JumpLogical(*op, past), here.deeper(1));
            first(w, a.get(), here);
        }
        ExprNode::Binary(op, a, b) => {
            w.write(Kind::Binary(*op), here.deeper(2));
            value(w, b.get(), here.deeper(1));
            first(w, a.get(), here);
        }
        ExprNode::Index(a, b) => {
            w.write(Kind::Key, here.deeper(2));
            value(w, b.get(), here.deeper(1));
            first(w, a.get(), here);
        }
        ExprNode::Unary(op, a) => {
            let r = reference_of(w, a.get(), 0);
            operator(w, *op, &r, here);
            first_target(w, a.get(), here);
        }
        ExprNode::Update {
            op,
            prefix: true,
            target: a,
        } => {
            let r = reference_of(w, a.get(), 0);
            step_before(w, *op, &r, here);
            fetch_kept(w, &r, here);
            first_target(w, a.get(), here);
        }
        ExprNode::Update {
            op,
            prefix: false,
            target: a,
        } => {
            let r = reference_of(w, a.get(), 0);
            step_behind(w, *op, &r, here);
            fetch_kept(w, &r, here);
            first_target(w, a.get(), here);
        }
        ExprNode::Member(object, text) => {
            key(w, text, here);
            first(w, object.get(), here);
        }
        ExprNode::Call(callee, arguments) => {
            let count = counted(w, arguments.len());
            w.write(Kind::Call(count), here.beyond(2, arguments.len()));
            values(w, arguments, here.deeper(2));
            let r = reference_of(w, callee.get(), 0);
            method(w, &r, here);
            first_target(w, callee.get(), here);
        }
        ExprNode::New(callee, arguments) => {
            let count = counted(w, arguments.len());
            w.write(Kind::New(count), here.beyond(1, arguments.len()));
            values(w, arguments, here.deeper(1));
            first(w, callee.get(), here);
        }
        ExprNode::Array(list) => {
            with_length(w, list.len(), here);
            elements(w, list, here);
            w.write(Kind::NewArray, here);
            w.write(Kind::Charge, here);
        }
        ExprNode::Object(list) => {
            fields(w, list, here);
            w.write(Kind::NewObject, here);
            w.write(Kind::Charge, here);
        }
        ExprNode::Function(f) => closure(w, f, here),
        ExprNode::Name(_) => name(w, here),
        ExprNode::Num(n) => number(w, n, here),
        ExprNode::Str(text) => string(w, text, here),
        ExprNode::This => constant(w, Kind::This, here),
        ExprNode::Null => constant(w, Kind::Null, here),
        ExprNode::Bool(value) => constant(w, Kind::Bool(*value), here),
    }
}

// Values one after the other, each on top of those in front of it.
#[cycle(expression)]
fn values(w: &mut Writer<'_>, list: &Items<Expr>, here: Here)
    ensures stays { IsGoing w.new → IsGoing w.old }
    ensures written { Wrote emit.values_size emit.values (each (map code.expression list.now)) (uses.all_of (map uses.expression list.now)) here w.old w.new }
{
    let list = list.as_slice();
    for i in (0..list.len()).rev() {
        value(w, &list[i], here.deeper(i));
    }
}

// The elements of an array, which stands below them.
#[cycle(expression)]
fn elements(w: &mut Writer<'_>, list: &Items<Option<Expr>>, here: Here)
    ensures stays { IsGoing w.new → IsGoing w.old }
    ensures written { Wrote emit.elements_size (emit.elements 0) (each_held (map (option_map code.expression) list.now)) (one (each_held (map (option_map uses.expression) list.now)) uses.all_held) here w.old w.new }
{
    let list = list.as_slice();
    for i in (0..list.len()).rev() {
        if let Some(e) = &list[i] {
            let name = element_name(w, i);
            w.write(Kind::Define(name), here.deeper(2));
            value(w, e, here.deeper(1));
        }
    }
}

// The properties of an object, which stands below them.
#[cycle(expression)]
fn fields(w: &mut Writer<'_>, list: &Items<(Text, Expr)>, here: Here)
    ensures stays { IsGoing w.new → IsGoing w.old }
    ensures written { Wrote emit.fields_size emit.fields (each_named (map (λ p. (p.0, code.expression p.1)) list.now)) (one (each_named (map (λ p. (p.0, uses.expression p.1)) list.now)) uses.all_named) here w.old w.new }
{
    let list = list.as_slice();
    for i in (0..list.len()).rev() {
        let field = &list[i];
        let name = w.copy(&field.0);
        w.write(Kind::Define(name), here.deeper(2));
        value(w, &field.1, here.deeper(1));
    }
}
