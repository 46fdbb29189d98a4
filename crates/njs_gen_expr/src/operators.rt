// What stands behind the parts of an expression, and does not lead back to expressions.
ghost use Rattle.std.specs.Prelude.{ℕ, suc, List, ◌≡◌, ◌+◌, ◌++◌, length, pos};
ghost use Rattle.std.specs.Fmt.{decimal};
ghost use Rattle.njs_code.specs.declared.op.Kind.{Kind as SomeKind};
ghost use Rattle.njs_meaning.specs.declared.place.Place.{Place as SomePlace};
ghost use Rattle.njs_meaning.specs.Parts.{leaf};
ghost use Rattle.njs_meaning.specs.Places.{Around};
ghost use Rattle.njs_simul.specs.Emission as emit;
ghost use Rattle.njs_simul.specs.Compiled as code;
ghost use Rattle.njs_scope.specs.Uses as uses;
ghost use Rattle.njs_gen_expr.specs.Written.{IsGoing, Draft, Holds, Stands};
ghost use Rattle.njs_gen_expr.specs.References.{form_of, IsPlaced, operator_count, operator_emits};
ghost use Rattle.njs_gen_expr.specs.Parts.{WroteTarget};

use crate::count::uses_in;
use crate::reference::{
    Reference, assign_to, delete_at, fetch, over, reference_of, type_of, width,
};
use crate::{Here, Writer};
use njs_code::Kind;
use njs_ops::{Prim, text_of};
use njs_text::{NoMemory, Text};
use njs_tree::{Expr, ExprNode, UnaryOp, UpdateOp};

/// What the target of an assignment is, where the value is still to be written behind it.
#[tactic(auto, using(crate::proofs::Trees::trees), unfolding(njs_simul::specs::Compiled::expression, njs_scope::specs::Uses::expression))]
pub fn assigned<'a>(w: &Writer<'_>, a: &'a Expr, b: &Expr) -> Reference<'a>
    ensures form { (first : ℕ) → form_of result ≡ ((code.expression a.now).means first).form }
    ensures placed { (d : Draft) (front : List SomePlace) (names : Around) (start later : ℕ) → IsGoing w.now → Holds w.now d → d.places ≡ front ++ (((uses.expression a.now).means start).places names ++ ((uses.expression b.now).means later).places names) → IsPlaced result names }
{
    match &a.node {
        ExprNode::Name(_) => {
            let between = uses_in(b, 0);
            reference_of(w, a, between)
        }
        ExprNode::Member(_, _) | ExprNode::Index(_, _) => Reference::Member,
        _ => Reference::Value,
    }
}

/// An expression that is one operation.
pub fn constant(w: &mut Writer<'_>, kind: Kind, here: Here)
    ensures stays { IsGoing w.new → IsGoing w.old }
    ensures written { (k : SomeKind) → (IsGoing w.old → kind ≡ k) → WroteTarget (leaf (emit.constant k)) (leaf uses.none) here w.old w.new }
{
    w.write(kind, here);
    w.write(Kind::Charge, here);
}

/// A number (ECMA-262 5.1 §7.8.3).
pub fn number(w: &mut Writer<'_>, number: &i64, here: Here)
    ensures stays { IsGoing w.new → IsGoing w.old }
    ensures written { WroteTarget (leaf (emit.constant (SomeKind.Num number.now))) (leaf uses.none) here w.old w.new }
{
    constant(w, Kind::Num(*number), here);
}

/// A string (ECMA-262 5.1 §7.8.4).
pub fn string(w: &mut Writer<'_>, text: &Text, here: Here)
    ensures stays { IsGoing w.new → IsGoing w.old }
    ensures written { WroteTarget (leaf (emit.constant (SomeKind.Str text.now))) (leaf uses.none) here w.old w.new }
{
    let copy = w.copy(text);
    constant(w, Kind::Str(copy), here);
}

/// A name (ECMA-262 5.1 §11.1.2).
pub fn name(w: &mut Writer<'_>, here: Here)
    ensures stays { IsGoing w.new → IsGoing w.old }
    ensures written { (text : List ℕ) → WroteTarget (code.name_part text) (uses.name_part text) here w.old w.new }
{
    w.pass(1, 0);
    w.write(Kind::Charge, here);
}

/// The name of a member, on top of what it is a member of (ECMA-262 5.1 §11.2.1).
pub fn key(w: &mut Writer<'_>, name: &Text, here: Here)
    ensures stays { IsGoing w.new → IsGoing w.old }
    ensures written { (at : emit.Here) (d : Draft) → Stands here at → Holds w.old d → Holds w.new (record d { ops = emit.op SomeKind.Base (emit.deeper 1 at) (emit.op (SomeKind.Str name.now) (emit.deeper 1 at) d.ops); count = suc (suc d.count) }) }
{
    let copy = w.copy(name);
    w.write(Kind::Str(copy), here.deeper(1));
    w.write(Kind::Base, here.deeper(1));
}

/// What `++` or `--` before its target does with the number (ECMA-262 5.1 §11.4.4, §11.4.5).
pub fn step_before(w: &mut Writer<'_>, op: UpdateOp, r: &Reference<'_>, here: Here)
    ensures stays { IsGoing w.new → IsGoing w.old }
    ensures written { (at : emit.Here) (d : Draft) → (IsGoing w.old → IsPlaced r.now at.names) → Stands here at → Holds w.old d → Holds w.new (record d { ops = emit.op SomeKind.ToNumber (emit.deeper (suc (emit.width (form_of r.now))) at) (emit.op (SomeKind.Step op) (emit.deeper (suc (emit.width (form_of r.now))) at) (emit.assign_to (form_of r.now) at d.ops)); count = suc (suc (suc d.count)) }) }
{
    assign_to(w, r, here);
    w.write(Kind::Step(op), over(here, r, 1));
    w.write(Kind::ToNumber, over(here, r, 1));
}

/// What `++` or `--` behind its target does with the number (ECMA-262 5.1 §11.3).
pub fn step_behind(w: &mut Writer<'_>, op: UpdateOp, r: &Reference<'_>, here: Here)
    ensures stays { IsGoing w.new → IsGoing w.old }
    ensures written { (at : emit.Here) (d : Draft) → (IsGoing w.old → IsPlaced r.now at.names) → Stands here at → Holds w.old d → Holds w.new (record d { ops = emit.op SomeKind.ToNumber (emit.deeper (suc (emit.width (form_of r.now))) at) (emit.op (SomeKind.Tuck (emit.width (form_of r.now))) (emit.deeper (suc (emit.width (form_of r.now))) at) (emit.op (SomeKind.Step op) (emit.deeper (suc (suc (emit.width (form_of r.now)))) at) (emit.assign_to (form_of r.now) (emit.deeper 1 at) (emit.op SomeKind.Drop (emit.deeper 2 at) d.ops)))); count = suc (suc (suc (suc (suc d.count)))) }) }
{
    w.write(Kind::Drop, here.deeper(2));
    assign_to(w, r, here.deeper(1));
    w.write(Kind::Step(op), over(here, r, 2));
    w.write(Kind::Tuck(width(r)), over(here, r, 1));
    w.write(Kind::ToNumber, over(here, r, 1));
}

/// An operator of one value behind its operand, a target (ECMA-262 5.1 §11.4).
pub fn operator(w: &mut Writer<'_>, op: UnaryOp, r: &Reference<'_>, here: Here)
    ensures stays { IsGoing w.new → IsGoing w.old }
    ensures written { (at : emit.Here) (d : Draft) → (IsGoing w.old → IsPlaced r.now at.names) → Stands here at → Holds w.old d → Holds w.new (record d { ops = operator_emits op (form_of r.now) at d.ops; count = operator_count op (form_of r.now) + d.count }) }
{
    match op {
        UnaryOp::Delete => delete_at(w, r, here),
        UnaryOp::TypeOf => type_of(w, r, here),
        _ => {
            w.write(Kind::Unary(op), here.deeper(1));
            fetch(w, r, here);
        }
    }
}

/// A number of parts, as an operation holds it.
pub fn counted(w: &mut Writer<'_>, parts: usize) -> u32
    ensures stays { IsGoing w.new → IsGoing w.old }
    ensures given { IsGoing w.new → result ≡ parts }
    ensures holds { (d : Draft) → Holds w.old d → Holds w.new d }
{
    match u32::try_from(parts) {
        Ok(count) => count,
        Err(_) => {
            w.refuse();
            0
        }
    }
}

// A number of parts, as a number of a script.
fn integer(w: &mut Writer<'_>, parts: usize) -> i64
    ensures stays { IsGoing w.new → IsGoing w.old }
    ensures given { IsGoing w.new → result ≡ pos parts }
    ensures holds { (d : Draft) → Holds w.old d → Holds w.new d }
{
    match i64::try_from(parts) {
        Ok(count) => count,
        Err(_) => {
            w.refuse();
            0
        }
    }
}

/// The name of an element (ECMA-262 5.1 §15.4).
pub fn element_name(w: &mut Writer<'_>, index: usize) -> Text
    ensures stays { IsGoing w.new → IsGoing w.old }
    ensures given { IsGoing w.new → result ≡ decimal index }
    ensures holds { (d : Draft) → Holds w.old d → Holds w.new d }
{
    let number = integer(w, index);
    match text_of(w.alloc(), Prim::Num(number)) {
        Ok(text) => text,
        Err(NoMemory) => {
            w.refuse();
            Text::fixed("")
        }
    }
}

/// The length of an array, which its elements alone don't tell (ECMA-262 5.1 §11.1.4).
pub fn with_length(w: &mut Writer<'_>, length: usize, here: Here)
    ensures stays { IsGoing w.new → IsGoing w.old }
    ensures written { (at : emit.Here) (d : Draft) → Stands here at → Holds w.old d → Holds w.new (record d { ops = emit.with_length length at d.ops; count = emit.on 5 d.count }) }
{
    w.write(Kind::Drop, here.deeper(2));
    w.write(Kind::Put, here.deeper(4));
    let number = integer(w, length);
    w.write(Kind::Num(number), here.deeper(3));
    w.write(Kind::Str(Text::fixed("length")), here.deeper(2));
    w.write(Kind::Tuck(0), here.deeper(1));
}
