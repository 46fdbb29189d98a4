// What expressions are before their values are asked.
ghost use Rattle.std.specs.Prelude.{ℕ, suc, List, ◌≡◌, ◌+◌, ◌++◌, length};
ghost use Rattle.njs_meaning.specs.declared.place.Place.{Place as SomePlace};
ghost use Rattle.njs_meaning.specs.Places.{Around};
ghost use Rattle.njs_simul.specs.Emission as emit;
ghost use Rattle.njs_simul.specs.Compiled as code;
ghost use Rattle.njs_scope.specs.Uses as uses;
ghost use Rattle.njs_gen_expr.specs.Written.{IsGoing, Draft, Holds, Stands, most};
ghost use Rattle.njs_gen_expr.specs.References.{form_of, IsPlaced};

use crate::{Here, Writer};
use njs_code::{Failure, Kind};
use njs_meaning::Place;
use njs_text::Text;
use njs_tree::{Expr, ExprNode, UnaryOp};

/// What an expression is before its value is asked: a name has its place.
#[derive(Clone, Copy)]
pub enum Reference<'a> {
    Value,
    Name(&'a Text, Place),
    Member,
}

/// What an expression is that stands in front of what is written, with so many names in use between them.
#[tactic(auto, using(crate::proofs::Trees::trees), unfolding(njs_simul::specs::Compiled::expression, njs_scope::specs::Uses::expression))]
pub fn reference_of<'a>(w: &Writer<'_>, e: &'a Expr, between: usize) -> Reference<'a>
    ensures form { (first : ℕ) → form_of result ≡ ((code.expression e.now).means first).form }
    ensures placed { (d : Draft) (front tail : List SomePlace) (names : Around) (start : ℕ) → IsGoing w.now → Holds w.now d → d.places ≡ front ++ (((uses.expression e.now).means start).places names ++ tail) → between ≡ most (length tail) → IsPlaced result names }
{
    match &e.node {
        ExprNode::Name(text) => Reference::Name(text, w.place(between)),
        ExprNode::Member(_, _) | ExprNode::Index(_, _) => Reference::Member,
        _ => Reference::Value,
    }
}

/// How many operands stand for a reference.
pub fn width(r: &Reference<'_>) -> u32
    ensures { result ≡ emit.width (form_of r.now) }
{
    match r {
        Reference::Value => 1,
        Reference::Name(_, _) => 0,
        Reference::Member => 2,
    }
}

/// With the operands of a reference, and so many more.
pub fn over(here: Here, r: &Reference<'_>, more: usize) -> Here
    ensures { (at : emit.Here) → Stands here at → Stands result (emit.deeper (emit.on more (emit.width (form_of r.now))) at) }
{
    here.beyond(width(r) as usize, more)
}

// What reads a name.
fn load(w: &mut Writer<'_>, text: &Text, place: Place) -> Kind
    ensures stays { IsGoing w.new → IsGoing w.old }
    ensures given { IsGoing w.new → result ≡ emit.load text.now place }
    ensures holds { (d : Draft) → Holds w.old d → Holds w.new d }
{
    match place {
        Place::Slot { up, slot, .. } => Kind::Load { up, slot },
        Place::Global { slot, .. } => Kind::LoadGlobal(slot),
        Place::Nowhere => Kind::Fail(Failure::NotDefined(w.copy(text))),
    }
}

// What assigns to a name.
fn store(w: &mut Writer<'_>, text: &Text, place: Place) -> Kind
    ensures stays { IsGoing w.new → IsGoing w.old }
    ensures given { IsGoing w.new → result ≡ emit.store text.now place }
    ensures holds { (d : Draft) → Holds w.old d → Holds w.new d }
{
    match place {
        Place::Slot {
            up,
            slot,
            assignable: true,
        } => Kind::Store { up, slot },
        Place::Global {
            slot,
            assignable: true,
        } => Kind::StoreGlobal(slot),
        Place::Nowhere => Kind::Fail(Failure::NotDefined(w.copy(text))),
        _ => Kind::Fail(Failure::ReadOnly),
    }
}

/// The value on top goes into the reference below it, and stays (ECMA-262 5.1 §8.7.2).
pub fn assign_to(w: &mut Writer<'_>, r: &Reference<'_>, here: Here)
    ensures stays { IsGoing w.new → IsGoing w.old }
    ensures written { (at : emit.Here) (d : Draft) → (IsGoing w.old → IsPlaced r.now at.names) → Stands here at → Holds w.old d → Holds w.new (record d { ops = emit.assign_to (form_of r.now) at d.ops; count = suc d.count }) }
{
    match r {
        Reference::Value => w.write(Kind::Nip, here.deeper(2)),
        Reference::Name(text, place) => {
            let kind = store(w, text, *place);
            w.write(kind, here.deeper(1));
        }
        Reference::Member => w.write(Kind::Put, here.deeper(3)),
    }
}

/// The value in place of the reference (ECMA-262 5.1 §8.7.1).
pub fn fetch(w: &mut Writer<'_>, r: &Reference<'_>, here: Here)
    ensures stays { IsGoing w.new → IsGoing w.old }
    ensures written { (at : emit.Here) (d : Draft) → (IsGoing w.old → IsPlaced r.now at.names) → Stands here at → Holds w.old d → Holds w.new (record d { ops = emit.fetch (form_of r.now) at d.ops; count = emit.fetch_size (form_of r.now) + d.count }) }
{
    match r {
        Reference::Value => {}
        Reference::Name(text, place) => {
            let kind = load(w, text, *place);
            w.write(kind, here);
        }
        Reference::Member => w.write(Kind::Get, here.deeper(2)),
    }
}

/// The value on top of the reference.
pub fn fetch_kept(w: &mut Writer<'_>, r: &Reference<'_>, here: Here)
    ensures stays { IsGoing w.new → IsGoing w.old }
    ensures written { (at : emit.Here) (d : Draft) → (IsGoing w.old → IsPlaced r.now at.names) → Stands here at → Holds w.old d → Holds w.new (record d { ops = emit.fetch_kept (form_of r.now) at d.ops; count = suc d.count }) }
{
    match r {
        Reference::Value => w.write(Kind::Tuck(0), here.deeper(1)),
        Reference::Name(text, place) => {
            let kind = load(w, text, *place);
            w.write(kind, here);
        }
        Reference::Member => w.write(Kind::GetKept, here.deeper(2)),
    }
}

/// What is called, on top of its `this` (ECMA-262 5.1 §11.2.3).
pub fn method(w: &mut Writer<'_>, r: &Reference<'_>, here: Here)
    ensures stays { IsGoing w.new → IsGoing w.old }
    ensures written { (at : emit.Here) (d : Draft) → (IsGoing w.old → IsPlaced r.now at.names) → Stands here at → Holds w.old d → Holds w.new (record d { ops = emit.method (form_of r.now) at d.ops; count = emit.method_size (form_of r.now) + d.count }) }
{
    match r {
        Reference::Value => w.write(Kind::Receiver, here.deeper(1)),
        Reference::Name(text, place) => {
            w.write(Kind::Receiver, here.deeper(1));
            let kind = load(w, text, *place);
            w.write(kind, here);
        }
        Reference::Member => w.write(Kind::Method, here.deeper(2)),
    }
}

/// `delete` behind its operand (ECMA-262 5.1 §11.4.1).
pub fn delete_at(w: &mut Writer<'_>, r: &Reference<'_>, here: Here)
    ensures stays { IsGoing w.new → IsGoing w.old }
    ensures written { (at : emit.Here) (d : Draft) → Stands here at → Holds w.old d → Holds w.new (record d { ops = emit.delete_at (form_of r.now) at d.ops; count = emit.delete_size (form_of r.now) + d.count }) }
{
    match r {
        Reference::Value => {
            w.write(Kind::Bool(true), here);
            w.write(Kind::Drop, here.deeper(1));
        }
        Reference::Name(_, _) => w.write(Kind::Bool(true), here),
        Reference::Member => w.write(Kind::DeleteMember, here.deeper(2)),
    }
}

// What reads a name for `typeof`, which doesn't throw where the name is bound nowhere (ECMA-262 5.1 §11.4.3).
fn value_for_type(w: &mut Writer<'_>, text: &Text, place: Place) -> Kind
    ensures stays { IsGoing w.new → IsGoing w.old }
    ensures given { IsGoing w.new → result ≡ emit.value_for_type text.now place }
    ensures holds { (d : Draft) → Holds w.old d → Holds w.new d }
{
    match place {
        Place::Nowhere => Kind::Undefined,
        _ => load(w, text, place),
    }
}

/// `typeof` behind its operand (ECMA-262 5.1 §11.4.3).
pub fn type_of(w: &mut Writer<'_>, r: &Reference<'_>, here: Here)
    ensures stays { IsGoing w.new → IsGoing w.old }
    ensures written { (at : emit.Here) (d : Draft) → (IsGoing w.old → IsPlaced r.now at.names) → Stands here at → Holds w.old d → Holds w.new (record d { ops = emit.type_of (form_of r.now) at d.ops; count = emit.type_size (form_of r.now) + d.count }) }
{
    w.write(Kind::Unary(UnaryOp::TypeOf), here.deeper(1));
    match r {
        Reference::Value => {}
        Reference::Name(text, place) => {
            let kind = value_for_type(w, text, *place);
            w.write(kind, here);
        }
        Reference::Member => w.write(Kind::Get, here.deeper(2)),
    }
}
