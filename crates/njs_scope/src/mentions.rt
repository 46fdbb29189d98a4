// Whether expressions name `arguments`. None declares anything, which the walk over them shows beside.
#![tactic(auto, using(crate::proofs::Trees::trees), unfolding(crate::specs::Uses::expression))]

ghost use Rattle.std.specs.Prelude.{◌≡◌, ℕ, [], codes};
ghost use Rattle.njs_scope.specs.Uses.{expression};
ghost use Rattle.njs_scope.specs.Walked.{expressions, elements, properties, variables};

use njs_text::Text;
use njs_tree::{Expr, ExprNode};

/// The name `arguments`.
pub fn arguments() -> Text
    ensures { result ≡ codes "arguments" }
{
    Text::fixed("arguments")
}

/// Whether an expression names `arguments` outside the functions in it (ECMA-262 5.1 §10.6). It declares nothing.
#[cycle(mentions)]
pub fn in_expression(e: &Expr) -> bool
    ensures names { result ≡ (expression e.now).names_arguments }
    ensures vars { (expression e.now).vars ≡ [] }
    ensures declared { (first : ℕ) → (expression e.now).declared first ≡ [] }
{
    match &e.node {
        ExprNode::Comma(a, b)
        | ExprNode::Assign(_, a, b)
        | ExprNode::Logical(_, a, b)
        | ExprNode::Binary(_, a, b)
        | ExprNode::Index(a, b) => {
            let later = in_expression(b.get());
            in_expression(a.get()) || later
        }
        ExprNode::Cond(a, b, c) => {
            let last = in_expression(c.get());
            let later = in_expression(b.get());
            in_expression(a.get()) || later || last
        }
        ExprNode::Unary(_, a) | ExprNode::Member(a, _) | ExprNode::Update { target: a, .. } => {
            in_expression(a.get())
        }
        ExprNode::Call(callee, list) | ExprNode::New(callee, list) => {
            let later = in_expressions(list.as_slice());
            in_expression(callee.get()) || later
        }
        ExprNode::Array(list) => in_elements(list.as_slice()),
        ExprNode::Object(list) => in_properties(list.as_slice()),
        ExprNode::Name(name) => *name == arguments(),
        ExprNode::Function(_)
        | ExprNode::Num(_)
        | ExprNode::Str(_)
        | ExprNode::This
        | ExprNode::Null
        | ExprNode::Bool(_) => false,
    }
}

#[cycle(mentions)]
fn in_expressions(list: &[Expr]) -> bool
    ensures names { result ≡ (expressions list.now).names_arguments }
    ensures vars { (expressions list.now).vars ≡ [] }
    ensures declared { (first : ℕ) → (expressions list.now).declared first ≡ [] }
{
    let mut later = false;
    for i in (0..list.len()).rev() {
        later = in_expression(&list[i]) || later;
    }
    later
}

#[cycle(mentions)]
fn in_elements(list: &[Option<Expr>]) -> bool
    ensures names { result ≡ (elements list.now).names_arguments }
    ensures vars { (elements list.now).vars ≡ [] }
    ensures declared { (first : ℕ) → (elements list.now).declared first ≡ [] }
{
    let mut later = false;
    for i in (0..list.len()).rev() {
        if let Some(e) = &list[i] {
            later = in_expression(e) || later;
        }
    }
    later
}

#[cycle(mentions)]
fn in_properties(list: &[(Text, Expr)]) -> bool
    ensures names { result ≡ (properties list.now).names_arguments }
    ensures vars { (properties list.now).vars ≡ [] }
    ensures declared { (first : ℕ) → (properties list.now).declared first ≡ [] }
{
    let mut later = false;
    for i in (0..list.len()).rev() {
        later = in_expression(&list[i].1) || later;
    }
    later
}

/// The same of the values of a `var`.
pub fn in_variables(list: &[(Text, Option<Expr>)]) -> bool
    ensures names { result ≡ (variables list.now).names_arguments }
    ensures vars { (variables list.now).vars ≡ [] }
    ensures declared { (first : ℕ) → (variables list.now).declared first ≡ [] }
{
    let mut later = false;
    for i in (0..list.len()).rev() {
        if let Some(e) = &list[i].1 {
            later = in_expression(e) || later;
        }
    }
    later
}
