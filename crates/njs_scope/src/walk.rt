// The scopes and the places of names in a tree. The walk goes from the end of the text to its beginning, so that the names of a
// scope are put before the scopes in it once these are found. Its recursion is as deep as the tree.
#![tactic(auto, using(crate::proofs::Trees::trees), unfolding(crate::specs::Uses::expression, crate::specs::Uses::statement, crate::specs::Uses::branch, crate::specs::Uses::first, crate::specs::Uses::head, crate::specs::Uses::function, crate::specs::Walked::around_of))]

ghost use Rattle.std.specs.Prelude.{◌≡◌, ℕ, ◌∷◌, ◌++◌, OnOk};
ghost use Rattle.njs_meaning.specs.Places.{place_in};
ghost use Rattle.njs_scope.specs.Uses.{function_expression, expression, statement, function, branch, head};
ghost use Rattle.njs_scope.specs.Walked.{around_of, places_of, scopes_of, expressions, elements, properties, variables, optional, optional_first, statements, branches, caught};

use crate::around::{Around, place_of};
use crate::front::Front;
use crate::names::single;
use crate::scope::scope_names;
use njs_meaning::Place;
use njs_text::{List, NoMemory, Text};
use njs_tree::{Case, Expr, ExprNode, ForFirst, ForInHead, FunctionTree, Stmt, StmtNode};
use std::alloc::Global;

/// The names of the scopes that begin in a part of the text, and the places of the names that it uses.
#[derive(Drop)]
pub struct Found {
    pub scopes: Front<List<(Text, bool)>>,
    pub places: Front<Place>,
}

fn use_name(found: &mut Found, name: &Text, around: &Around<'_>) -> Result<(), NoMemory>
    ensures places { OnOk result (found.new.places ≡ place_in name.now (around_of around.now) ∷ found.old.places) }
    ensures scopes { found.new.scopes ≡ found.old.scopes }
{
    found.places.push(place_of(name, around)?)?;
    Ok(())
}

/// The names that an expression uses, and the scopes in it.
#[cycle(walk)]
pub fn in_expression(
    alloc: Global,
    found: &mut Found,
    e: &Expr,
    around: &Around<'_>,
) -> Result<(), NoMemory>
    ensures places { (first : ℕ) → OnOk result (found.new.places ≡ places_of (expression e.now) first around.now ++ found.old.places) }
    ensures scopes { (first : ℕ) → OnOk result (found.new.scopes ≡ scopes_of (expression e.now) first around.now ++ found.old.scopes) }
{
    match &e.node {
        ExprNode::Comma(a, b)
        | ExprNode::Assign(_, a, b)
        | ExprNode::Logical(_, a, b)
        | ExprNode::Binary(_, a, b)
        | ExprNode::Index(a, b) => {
            in_expression(alloc, found, b.get(), around)?;
            in_expression(alloc, found, a.get(), around)?;
        }
        ExprNode::Cond(a, b, c) => {
            in_expression(alloc, found, c.get(), around)?;
            in_expression(alloc, found, b.get(), around)?;
            in_expression(alloc, found, a.get(), around)?;
        }
        ExprNode::Unary(_, a) | ExprNode::Member(a, _) | ExprNode::Update { target: a, .. } => {
            in_expression(alloc, found, a.get(), around)?
        }
        ExprNode::Call(callee, list) | ExprNode::New(callee, list) => {
            in_expressions(alloc, found, list.as_slice(), around)?;
            in_expression(alloc, found, callee.get(), around)?;
        }
        ExprNode::Array(list) => in_elements(alloc, found, list.as_slice(), around)?,
        ExprNode::Object(list) => in_properties(alloc, found, list.as_slice(), around)?,
        ExprNode::Name(name) => use_name(found, name, around)?,
        ExprNode::Function(f) => in_named(alloc, found, f, around)?,
        ExprNode::Num(_) | ExprNode::Str(_) | ExprNode::This | ExprNode::Null | ExprNode::Bool(_) =>
            {}
    }
    Ok(())
}

#[cycle(walk)]
fn in_expressions(
    alloc: Global,
    found: &mut Found,
    list: &[Expr],
    around: &Around<'_>,
) -> Result<(), NoMemory>
    ensures places { (first : ℕ) → OnOk result (found.new.places ≡ places_of (expressions list.now) first around.now ++ found.old.places) }
    ensures scopes { (first : ℕ) → OnOk result (found.new.scopes ≡ scopes_of (expressions list.now) first around.now ++ found.old.scopes) }
{
    for i in (0..list.len()).rev() {
        in_expression(alloc, found, &list[i], around)?;
    }
    Ok(())
}

#[cycle(walk)]
fn in_elements(
    alloc: Global,
    found: &mut Found,
    list: &[Option<Expr>],
    around: &Around<'_>,
) -> Result<(), NoMemory>
    ensures places { (first : ℕ) → OnOk result (found.new.places ≡ places_of (elements list.now) first around.now ++ found.old.places) }
    ensures scopes { (first : ℕ) → OnOk result (found.new.scopes ≡ scopes_of (elements list.now) first around.now ++ found.old.scopes) }
{
    for i in (0..list.len()).rev() {
        if let Some(e) = &list[i] {
            in_expression(alloc, found, e, around)?;
        }
    }
    Ok(())
}

#[cycle(walk)]
fn in_properties(
    alloc: Global,
    found: &mut Found,
    list: &[(Text, Expr)],
    around: &Around<'_>,
) -> Result<(), NoMemory>
    ensures places { (first : ℕ) → OnOk result (found.new.places ≡ places_of (properties list.now) first around.now ++ found.old.places) }
    ensures scopes { (first : ℕ) → OnOk result (found.new.scopes ≡ scopes_of (properties list.now) first around.now ++ found.old.scopes) }
{
    for i in (0..list.len()).rev() {
        in_expression(alloc, found, &list[i].1, around)?;
    }
    Ok(())
}

// A function expression with a name stands in a scope with that name (ECMA-262 5.1 §13).
#[cycle(walk)]
fn in_named(
    alloc: Global,
    found: &mut Found,
    f: &FunctionTree,
    around: &Around<'_>,
) -> Result<(), NoMemory>
    ensures places { (first : ℕ) → OnOk result (found.new.places ≡ (function_expression ((function f.now).means first)).places (around_of around.now) ++ found.old.places) }
    ensures scopes { (first : ℕ) → OnOk result (found.new.scopes ≡ (function_expression ((function f.now).means first)).scopes (around_of around.now) ++ found.old.scopes) }
{
    match &f.name {
        None => in_function(alloc, found, f, around)?,
        Some(name) => {
            let names = single(alloc, name, false)?;
            in_function(alloc, found, f, &Around::Inside(&names, &*around))?;
            found.scopes.push(names)?;
        }
    }
    Ok(())
}

#[cycle(walk)]
fn in_function(
    alloc: Global,
    found: &mut Found,
    f: &FunctionTree,
    around: &Around<'_>,
) -> Result<(), NoMemory>
    ensures places { (first : ℕ) → OnOk result (found.new.places ≡ ((function f.now).means first).uses.places (around_of around.now) ++ found.old.places) }
    ensures scopes { (first : ℕ) → OnOk result (found.new.scopes ≡ ((function f.now).means first).uses.scopes (around_of around.now) ++ found.old.scopes) }
{
    let names = scope_names(alloc, f)?;
    in_statements(
        alloc,
        found,
        f.body.as_slice(),
        &Around::Inside(&names, &*around),
    )?;
    found.scopes.push(names)?;
    Ok(())
}

#[cycle(walk)]
fn in_any(
    alloc: Global,
    found: &mut Found,
    part: &Option<Expr>,
    around: &Around<'_>,
) -> Result<(), NoMemory>
    ensures places { (first : ℕ) → OnOk result (found.new.places ≡ places_of (optional part.now) first around.now ++ found.old.places) }
    ensures scopes { (first : ℕ) → OnOk result (found.new.scopes ≡ scopes_of (optional part.now) first around.now ++ found.old.scopes) }
{
    match part {
        None => Ok(()),
        Some(e) => in_expression(alloc, found, e, around),
    }
}

// The values of a `var`, and the names that have one.
#[cycle(walk)]
fn in_variables(
    alloc: Global,
    found: &mut Found,
    list: &[(Text, Option<Expr>)],
    around: &Around<'_>,
) -> Result<(), NoMemory>
    ensures places { (first : ℕ) → OnOk result (found.new.places ≡ places_of (variables list.now) first around.now ++ found.old.places) }
    ensures scopes { (first : ℕ) → OnOk result (found.new.scopes ≡ scopes_of (variables list.now) first around.now ++ found.old.scopes) }
{
    for i in (0..list.len()).rev() {
        if let Some(e) = &list[i].1 {
            in_expression(alloc, found, e, around)?;
            use_name(found, &list[i].0, around)?;
        }
    }
    Ok(())
}

#[cycle(walk)]
fn in_first(
    alloc: Global,
    found: &mut Found,
    part: &Option<ForFirst>,
    around: &Around<'_>,
) -> Result<(), NoMemory>
    ensures places { (first : ℕ) → OnOk result (found.new.places ≡ places_of (optional_first part.now) first around.now ++ found.old.places) }
    ensures scopes { (first : ℕ) → OnOk result (found.new.scopes ≡ scopes_of (optional_first part.now) first around.now ++ found.old.scopes) }
{
    match part {
        None => Ok(()),
        Some(ForFirst::Var(list)) => in_variables(alloc, found, list.as_slice(), around),
        Some(ForFirst::Expr(e)) => in_expression(alloc, found, e, around),
    }
}

#[cycle(walk)]
fn in_head(
    alloc: Global,
    found: &mut Found,
    part: &ForInHead,
    around: &Around<'_>,
) -> Result<(), NoMemory>
    ensures places { (first : ℕ) → OnOk result (found.new.places ≡ places_of (head part.now) first around.now ++ found.old.places) }
    ensures scopes { (first : ℕ) → OnOk result (found.new.scopes ≡ scopes_of (head part.now) first around.now ++ found.old.scopes) }
{
    match part {
        ForInHead::Var(name) => use_name(found, name, around),
        ForInHead::Target(target) => in_expression(alloc, found, target, around),
    }
}

/// The names that statements use, and the scopes in them.
#[cycle(walk)]
pub fn in_statements(
    alloc: Global,
    found: &mut Found,
    list: &[Stmt],
    around: &Around<'_>,
) -> Result<(), NoMemory>
    ensures places { (first : ℕ) → OnOk result (found.new.places ≡ places_of (statements list.now) first around.now ++ found.old.places) }
    ensures scopes { (first : ℕ) → OnOk result (found.new.scopes ≡ scopes_of (statements list.now) first around.now ++ found.old.scopes) }
{
    for i in (0..list.len()).rev() {
        in_statement(alloc, found, &list[i], around)?;
    }
    Ok(())
}

#[cycle(walk)]
fn in_branch(
    alloc: Global,
    found: &mut Found,
    part: &Case,
    around: &Around<'_>,
) -> Result<(), NoMemory>
    ensures places { (first : ℕ) → OnOk result (found.new.places ≡ places_of (branch part.now) first around.now ++ found.old.places) }
    ensures scopes { (first : ℕ) → OnOk result (found.new.scopes ≡ scopes_of (branch part.now) first around.now ++ found.old.scopes) }
{
    in_statements(alloc, found, part.body.as_slice(), around)?;
    in_any(alloc, found, &part.test, around)?;
    Ok(())
}

#[cycle(walk)]
fn in_branches(
    alloc: Global,
    found: &mut Found,
    list: &[Case],
    around: &Around<'_>,
) -> Result<(), NoMemory>
    ensures places { (first : ℕ) → OnOk result (found.new.places ≡ places_of (branches list.now) first around.now ++ found.old.places) }
    ensures scopes { (first : ℕ) → OnOk result (found.new.scopes ≡ scopes_of (branches list.now) first around.now ++ found.old.scopes) }
{
    for i in (0..list.len()).rev() {
        in_branch(alloc, found, &list[i], around)?;
    }
    Ok(())
}

// The block of a `catch` stands in a scope with its name (ECMA-262 5.1 §12.14).
#[cycle(walk)]
fn in_caught(
    alloc: Global,
    found: &mut Found,
    name: &Text,
    list: &[Stmt],
    around: &Around<'_>,
) -> Result<(), NoMemory>
    ensures places { (first : ℕ) → OnOk result (found.new.places ≡ ((caught name.now list.now).means first).places (around_of around.now) ++ found.old.places) }
    ensures scopes { (first : ℕ) → OnOk result (found.new.scopes ≡ ((caught name.now list.now).means first).scopes (around_of around.now) ++ found.old.scopes) }
{
    let names = single(alloc, name, true)?;
    in_statements(alloc, found, list, &Around::Inside(&names, &*around))?;
    found.scopes.push(names)?;
    Ok(())
}

/// The names that a statement uses, and the scopes in it.
#[cycle(walk)]
pub fn in_statement(
    alloc: Global,
    found: &mut Found,
    s: &Stmt,
    around: &Around<'_>,
) -> Result<(), NoMemory>
    ensures places { (first : ℕ) → OnOk result (found.new.places ≡ places_of (statement s.now) first around.now ++ found.old.places) }
    ensures scopes { (first : ℕ) → OnOk result (found.new.scopes ≡ scopes_of (statement s.now) first around.now ++ found.old.scopes) }
{
    match &s.node {
        StmtNode::Block(body) => in_statements(alloc, found, body.as_slice(), around)?,
        StmtNode::Var(list) => in_variables(alloc, found, list.as_slice(), around)?,
        StmtNode::Expr(e) | StmtNode::Throw(e) => in_expression(alloc, found, e, around)?,
        StmtNode::If { test, then, other } => {
            if let Some(other) = other {
                in_statement(alloc, found, other.get(), around)?;
            }
            in_statement(alloc, found, then.get(), around)?;
            in_expression(alloc, found, test, around)?;
        }
        StmtNode::Do { body, test } => {
            in_expression(alloc, found, test, around)?;
            in_statement(alloc, found, body.get(), around)?;
        }
        StmtNode::While { test, body } => {
            in_statement(alloc, found, body.get(), around)?;
            in_expression(alloc, found, test, around)?;
        }
        StmtNode::For {
            first,
            test,
            update,
            body,
        } => {
            in_statement(alloc, found, body.get(), around)?;
            in_any(alloc, found, update, around)?;
            in_any(alloc, found, test, around)?;
            in_first(alloc, found, first, around)?;
        }
        StmtNode::ForIn { head, value, body } => {
            in_statement(alloc, found, body.get(), around)?;
            in_expression(alloc, found, value, around)?;
            in_head(alloc, found, head, around)?;
        }
        StmtNode::Return(value) => in_any(alloc, found, value, around)?,
        StmtNode::Switch { value, cases } => {
            in_branches(alloc, found, cases.as_slice(), around)?;
            in_expression(alloc, found, value, around)?;
        }
        StmtNode::Try {
            body,
            caught,
            finally,
        } => {
            if let Some(last) = finally {
                in_statements(alloc, found, last.as_slice(), around)?;
            }
            if let Some((name, handler)) = caught {
                in_caught(alloc, found, name, handler.as_slice(), around)?;
            }
            in_statements(alloc, found, body.as_slice(), around)?;
        }
        StmtNode::Label(_, body) => in_statement(alloc, found, body.get(), around)?,
        StmtNode::FunctionDecl(f) => in_function(alloc, found, f, around)?,
        StmtNode::Empty | StmtNode::Continue(_) | StmtNode::Break(_) => {}
    }
    Ok(())
}
