// What the body of a function declares (ECMA-262 5.1 §10.5), outside the functions in it. The walk goes from the end of the text
// to its beginning.
#![tactic(auto, using(crate::proofs::Trees::trees), unfolding(crate::specs::Uses::expression, crate::specs::Uses::statement, crate::specs::Uses::branch, crate::specs::Uses::first, crate::specs::Uses::head, crate::specs::Uses::function))]

ghost use Rattle.std.specs.Prelude.{◌≡◌, ℕ, [], ◌∷◌, ◌++◌, ◌||◌, map, IfOk, OnOk};
ghost use Rattle.njs_tree.specs.declared.tree.FunctionTree.{out-FunctionTree};
ghost use Rattle.njs_scope.specs.Uses.{expression, statement, branch, head};
ghost use Rattle.njs_scope.specs.Walked.{declared_names, declared_name, declaring_all, optional, optional_first, values_of, statements, branches};

use crate::front::Front;
use crate::mentions::{in_expression, in_variables};
use njs_text::{NoMemory, Text};
use njs_tree::{Case, Expr, ForFirst, ForInHead, FunctionTree, Stmt, StmtNode};
use std::alloc::Global;

/// The names that stand in `var`s, in order of the text, and whether `arguments` is named.
#[derive(Drop)]
pub struct Own {
    pub vars: Front<Text>,
    pub names_arguments: bool,
}

/// An expression, which declares nothing.
pub fn mention(own: &mut Own, e: &Expr)
    ensures vars { own.new.vars ≡ (expression e.now).vars ++ own.old.vars }
    ensures names { own.new.names_arguments ≡ ((expression e.now).names_arguments || own.old.names_arguments) }
    ensures declared { (first : ℕ) → declared_names (expression e.now) first ≡ [] }
{
    own.names_arguments = in_expression(e) || own.names_arguments;
}

fn mention_any(own: &mut Own, part: &Option<Expr>)
    ensures vars { own.new.vars ≡ (optional part.now).vars ++ own.old.vars }
    ensures names { own.new.names_arguments ≡ ((optional part.now).names_arguments || own.old.names_arguments) }
    ensures declared { (first : ℕ) → declared_names (optional part.now) first ≡ [] }
{
    if let Some(e) = part {
        mention(own, e);
    }
}

fn add_names(
    alloc: Global,
    names: &mut Front<Text>,
    list: &[(Text, Option<Expr>)],
) -> Result<(), NoMemory>
    ensures { OnOk result (names.new ≡ map (λ v. v.0) (values_of list.now) ++ names.old) }
{
    for i in (0..list.len()).rev() {
        names.push(list[i].0.copy(alloc)?)?;
    }
    Ok(())
}

// The names and values of a `var`.
fn in_vars(alloc: Global, own: &mut Own, list: &[(Text, Option<Expr>)]) -> Result<(), NoMemory>
    ensures vars { OnOk result (own.new.vars ≡ (declaring_all list.now).vars ++ own.old.vars) }
    ensures names { OnOk result (own.new.names_arguments ≡ ((declaring_all list.now).names_arguments || own.old.names_arguments)) }
    ensures declared { (first : ℕ) → declared_names (declaring_all list.now) first ≡ [] }
{
    own.names_arguments = in_variables(list) || own.names_arguments;
    add_names(alloc, &mut own.vars, list)?;
    Ok(())
}

fn in_first(alloc: Global, own: &mut Own, part: &Option<ForFirst>) -> Result<(), NoMemory>
    ensures vars { OnOk result (own.new.vars ≡ (optional_first part.now).vars ++ own.old.vars) }
    ensures names { OnOk result (own.new.names_arguments ≡ ((optional_first part.now).names_arguments || own.old.names_arguments)) }
    ensures declared { (first : ℕ) → declared_names (optional_first part.now) first ≡ [] }
{
    match part {
        None => Ok(()),
        Some(ForFirst::Var(list)) => in_vars(alloc, own, list.as_slice()),
        Some(ForFirst::Expr(e)) => {
            mention(own, e);
            Ok(())
        }
    }
}

fn in_head(alloc: Global, own: &mut Own, part: &ForInHead) -> Result<(), NoMemory>
    ensures vars { OnOk result (own.new.vars ≡ (head part.now).vars ++ own.old.vars) }
    ensures names { OnOk result (own.new.names_arguments ≡ ((head part.now).names_arguments || own.old.names_arguments)) }
    ensures declared { (first : ℕ) → declared_names (head part.now) first ≡ [] }
{
    match part {
        ForInHead::Var(name) => own.vars.push(name.copy(alloc)?),
        ForInHead::Target(target) => {
            mention(own, target);
            Ok(())
        }
    }
}

fn no_name() -> Text
    ensures { result ≡ [] }
{
    Text::fixed("")
}

fn name_of(alloc: Global, name: &Option<Text>) -> Result<Text, NoMemory>
    ensures { IfOk result (λ text. text ≡ declared_name name.now) }
{
    match name {
        None => Ok(no_name()),
        Some(name) => Ok(name.copy(alloc)?),
    }
}

fn declare(alloc: Global, declared: &mut Front<Text>, f: &FunctionTree) -> Result<(), NoMemory>
    ensures { OnOk result (declared.new ≡ declared_name (out-FunctionTree f.now).name ∷ declared.old) }
{
    declared.push(name_of(alloc, &f.name)?)?;
    Ok(())
}

/// The functions that statements declare, and what else stands in them.
#[cycle(own)]
pub fn in_statements(
    alloc: Global,
    declared: &mut Front<Text>,
    own: &mut Own,
    list: &[Stmt],
) -> Result<(), NoMemory>
    ensures declared { (first : ℕ) → OnOk result (declared.new ≡ declared_names (statements list.now) first ++ declared.old) }
    ensures vars { OnOk result (own.new.vars ≡ (statements list.now).vars ++ own.old.vars) }
    ensures names { OnOk result (own.new.names_arguments ≡ ((statements list.now).names_arguments || own.old.names_arguments)) }
{
    for i in (0..list.len()).rev() {
        in_statement(alloc, declared, own, &list[i])?;
    }
    Ok(())
}

#[cycle(own)]
fn in_branch(
    alloc: Global,
    declared: &mut Front<Text>,
    own: &mut Own,
    part: &Case,
) -> Result<(), NoMemory>
    ensures declared { (first : ℕ) → OnOk result (declared.new ≡ declared_names (branch part.now) first ++ declared.old) }
    ensures vars { OnOk result (own.new.vars ≡ (branch part.now).vars ++ own.old.vars) }
    ensures names { OnOk result (own.new.names_arguments ≡ ((branch part.now).names_arguments || own.old.names_arguments)) }
{
    in_statements(alloc, declared, own, part.body.as_slice())?;
    mention_any(own, &part.test);
    Ok(())
}

#[cycle(own)]
fn in_branches(
    alloc: Global,
    declared: &mut Front<Text>,
    own: &mut Own,
    list: &[Case],
) -> Result<(), NoMemory>
    ensures declared { (first : ℕ) → OnOk result (declared.new ≡ declared_names (branches list.now) first ++ declared.old) }
    ensures vars { OnOk result (own.new.vars ≡ (branches list.now).vars ++ own.old.vars) }
    ensures names { OnOk result (own.new.names_arguments ≡ ((branches list.now).names_arguments || own.old.names_arguments)) }
{
    for i in (0..list.len()).rev() {
        in_branch(alloc, declared, own, &list[i])?;
    }
    Ok(())
}

// The block of a `catch`. The functions that it declares are none of the function around it.
#[cycle(own)]
fn in_caught(alloc: Global, own: &mut Own, list: &[Stmt]) -> Result<(), NoMemory>
    ensures vars { OnOk result (own.new.vars ≡ (statements list.now).vars ++ own.old.vars) }
    ensures names { OnOk result (own.new.names_arguments ≡ ((statements list.now).names_arguments || own.old.names_arguments)) }
{
    let mut aside = Front::new(alloc);
    in_statements(alloc, &mut aside, own, list)
}

/// The functions that a statement declares, and what else stands in it.
#[cycle(own)]
pub fn in_statement(
    alloc: Global,
    declared: &mut Front<Text>,
    own: &mut Own,
    s: &Stmt,
) -> Result<(), NoMemory>
    ensures declared { (first : ℕ) → OnOk result (declared.new ≡ declared_names (statement s.now) first ++ declared.old) }
    ensures vars { OnOk result (own.new.vars ≡ (statement s.now).vars ++ own.old.vars) }
    ensures names { OnOk result (own.new.names_arguments ≡ ((statement s.now).names_arguments || own.old.names_arguments)) }
{
    match &s.node {
        StmtNode::Block(body) => in_statements(alloc, declared, own, body.as_slice())?,
        StmtNode::Var(list) => in_vars(alloc, own, list.as_slice())?,
        StmtNode::Expr(e) | StmtNode::Throw(e) => mention(own, e),
        StmtNode::If { test, then, other } => {
            if let Some(other) = other {
                in_statement(alloc, declared, own, other.get())?;
            }
            in_statement(alloc, declared, own, then.get())?;
            mention(own, test);
        }
        StmtNode::Do { body, test } => {
            mention(own, test);
            in_statement(alloc, declared, own, body.get())?;
        }
        StmtNode::While { test, body } => {
            in_statement(alloc, declared, own, body.get())?;
            mention(own, test);
        }
        StmtNode::For {
            first,
            test,
            update,
            body,
        } => {
            in_statement(alloc, declared, own, body.get())?;
            mention_any(own, update);
            mention_any(own, test);
            in_first(alloc, own, first)?;
        }
        StmtNode::ForIn { head, value, body } => {
            in_statement(alloc, declared, own, body.get())?;
            mention(own, value);
            in_head(alloc, own, head)?;
        }
        StmtNode::Return(value) => mention_any(own, value),
        StmtNode::Switch { value, cases } => {
            in_branches(alloc, declared, own, cases.as_slice())?;
            mention(own, value);
        }
        StmtNode::Try {
            body,
            caught,
            finally,
        } => {
            if let Some(last) = finally {
                in_statements(alloc, declared, own, last.as_slice())?;
            }
            if let Some((_, handler)) = caught {
                in_caught(alloc, own, handler.as_slice())?;
            }
            in_statements(alloc, declared, own, body.as_slice())?;
        }
        StmtNode::Label(_, body) => in_statement(alloc, declared, own, body.get())?,
        StmtNode::FunctionDecl(f) => declare(alloc, declared, f)?,
        StmtNode::Empty | StmtNode::Continue(_) | StmtNode::Break(_) => {}
    }
    Ok(())
}
