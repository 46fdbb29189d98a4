// The refusals that stand on a node itself.
ghost use Rattle.std.specs.Prelude.{◌≡◌, ◌&&◌, ◌||◌, not, nat_lt, length, map};
ghost use Rattle.std.specs.List.{list_any};
ghost use Rattle.njs_tree.specs.Names.{is_protected};
ghost use Rattle.njs_tree.specs.Early as early;
ghost use Rattle.njs_tree.specs.declared.tree.FunctionTree.{out-FunctionTree};
ghost use Rattle.njs_tree.specs.declared.token.EarlyKind.TheVariants as kind;
ghost use Rattle.njs_early.specs.Around.{around_of};
ghost use Rattle.njs_early.specs.Walk.{answer, is_name_expr, own_of_target, own_of_function, is_stray_continue, is_stray_break, caught_of, values_of};

use crate::around::{Around, has_label};
use crate::names::{any_protected, is_protected, is_protected_name, repeats};
use njs_text::Text;
use njs_tree::{EarlyFault, EarlyKind, Expr, ExprNode, FunctionTree, Stmt, UnaryOp};
use sqlite_items::Items;

/// The most parameters that a function, and arguments that a call may have.
const MAX_COUNT: usize = 255;

/// A refusal where the test says so.
pub fn refuse_if(test: bool, line: u32, kind: EarlyKind) -> Result<(), EarlyFault>
    ensures { result ≡ answer (early.refuse_if test line kind) }
{
    if test {
        return Err(EarlyFault { kind, line });
    }
    Ok(())
}

/// Whether an expression is a name.
#[tactic(auto, unfolding(njs_tree::specs::Early::seen))]
fn is_name(e: &Expr) -> bool
    ensures { result ≡ is_name_expr e.now }
{
    matches!(e.node, ExprNode::Name(_))
}

/// `delete` of a name (ECMA-262 5.1 §11.4.1).
pub fn deletes_name(op: UnaryOp, a: &Expr) -> bool
    ensures { result ≡ (early.is_delete op && is_name_expr a.now) }
{
    op == UnaryOp::Delete && is_name(a)
}

/// A target that is a protected name (ECMA-262 5.1 §11.13.1).
#[tactic(auto, unfolding(njs_tree::specs::Early::seen))]
pub fn target(e: &Expr) -> Result<(), EarlyFault>
    ensures { result ≡ answer (own_of_target e.now) }
{
    match &e.node {
        ExprNode::Name(name) => refuse_if(is_protected(name), e.line, EarlyKind::Reserved),
        _ => Ok(()),
    }
}

/// More arguments than a call may have.
#[tactic(auto, using(crate::proofs::Lists::list_lemmas))]
pub fn arguments(list: &Items<Expr>, line: u32) -> Result<(), EarlyFault>
    ensures { result ≡ answer (early.refuse_if (nat_lt 255 (length (map early.seen list.now))) line kind.Count) }
{
    refuse_if(list.len() > MAX_COUNT, line, EarlyKind::Count)
}

/// The parameters and the name of a function (ECMA-262 5.1 §13.1), on the line of the node that it is part of.
pub fn function(f: &FunctionTree, line: u32) -> Result<(), EarlyFault>
    ensures { result ≡ answer (own_of_function (out-FunctionTree f.now).name (out-FunctionTree f.now).params line) }
{
    let params = f.params.as_slice();
    refuse_if(repeats(params), line, EarlyKind::Parameter)?;
    let protected = is_protected_name(&f.name) || any_protected(params);
    refuse_if(protected, line, EarlyKind::Reserved)?;
    refuse_if(params.len() > MAX_COUNT, line, EarlyKind::Count)
}

fn declares_protected(values: &[(Text, Option<Expr>)]) -> bool
    ensures { result ≡ list_any (λ v. is_protected v.0) values.now }
{
    values.iter().any(|value| is_protected(&value.0))
}

/// The names of a `var` (ECMA-262 5.1 §12.2.1), on the line of the statement that it is part of.
#[tactic(auto, using(crate::proofs::Lists::list_lemmas))]
pub fn variables(values: &[(Text, Option<Expr>)], line: u32) -> Result<(), EarlyFault>
    ensures { result ≡ answer (early.refuse_if (early.declares_protected (values_of values.now)) line kind.Reserved) }
{
    refuse_if(declares_protected(values), line, EarlyKind::Reserved)
}

/// The name of a `catch` (ECMA-262 5.1 §12.14.1), on the line of the `try`.
pub fn caught(caught: &Option<(Text, Items<Stmt>)>, line: u32) -> Result<(), EarlyFault>
    ensures { result ≡ answer (early.refuse_if (early.is_caught_refused (caught_of caught.now)) line kind.Reserved) }
{
    match caught {
        None => Ok(()),
        Some((name, _)) => refuse_if(is_protected(name), line, EarlyKind::Reserved),
    }
}

fn is_stray_continue(label: &Option<Text>, around: &Around<'_>) -> bool
    ensures { result ≡ is_stray_continue label.now (around_of around.now) }
{
    match label {
        None => !around.in_loop,
        Some(label) => !around.in_loop || !has_label(label, around.labels),
    }
}

/// A `continue` without a loop around it, or to a label that isn't around it (ECMA-262 5.1 §12.7).
pub fn continued(label: &Option<Text>, line: u32, around: &Around<'_>) -> Result<(), EarlyFault>
    ensures { result ≡ answer (early.refuse_if (is_stray_continue label.now (around_of around.now)) line kind.Continue) }
{
    refuse_if(is_stray_continue(label, around), line, EarlyKind::Continue)
}

fn is_stray_break(label: &Option<Text>, around: &Around<'_>) -> bool
    ensures { result ≡ is_stray_break label.now (around_of around.now) }
{
    let inside = around.in_loop || around.in_switch;
    match label {
        None => !inside,
        Some(label) => !inside || !has_label(label, around.labels),
    }
}

/// A `break` without a loop or `switch` around it, or to a label that isn't around it (ECMA-262 5.1 §12.8).
pub fn broken(label: &Option<Text>, line: u32, around: &Around<'_>) -> Result<(), EarlyFault>
    ensures { result ≡ answer (early.refuse_if (is_stray_break label.now (around_of around.now)) line kind.Break) }
{
    refuse_if(is_stray_break(label, around), line, EarlyKind::Break)
}
