//! The code of a statement (ECMA-262 5.1 §12), which begins with one tick. The recursion is as deep as the tree.
ghost use Rattle.std.specs.Prelude.{◌≡◌, ◌+◌, ◌++◌, ℕ, List, [], suc, Some};
ghost use Rattle.std.specs.Option.{option_map_or};
ghost use Rattle.njs_code.specs.declared.op.Address.{Address as SomeAddress};
ghost use Rattle.njs_meaning.specs.Parts.{one, two, three, four};
ghost use Rattle.njs_simul.specs.Emission as emit;
ghost use Rattle.njs_simul.specs.EmissionOfStatements as step;
ghost use Rattle.njs_scope.specs.Uses as uses;
ghost use Rattle.njs_gen_expr.specs.Trees as code;
ghost use Rattle.njs_gen_expr.specs.Written.{IsGoing, Holds, Stands, draft};
ghost use Rattle.njs_gen_expr.specs.Parts.{Wrote};
ghost use Rattle.njs_gen_stmt.specs.Statements.{WrotePart, WroteLabelled, WroteDefault, InFront, turned, optional, optional_uses, first, first_uses, in_turn, in_turn_uses, cases, cases_uses, caught, caught_uses, last, last_uses, otherwise, otherwise_uses, last_size, finally, before_last, caught_size, catch, before_catch};

use crate::address::head;
use crate::here::{in_catch, listing, waiting};
use crate::labels::with_label;
use crate::parts::{
    declaration, empty, ended, ends, evaluate, expression, first_if_any, next_name, returns, test,
    test_if_any, throws, update_if_any, variables,
};
use crate::size;
use crate::switch::{jumps, pass_test};
use njs_code::{Address, Kind};
use njs_gen_expr::{Here, Writer, copy_held, pass_expression, pass_statement, value};
use njs_text::{List, Text};
use njs_tree::{Case, Expr, ForFirst, ForInHead, Stmt, StmtNode};
use sqlite_items::{Boxed, Items};

/// Writes the operations of a statement, before which these labels stand.
#[cycle(statement)]
pub fn statement(w: &mut Writer<'_>, s: &Stmt, labels: List<Text>, here: Here)
    ensures stays { IsGoing w.new → IsGoing w.old }
    ensures written { (ls : List (List ℕ)) → (IsGoing w.old → labels ≡ ls) → WroteLabelled ls (code.statement s.now) (uses.statement s.now) here w.old w.new }
{
    match &s.node {
        StmtNode::Block(list) => {
            statements(w, list, here);
            w.write(Kind::Charge, here);
        }
        StmtNode::Var(list) => variables(w, list, here),
        StmtNode::Empty => empty(w, here),
        StmtNode::Expr(e) => expression(w, e, here),
        StmtNode::If {
            test: t,
            then,
            other,
        } => {
            let past = w.address();
            otherwise(w, other, here);
            let away = w.address();
            w.write(Kind::Jump(past), here);
            unlabelled(w, then.get(), here);
            test(w, t, away, here);
            w.write(Kind::Charge, here);
        }
        StmtNode::Do { body, test } => do_loop(w, body.get(), test, labels, here),
        StmtNode::While { test, body } => while_loop(w, body.get(), test, labels, here),
        StmtNode::For {
            first,
            test,
            update,
            body,
        } => for_loop(w, body.get(), first, test, update, labels, here),
        StmtNode::ForIn { head, value, body } => {
            for_in(w, body.get(), head, value, labels, here);
        }
        StmtNode::Continue(label) => {
            let label = copy_held(w, label);
            ends(w, Kind::Continue(label), here);
        }
        StmtNode::Break(label) => {
            let label = copy_held(w, label);
            ends(w, Kind::Break(label), here);
        }
        StmtNode::Return(value) => returns(w, value, here),
        StmtNode::Throw(value) => throws(w, value, here),
        StmtNode::Switch { value: v, cases } => {
            switch_branches(w, cases, here);
            value(w, v, here);
            w.write(Kind::Charge, here);
        }
        StmtNode::Try {
            body,
            caught,
            finally,
        } => match finally {
            None => match caught {
                None => {
                    statements(w, body, here);
                    w.write(Kind::Charge, here);
                }
                Some((name, handler)) => {
                    let Some(inner) = catch_block(w, handler, name, here) else {
                        return
                    };
                    statements(w, body, inner);
                    w.write(Kind::Charge, here);
                }
            },
            Some(list) => {
                let Some(outer) = last_block(w, list, here) else {
                    return
                };
                match caught {
                    None => {
                        statements(w, body, outer);
                        w.write(Kind::Charge, here);
                    }
                    Some((name, handler)) => {
                        let Some(inner) = catch_block(w, handler, name, outer) else {
                            return
                        };
                        statements(w, body, inner);
                        w.write(Kind::Charge, here);
                    }
                }
            }
        },
        StmtNode::Label(label, body) => {
            let further = with_label(w, label, labels);
            statement(w, body.get(), further, here);
            w.write(Kind::Charge, here);
        }
        StmtNode::FunctionDecl(f) => declaration(w, f, here),
    }
}

// A statement before which no label stands for it.
#[cycle(statement)]
fn unlabelled(w: &mut Writer<'_>, s: &Stmt, here: Here)
    ensures stays { IsGoing w.new → IsGoing w.old }
    ensures written { WroteLabelled [] (code.statement s.now) (uses.statement s.now) here w.old w.new }
{
    let none = List::new(w.alloc());
    statement(w, s, none, here);
}

/// Writes the operations of statements, one after the other.
#[cycle(statement)]
pub fn statements(w: &mut Writer<'_>, list: &Items<Stmt>, here: Here)
    ensures stays { IsGoing w.new → IsGoing w.old }
    ensures written { Wrote step.in_turn_size step.in_turn (in_turn list.now) (in_turn_uses list.now) here w.old w.new }
{
    let list = list.as_slice();
    for i in (0..list.len()).rev() {
        unlabelled(w, &list[i], here);
    }
}

// What stands behind the `else`, if it is there (ECMA-262 5.1 §12.5).
#[cycle(statement)]
fn otherwise(w: &mut Writer<'_>, other: &Option<Boxed<Stmt>>, here: Here)
    ensures stays { IsGoing w.new → IsGoing w.old }
    ensures written { WrotePart (one (otherwise other.now) step.optional) (otherwise_uses other.now) here w.old w.new }
{
    match other {
        None => {}
        Some(s) => unlabelled(w, s.get(), here),
    }
}

// The body of a loop, with its end.
#[cycle(statement)]
fn turn(w: &mut Writer<'_>, body: &Stmt, labels: List<Text>, past: Address, here: Here)
    ensures stays { IsGoing w.new → IsGoing w.old }
    ensures written { (ls : List (List ℕ)) (p : SomeAddress) → (IsGoing w.old → labels ≡ ls) → (IsGoing w.old → past ≡ p) → Wrote (λ c. suc c.size) (turned ls p) (code.statement body.now) (uses.statement body.now) here w.old w.new }
{
    w.write(Kind::EndBody { labels, past }, here);
    let Some(inner) = ended(w, here) else { return };
    unlabelled(w, body, inner);
}

// ECMA-262 5.1 §12.6.1.
#[cycle(statement)]
fn do_loop(w: &mut Writer<'_>, body: &Stmt, t: &Expr, labels: List<Text>, here: Here)
    ensures stays { IsGoing w.new → IsGoing w.old }
    ensures written { (ls : List (List ℕ)) → (IsGoing w.old → labels ≡ ls) → WroteLabelled ls (two (code.statement body.now) (code.expression t.now) step.do_loop) (two (uses.statement body.now) (uses.expression t.now) uses.both) here w.old w.new }
{
    let past = w.address();
    let top = head(w, size::statement(body, size::value(t, 2)));
    w.write(Kind::Jump(top), here);
    test(w, t, past, here);
    turn(w, body, labels, past, here);
    w.write(Kind::Charge, here);
    w.write(Kind::Charge, here);
}

// ECMA-262 5.1 §12.6.2.
#[cycle(statement)]
fn while_loop(w: &mut Writer<'_>, body: &Stmt, t: &Expr, labels: List<Text>, here: Here)
    ensures stays { IsGoing w.new → IsGoing w.old }
    ensures written { (ls : List (List ℕ)) → (IsGoing w.old → labels ≡ ls) → WroteLabelled ls (two (code.expression t.now) (code.statement body.now) step.while_loop) (two (uses.expression t.now) (uses.statement body.now) uses.both) here w.old w.new }
{
    let past = w.address();
    let top = head(w, size::statement(body, size::value(t, 2)));
    w.write(Kind::Jump(top), here);
    turn(w, body, labels, past, here);
    test(w, t, past, here);
    w.write(Kind::Charge, here);
    w.write(Kind::Charge, here);
}

// ECMA-262 5.1 §12.6.3. The update is written before the body, behind which it stands in the code.
#[cycle(statement)]
fn for_loop(
    w: &mut Writer<'_>,
    body: &Stmt,
    part: &Option<ForFirst>,
    t: &Option<Expr>,
    update: &Option<Expr>,
    labels: List<Text>,
    here: Here,
)
    ensures stays { IsGoing w.new → IsGoing w.old }
    ensures written { (ls : List (List ℕ)) → (IsGoing w.old → labels ≡ ls) → WroteLabelled ls (four (first part.now) (optional t.now) (optional update.now) (code.statement body.now) step.for_loop) (four (first_uses part.now) (optional_uses t.now) (optional_uses update.now) (uses.statement body.now) (λ a b c d. uses.both a (uses.both b (uses.both c d)))) here w.old w.new }
{
    let end = w.mark();
    let past = w.address();
    let top = head(
        w,
        size::statement(body, size::aside(update, size::aside(t, 1))),
    );
    w.write(Kind::Jump(top), here);
    pass_statement(w, body);
    update_if_any(w, update, here);
    let middle = w.mark();
    w.go_to(end);
    turn(w, body, labels, past, here);
    w.go_to(middle);
    test_if_any(w, t, past, here);
    w.write(Kind::Charge, here);
    first_if_any(w, part, here);
    w.write(Kind::Charge, here);
}

// ECMA-262 5.1 §12.6.4. The head is written before the value, behind which it stands in the code.
#[cycle(statement)]
fn for_in(
    w: &mut Writer<'_>,
    body: &Stmt,
    part: &ForInHead,
    v: &Expr,
    labels: List<Text>,
    here: Here,
)
    ensures stays { IsGoing w.new → IsGoing w.old }
    ensures written { (ls : List (List ℕ)) → (IsGoing w.old → labels ≡ ls) → WroteLabelled ls (three (code.head part.now) (code.expression v.now) (code.statement body.now) step.for_in) (three (uses.head part.now) (uses.expression v.now) (uses.statement body.now) (λ a b c. uses.both a (uses.both b c))) here w.old w.new }
{
    let inner = listing(here);
    w.write(Kind::DropList, inner);
    let past = w.address();
    let top = head(w, size::statement(body, size::head(part, 5)));
    w.write(Kind::Jump(top), inner);
    w.write(Kind::MoreNames(past), inner);
    turn(w, body, labels, past, inner);
    let behind = w.mark();
    pass_expression(w, v);
    next_name(w, part, inner);
    let front = w.mark();
    w.write(Kind::Charge, inner);
    w.write(Kind::MoreNames(past), inner);
    w.write(Kind::ListNames, here.deeper(1));
    w.go_to(behind);
    value(w, v, here);
    w.go_to(front);
    w.write(Kind::Charge, here);
}

// The bodies of a `switch`, and where they begin from `default` on (ECMA-262 5.1 §12.11).
#[cycle(statement)]
fn bodies(w: &mut Writer<'_>, list: &Items<Case>, here: Here) -> Address
    ensures stays { IsGoing w.new → IsGoing w.old }
    ensures written { Wrote step.bodies_size step.bodies (cases list.now) (cases_uses list.now) here w.old w.new }
    ensures default { WroteDefault (cases list.now) (cases_uses list.now) here w.old w.new result }
{
    let mut default = w.address();
    let list = list.as_slice();
    for i in (0..list.len()).rev() {
        default = branch_body(w, &list[i], default, here);
    }
    default
}

// The same of one of them.
#[cycle(statement)]
fn branch_body(w: &mut Writer<'_>, case: &Case, default: Address, here: Here) -> Address
    ensures stays { IsGoing w.new → IsGoing w.old }
    ensures written { Wrote (λ b. step.in_turn_size b.body) (λ b. step.in_turn b.body) (code.branch case.now) (uses.branch case.now) here w.old w.new }
    ensures default { (at : _) (first start n : ℕ) (ops : List _) (front : List _) → Stands here at → IsGoing w.new → Holds w.old (draft ops n (front ++ ((uses.branch case.now).means start).places at.names) (first + (code.branch case.now).size)) → result ≡ option_map_or (λ test. default) ((code.branch case.now).means first).test (emit.address (step.in_turn ((code.branch case.now).means first).body at ops)) }
{
    statements(w, &case.body, here);
    let begin = w.address();
    pass_test(w, &case.test);
    match &case.test {
        None => begin,
        Some(_) => default,
    }
}

// A `switch` behind its value (ECMA-262 5.1 §12.11).
#[cycle(statement)]
fn switch_branches(w: &mut Writer<'_>, list: &Items<Case>, here: Here)
    ensures stays { IsGoing w.new → IsGoing w.old }
    ensures written { Wrote (λ bs. step.branches_size bs + suc (suc (step.bodies_size bs + 1))) step.switch_branches (cases list.now) (cases_uses list.now) here w.old w.new }
{
    let behind = w.mark();
    w.write(Kind::EndSwitch, here);
    let Some(inner) = ended(w, here) else { return };
    let end = w.address();
    let default = bodies(w, list, inner);
    w.write(Kind::Jump(default), here);
    w.write(Kind::Drop, here.deeper(1));
    w.go_to(behind);
    jumps(w, list, end, here);
}

// The block of a `finally`, and where the block in front of it stands (ECMA-262 5.1 §12.14).
#[cycle(statement)]
fn last_block(w: &mut Writer<'_>, list: &Items<Stmt>, here: Here) -> Option<Here>
    ensures stays { IsGoing w.new → IsGoing w.old }
    ensures written { Wrote last_size finally (last (Some list.now)) (last_uses (Some list.now)) here w.old w.new }
    ensures inside { InFront before_last (last (Some list.now)) (last_uses (Some list.now)) here w.old w.new result }
{
    w.write(Kind::Resume, waiting(here));
    statements(w, list, waiting(here));
    w.write(Kind::Finally, here);
    ended(w, here)
}

// The block of a `catch`, and where the block in front of it stands (ECMA-262 5.1 §12.14).
#[cycle(statement)]
fn catch_block(w: &mut Writer<'_>, handler: &Items<Stmt>, name: &Text, here: Here) -> Option<Here>
    ensures stays { IsGoing w.new → IsGoing w.old }
    ensures written { Wrote caught_size catch (caught (Some (name.now, handler.now))) (caught_uses (Some (name.now, handler.now))) here w.old w.new }
    ensures inside { InFront before_catch (caught (Some (name.now, handler.now))) (caught_uses (Some (name.now, handler.now))) here w.old w.new result }
{
    let past = w.address();
    let within = in_catch(here);
    w.write(Kind::Leave, within);
    statements(w, handler, within);
    let name = w.copy(name);
    w.write(Kind::Enter(name), here.deeper(1));
    w.write(Kind::EndBlock, here);
    let inner = ended(w, here);
    w.write(Kind::Jump(past), here);
    inner
}
