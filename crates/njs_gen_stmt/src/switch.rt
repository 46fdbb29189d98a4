// The tests of a `switch` (ECMA-262 5.1 §12.11).
ghost use Rattle.std.specs.Prelude.{◌≡◌, ◌++◌, ◌+◌, ℕ, List};
ghost use Rattle.njs_code.specs.declared.op.Address.{Address as SomeAddress};
ghost use Rattle.njs_code.specs.declared.op.Op.{Op};
ghost use Rattle.njs_meaning.specs.declared.place.Place.{Place};
ghost use Rattle.njs_simul.specs.Emission as emit;
ghost use Rattle.njs_simul.specs.EmissionOfStatements as step;
ghost use Rattle.njs_scope.specs.Uses as uses;
ghost use Rattle.njs_gen_expr.specs.Trees as code;
ghost use Rattle.njs_gen_expr.specs.Written.{IsGoing, Holds, Stands, draft};
ghost use Rattle.njs_gen_expr.specs.Parts.{Wrote, Passed};
ghost use Rattle.njs_gen_stmt.specs.Sized.{aside_size};
ghost use Rattle.njs_gen_stmt.specs.Statements.{tested, optional, optional_uses, cases, cases_uses};

use crate::address::in_front;
use crate::size;
use njs_code::{Address, Kind};
use njs_gen_expr::{Here, Writer, pass_expression, pass_statements, value};
use njs_tree::{Case, Expr};
use sqlite_items::Items;

/// Goes on in front of a test, for which nothing is written.
pub fn pass_test(w: &mut Writer<'_>, test: &Option<Expr>)
    ensures stays { IsGoing w.new → IsGoing w.old }
    ensures passed { Passed (optional test.now) (optional_uses test.now) w.old w.new }
{
    match test {
        None => {}
        Some(e) => pass_expression(w, e),
    }
}

// A test, behind which the code leads to the address where it is met.
fn jump_if_any(w: &mut Writer<'_>, test: &Option<Expr>, begin: Address, here: Here)
    ensures stays { IsGoing w.new → IsGoing w.old }
    ensures written { (b : SomeAddress) → (IsGoing w.old → begin ≡ b) → Wrote aside_size (tested b) (optional test.now) (optional_uses test.now) here w.old w.new }
{
    match test {
        None => {}
        Some(e) => {
            w.write(Kind::JumpSame(begin), here.deeper(2));
            value(w, e, here.deeper(1));
        }
    }
}

// The test of a case, from where the bodies behind its own begin; and where its own begins.
fn jump(w: &mut Writer<'_>, case: &Case, behind: Address, here: Here) -> Address
    ensures stays { IsGoing w.new → IsGoing w.old }
    ensures begins { (first n : ℕ) → IsGoing w.new → behind ≡ record { 0 = n } → result ≡ record { 0 = step.in_turn_size ((code.branch case.now).means first).body + n } }
    ensures written { (at : emit.Here) (first start n b : ℕ) (ops : List Op) (front : List Place) → (IsGoing w.old → behind ≡ record { 0 = b }) → Stands here at → Holds w.old (draft ops n (front ++ ((uses.branch case.now).means start).places at.names) (first + (code.branch case.now).size)) → let branch = (code.branch case.now).means first in Holds w.new (draft (tested (record { 0 = step.in_turn_size branch.body + b }) branch.test at ops) (aside_size branch.test + n) front first) }
{
    let begin = in_front(w, behind, size::statements(&case.body, 0));
    pass_statements(w, &case.body);
    jump_if_any(w, &case.test, begin, here);
    begin
}

/// The tests in order, from where the bodies end. The one that is met leads to its body.
pub fn jumps(w: &mut Writer<'_>, list: &Items<Case>, end: Address, here: Here)
    ensures stays { IsGoing w.new → IsGoing w.old }
    ensures written { (at within : emit.Here) (first start n : ℕ) (ops behind : List Op) (front : List Place) → (IsGoing w.old → end ≡ emit.address behind) → Stands here at → Holds w.old (draft ops n (front ++ ((cases_uses list.now).means start).places at.names) (first + (cases list.now).size)) → let bs = (cases list.now).means first in Holds w.new (draft (step.branches bs (λ left. emit.address (step.bodies left within behind)) at ops) (step.branches_size bs + n) front first) }
{
    let mut begin = end;
    let list = list.as_slice();
    for i in (0..list.len()).rev() {
        begin = jump(w, &list[i], begin, here);
    }
}
