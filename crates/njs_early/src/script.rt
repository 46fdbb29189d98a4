// The early refusals of a whole script.
ghost use Rattle.std.specs.Prelude.{◌≡◌, [], Some, MatchResult};
ghost use Rattle.njs_tree.specs.Accepted.{IsSpelled};
ghost use Rattle.njs_tree.specs.Early as spec;
ghost use Rattle.njs_early.specs.Walk.{answer};

use crate::around::{Around, Labels};
use crate::walk::{expr, stmt};
use njs_tree::{Checked, EarlyFault, Item, Script};

#[tactic(auto, unfolding(njs_tree::specs::Early::seen, njs_tree::specs::Early::of_stmt, crate::specs::Around::labels_of))]
fn item(part: &Item) -> Result<(), EarlyFault>
    ensures { result ≡ answer (spec.of_item part.now) }
{
    let no_labels = Labels::Nothing;
    let around = Around::outermost(&no_labels);
    match part {
        Item::Stmt(s) => stmt(s, &around),
        Item::Export(_, value) => expr(value, &around),
    }
}

#[tactic(auto, using(crate::proofs::First::answer_append))]
fn items(list: &[Item]) -> Result<(), EarlyFault>
    ensures { result ≡ answer (spec.of_items list.now) }
{
    for part in list {
        item(part)?;
    }
    Ok(())
}

// The first early refusal of a script, or none.
fn refused(script: &Script) -> Result<(), EarlyFault>
    ensures { MatchResult result (λ _. spec.early script.now ≡ []) (λ fault. spec.first_early (spec.early script.now) ≡ Some fault) }
{
    items(script.items.as_slice())
}

/// Checks a script for early refusals (ECMA-262 5.1 §16): it is `Checked` exactly where there is none, else the first in order of
/// the text is answered. A refusal stands on a node, and its line is the node's. Of two nodes that begin together the outer is
/// first, and of two refusals on one node the one whose kind comes first in `EarlyKind`.
///
/// It takes no memory. The caller knows a text that spells the script, as after reading it.
pub fn check(script: Script) -> Result<Checked, EarlyFault>
    requires { IsSpelled script }
    ensures { MatchResult result (λ checked. (checked ≡ script) × (spec.early script ≡ [])) (λ fault. spec.first_early (spec.early script) ≡ Some fault) }
{
    match refused(&script) {
        Ok(()) => Ok(Checked::new(script)),
        Err(fault) => Err(fault),
    }
}
