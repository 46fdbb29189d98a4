// Where the parts of statements stand.
ghost use Rattle.std.specs.Prelude.{suc};
ghost use Rattle.njs_simul.specs.Emission as emit;
ghost use Rattle.njs_simul.specs.EmissionOfStatements as step;
ghost use Rattle.njs_gen_expr.specs.Written.{Stands, DepthIs};
ghost use Rattle.njs_gen_stmt.specs.Statements.{DeeperBy};

use njs_code::Depth;
use njs_gen_expr::Here;

fn with_list(depth: Option<Depth>) -> Option<Depth>
    ensures { (d : _) → DepthIs depth d → DepthIs result (record d { lists = suc d.lists }) }
{
    let Some(known) = depth else { return None };
    let lists = known.lists.checked_add(1)?;
    Some(Depth {
        operands: known.operands,
        scopes: known.scopes,
        lists,
        endings: known.endings,
    })
}

fn with_ending(depth: Option<Depth>) -> Option<Depth>
    ensures { (d : _) → DepthIs depth d → DepthIs result (record d { endings = suc d.endings }) }
{
    let Some(known) = depth else { return None };
    let endings = known.endings.checked_add(1)?;
    Some(Depth {
        operands: known.operands,
        scopes: known.scopes,
        lists: known.lists,
        endings,
    })
}

fn with_scope(depth: Option<Depth>) -> Option<Depth>
    ensures { (d : _) → DepthIs depth d → DepthIs result (record d { scopes = suc d.scopes }) }
{
    let Some(known) = depth else { return None };
    let scopes = known.scopes.checked_add(1)?;
    Some(Depth {
        operands: known.operands,
        scopes,
        lists: known.lists,
        endings: known.endings,
    })
}

/// With a list of names (ECMA-262 5.1 §12.6.4).
pub fn listing(here: Here) -> Here
    ensures { DeeperBy step.listing here result }
{
    Here {
        depth: with_list(here.depth),
        around: here.around,
    }
}

/// With an ending that waits (ECMA-262 5.1 §12.14).
pub fn waiting(here: Here) -> Here
    ensures { DeeperBy step.waiting here result }
{
    Here {
        depth: with_ending(here.depth),
        around: here.around,
    }
}

/// In the scope of a `catch` (ECMA-262 5.1 §12.14), which has one name.
pub fn in_catch(here: Here) -> Here
    ensures { (name : _) → DeeperBy (step.in_catch name) here result }
{
    Here {
        depth: with_scope(here.depth),
        around: here.around,
    }
}
