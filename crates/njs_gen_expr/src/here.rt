// Where a part of the code stands.
ghost use Rattle.std.specs.Prelude.{ℕ, List, ◌≡◌, ◌+◌};
ghost use Rattle.njs_code.specs.declared.op.Op.{Op};
ghost use Rattle.njs_meaning.specs.Places.{Around};
ghost use Rattle.njs_simul.specs.Emission as emit;
ghost use Rattle.njs_simul.specs.EmissionOfStatements as step;
ghost use Rattle.njs_gen_expr.specs.Written.{Stands, DepthIs};

use njs_code::{Address, Depth};

/// Where a part of the code stands: what stands there, if numbers can tell it, and the operation that ends the part around it.
#[derive(Clone, Copy, Debug, PartialEq, Eq)]
pub struct Here {
    pub depth: Option<Depth>,
    pub around: Option<Address>,
}

#[tactic(auto, using(njs_simul::proofs::ValidSteps::on_is))]
fn with_operands(depth: Option<Depth>, more: usize) -> Option<Depth>
    ensures { (d : _) → DepthIs depth d → DepthIs result (record d { operands = emit.on more d.operands }) }
{
    let Some(known) = depth else { return None };
    let more = u32::try_from(more).ok()?;
    let operands = known.operands.checked_add(more)?;
    Some(Depth {
        operands,
        scopes: known.scopes,
        lists: known.lists,
        endings: known.endings,
    })
}

impl Here {
    /// The beginning of a function.
    pub fn at_start() -> Here
        ensures { (names : Around) → Stands result (step.at_start names) }
    {
        Here {
            depth: Some(Depth {
                operands: 0,
                scopes: 1,
                lists: 0,
                endings: 0,
            }),
            around: None,
        }
    }

    /// With so many operands more.
    pub fn deeper(self, more: usize) -> Here
        ensures { (at : emit.Here) → Stands self at → Stands result (emit.deeper more at) }
    {
        Here {
            depth: with_operands(self.depth, more),
            around: self.around,
        }
    }

    /// With so many operands more, and on top of them so many others.
    pub fn beyond(self, less: usize, more: usize) -> Here
        ensures { (at : emit.Here) → Stands self at → Stands result (emit.deeper (emit.on more less) at) }
    {
        self.deeper(less).deeper(more)
    }

    /// In a part that an operation ends.
    pub fn inside(self, end: Address) -> Here
        ensures { (at : emit.Here) (ops : List Op) → end ≡ emit.address ops → Stands self at → Stands result (emit.inside ops at) }
    {
        Here {
            depth: self.depth,
            around: Some(end),
        }
    }
}
