// Scripts that are accepted.
ghost use Rattle.std.specs.Prelude.{◌≡◌, []};
ghost use Rattle.njs_tree.specs.Accepted.{IsAccepted, IsSpelled};
ghost use Rattle.njs_tree.specs.Early.{early};

use crate::Script;
use std::marker::Model;

/// A script that some text spells, and that no early refusal stands in (ECMA-262 5.1 §14, §16). It is seen as the script.
#[derive(Drop)]
pub struct Checked {
    script: Script,
}

impl Model for Checked {
    ghost use Rattle.njs_tree.specs.declared.tree.Script.{Script};
    ghost use Rattle.njs_tree.specs.contracts.tree.Script as scripts;

    ghost Value = { Script };

    ghost coded = { scripts.the_row.coded };

    ghost use Rattle.njs_tree.specs.Accepted.{IsAccepted};

    ghost view = { λ c. c.script };

    ghost invariant = { λ c. IsAccepted c.script };
}

impl Checked {
    /// The caller knows a text that spells the script, as after reading it, and that it refuses nothing early.
    pub fn new(script: Script) -> Checked
        requires spelled { IsSpelled script }
        requires early { early script ≡ [] }
        ensures { result ≡ script }
    {
        Checked { script }
    }

    pub fn script(&self) -> &Script
        ensures same { result.now ≡ self.now }
        ensures accepted { IsAccepted self.now }
    {
        &self.script
    }
}
