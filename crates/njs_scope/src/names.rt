// The names of a scope, each once.
ghost use Rattle.std.specs.Prelude.{◌≡◌, bytes_eq, [], ◌∷◌, IfOk, OnOk};
ghost use Rattle.std.specs.List.{list_any};
ghost use Rattle.njs_scope.specs.Walked.{once_more, each_once_more};

use crate::front::Front;
use njs_text::{List, NoMemory, Text};
use std::alloc::Global;

fn has(names: &[(Text, bool)], name: &Text) -> bool
    ensures { result ≡ list_any (λ b. bytes_eq name.now b.0) names.now }
{
    names.iter().any(|binding| *name == binding.0)
}

/// Puts a name that can be assigned after the others, if it isn't one of them.
pub fn add(names: &mut List<(Text, bool)>, name: Text) -> Result<(), NoMemory>
    ensures { OnOk result (names.new ≡ once_more names.old name) }
{
    if has(names.as_slice(), &name) {
        return Ok(());
    }
    names.push((name, true))
}

/// A scope with one name.
pub fn single(alloc: Global, name: &Text, assignable: bool) -> Result<List<(Text, bool)>, NoMemory>
    ensures { IfOk result (λ names. names ≡ (name.now, assignable) ∷ []) }
{
    let mut names = List::new(alloc);
    names.push((name.copy(alloc)?, assignable))?;
    Ok(names)
}

/// Puts each of these names after the others, if it isn't one of them.
pub fn add_all(names: &mut List<(Text, bool)>, mut more: Front<Text>) -> Result<(), NoMemory>
    ensures { OnOk result (names.new ≡ each_once_more names.old more) }
{
    while let Some(name) = more.pop() {
        add(names, name)?;
    }
    Ok(())
}

/// The same, of names that stay where they are.
pub fn add_copies(
    alloc: Global,
    names: &mut List<(Text, bool)>,
    more: &[Text],
) -> Result<(), NoMemory>
    ensures { OnOk result (names.new ≡ each_once_more names.old more.now) }
{
    for name in more {
        add(names, name.copy(alloc)?)?;
    }
    Ok(())
}
