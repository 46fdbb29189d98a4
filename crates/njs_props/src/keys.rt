// The names of properties, in the order in which a script sees them.
ghost use Rattle.std.specs.Prelude.{◌≡◌, ◌++◌, ◌∷◌, [], filter, not, IfOk, OnOk};
ghost use Rattle.njs_props.specs.Names.{in_key_order, with_index, is_index};
ghost use Rattle.njs_props.specs.Props.{names_of};

use crate::map::PropMap;
use crate::names::array_index;
use njs_text::{NoMemory, Text};
use std::alloc::Global;
use std::collections::BTreeMap;

impl<T> PropMap<T> {
    /// The names as a script sees them: array indices rising by number, and then the others in order of creation.
    pub fn keys(&self, alloc: Global) -> Result<Vec<Text>, NoMemory>
        ensures { IfOk result (λ names. names.items ≡ in_key_order (names_of self.now)) }
    {
        let mut indices = BTreeMap::new(alloc);
        let mut others = Vec::new(alloc);
        for place in 0..self.len() {
            let (name, _, _) = self.at(place).unwrap();
            file_name(alloc, name, &mut indices, &mut others)?;
        }
        let mut names: Vec<Text> = indices.into_values().collect(alloc)?;
        names.append(&mut others)?;
        Ok(names)
    }
}

// Puts a name among the indices or behind the others.
fn file_name(
    alloc: Global,
    name: &Text,
    indices: &mut BTreeMap<u32, Text>,
    others: &mut Vec<Text>,
) -> Result<(), NoMemory>
    ensures indices { OnOk result (indices.new.entries ≡ with_index indices.old.entries name.now) }
    ensures others { OnOk result (others.new.items ≡ others.old.items ++ filter (λ name. not (is_index name)) (name.now ∷ [])) }
{
    match array_index(name) {
        None => others.push(name.copy(alloc)?)?,
        Some(index) => {
            indices.insert(index, name.copy(alloc)?)?;
        }
    }
    Ok(())
}
