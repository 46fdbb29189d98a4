// The scopes around a place, and where a name stands in them.
ghost use Rattle.std.specs.Prelude.{◌≡◌, [], ◌∷◌, IfOk};
ghost use Rattle.njs_meaning.specs.Places.{slot_of, place_in, outward};
ghost use Rattle.njs_scope.specs.Walked.{around_of};

use njs_meaning::Place;
use njs_text::{List, NoMemory, Text};

/// The names of the scopes around a place, the innermost first.
#[derive(Clone, Copy)]
pub enum Around<'a> {
    Outermost(&'a List<(Text, bool)>),
    Inside(&'a List<(Text, bool)>, &'a Around<'a>),
}

/// The slot of a name in a scope, and whether it can be assigned. It takes no memory.
#[tactic(auto, using(crate::proofs::Slots::slots))]
pub fn slot_of(name: &Text, names: &[(Text, bool)]) -> Option<(usize, bool)>
    ensures { result ≡ slot_of name.now names.now }
{
    for (i, binding) in names.iter().enumerate() {
        if *name == binding.0 {
            return Some((i, binding.1));
        }
    }
    None
}

fn number_of(count: usize) -> Result<u32, NoMemory>
    ensures { IfOk result (λ number. number ≡ count) }
{
    if count > u32::MAX as usize {
        return Err(NoMemory);
    }
    Ok(count as u32)
}

fn in_outermost(name: &Text, names: &[(Text, bool)]) -> Result<Place, NoMemory>
    ensures { IfOk result (λ place. place ≡ place_in name.now (names.now ∷ [])) }
{
    match slot_of(name, names) {
        None => Ok(Place::Nowhere),
        Some((slot, assignable)) => Ok(Place::Global {
            slot: number_of(slot)?,
            assignable,
        }),
    }
}

// The same place, seen from the next scope.
fn outward(place: Place) -> Result<Place, NoMemory>
    ensures { IfOk result (λ further. further ≡ outward place) }
{
    match place {
        Place::Slot {
            up,
            slot,
            assignable,
        } => {
            if up == u32::MAX {
                return Err(NoMemory);
            }
            Ok(Place::Slot {
                up: up + 1,
                slot,
                assignable,
            })
        }
        other => Ok(other),
    }
}

/// Where a name stands (ECMA-262 5.1 §10.2.2.1): in the nearest scope that has it. It takes no memory.
#[tactic(auto, unfolding(crate::specs::Walked::around_of))]
pub fn place_of(name: &Text, around: &Around<'_>) -> Result<Place, NoMemory>
    ensures { IfOk result (λ place. place ≡ place_in name.now (around_of around.now)) }
{
    match around {
        Around::Outermost(names) => in_outermost(name, names.as_slice()),
        Around::Inside(names, further) => match slot_of(name, names.as_slice()) {
            None => outward(place_of(name, further)?),
            Some((slot, assignable)) => Ok(Place::Slot {
                up: 0,
                slot: number_of(slot)?,
                assignable,
            }),
        },
    }
}
