// How many slots the scopes have outwards from an operation, and the functions that stand in them.
ghost use Rattle.std.specs.Prelude.{◌≡◌, ◌==◌, ◌++◌, replicate, slice_get};
ghost use Rattle.std.specs.List.{list_all};
ghost use Rattle.std.specs.Option.{option_copied};
ghost use Rattle.njs_code.specs.Valid.{slots_outwards, outermost, is_slot, same_slots, slots_behind, closure_slots, stands_in};

use crate::FunctionCode;
use njs_text::Text;

// The scope so many steps out, where so many were entered inside the function's own.
#[tactic(auto, using(crate::proofs::Outwards::outwards))]
fn slots_at(slots: &[u32], entered: u32, up: u32) -> Option<u32>
    ensures { result ≡ slice_get (replicate entered 1 ++ slots.now) up }
{
    if up < entered {
        return Some(1);
    }
    slots.get((up - entered) as usize).copied()
}

fn is_below(slot: u32, count: Option<u32>) -> bool
    ensures { result ≡ is_slot slot count }
{
    match count {
        None => false,
        Some(count) => slot < count,
    }
}

/// Whether a slot is there, so many steps out from an operation.
pub fn is_slot(slots: &[u32], scopes: u32, up: u32, slot: u32) -> bool
    ensures { result ≡ is_slot slot (slice_get (slots_outwards slots.now scopes) up) }
{
    is_below(slot, slots_at(slots, scopes.saturating_sub(1), up))
}

/// Whether a slot of the outermost scope is there.
pub fn is_outermost_slot(slots: &[u32], slot: u32) -> bool
    ensures { result ≡ is_slot slot (outermost slots.now) }
{
    is_below(slot, slots.get(slots.len().saturating_sub(1)).copied())
}

fn all_have_one(slots: &[u32]) -> bool
    ensures { result ≡ list_all (λ n. n == 1) slots.now }
{
    slots.iter().all(|count| *count == 1)
}

fn same_slots(a: &[u32], b: &[u32]) -> bool
    ensures { result ≡ same_slots a.now b.now }
{
    a == b
}

// Whether scopes are so many that were entered, and then these.
#[tactic(auto, using(crate::proofs::Outwards::outwards))]
fn are_outwards(got: &[u32], entered: usize, slots: &[u32]) -> bool
    ensures { result ≡ same_slots got.now (replicate entered 1 ++ slots.now) }
{
    if got.len() < entered {
        return false;
    }
    all_have_one(&got[..entered]) && same_slots(&got[entered..], slots)
}

// The same, with the scope of a function's name in front of them.
fn are_around(got: &[u32], scopes: u32, slots: &[u32], name: &Option<Text>) -> bool
    ensures { result ≡ same_slots got.now (closure_slots slots.now scopes name.now) }
{
    let entered = scopes.saturating_sub(1) as usize;
    match name {
        None => are_outwards(got, entered, slots),
        Some(_) => match got {
            [] => false,
            [own, rest @ ..] => *own == 1 && are_outwards(rest, entered, slots),
        },
    }
}

/// Whether a function is there, and its scopes behind its own are those outwards from an operation, with that of a name.
pub fn stands_in(f: Option<&FunctionCode>, scopes: u32, slots: &[u32], name: &Option<Text>) -> bool
    ensures { result ≡ stands_in (option_copied f.entry) (closure_slots slots.now scopes name.now) }
{
    match f {
        None => false,
        Some(f) => match f.slots.as_slice() {
            [] => false,
            [_, rest @ ..] => are_around(rest, scopes, slots, name),
        },
    }
}
