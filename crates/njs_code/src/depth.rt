// Depths, and what an operation leaves of them.
ghost use Rattle.std.specs.Prelude.{◌≡◌, ◌+◌, ◌-◌, ◌==◌, ◌<◌, ◌^◌};
ghost use Rattle.njs_code.specs.Effects.{depth_left, depth_next, depth_at_jump};
ghost use Rattle.njs_code.specs.Valid.{same_depth, covers, holds};

use crate::effects::{
    endings_given, endings_taken, lists_given, lists_needed, lists_taken, operands_at_jump,
    operands_given, operands_taken, scopes_given, scopes_needed, scopes_taken,
};
use crate::{Depth, Kind};

/// Whether all that an operation takes or needs stands at a depth.
pub fn holds(kind: &Kind, depth: &Depth) -> bool
    ensures { result ≡ holds kind.now depth.now }
{
    operands_taken(kind) <= u64::from(depth.operands)
        && scopes_needed(kind) <= depth.scopes
        && lists_needed(kind) <= depth.lists
        && endings_taken(kind) <= depth.endings
}

pub fn same_depth(a: &Depth, b: &Depth) -> bool
    ensures { result ≡ same_depth a.now b.now }
{
    a.operands == b.operands && a.scopes == b.scopes && a.lists == b.lists && a.endings == b.endings
}

// One part of a depth, after so much was taken of it and given.
fn is_left(part: u32, before: u32, taken: u64, given: u64) -> bool
    requires { given < 2 ^ 33 }
    ensures { result ≡ (part == before - taken + given) }
{
    u64::from(part) == u64::from(before).saturating_sub(taken) + given
}

/// Whether a depth is the one that an operation leaves at the next.
pub fn is_next(depth: &Depth, kind: &Kind, before: &Depth) -> bool
    ensures { result ≡ same_depth depth.now (depth_next kind.now before.now) }
{
    let scopes_taken = u64::from(scopes_taken(kind));
    let scopes_given = u64::from(scopes_given(kind));
    let lists_taken = u64::from(lists_taken(kind));
    let lists_given = u64::from(lists_given(kind));
    let endings_taken = u64::from(endings_taken(kind));
    let endings_given = u64::from(endings_given(kind));
    is_left(
        depth.operands,
        before.operands,
        operands_taken(kind),
        operands_given(kind),
    ) && is_left(depth.scopes, before.scopes, scopes_taken, scopes_given)
        && is_left(depth.lists, before.lists, lists_taken, lists_given)
        && is_left(depth.endings, before.endings, endings_taken, endings_given)
}

/// Whether a depth is the one that an operation leaves where it jumps to.
pub fn is_at_jump(depth: &Depth, kind: &Kind, before: &Depth) -> bool
    ensures { result ≡ same_depth depth.now (depth_at_jump kind.now before.now) }
{
    let given = u64::from(operands_at_jump(kind));
    is_left(depth.operands, before.operands, operands_taken(kind), given)
        && depth.scopes == before.scopes.saturating_sub(scopes_taken(kind))
        && depth.lists == before.lists.saturating_sub(lists_taken(kind))
        && depth.endings == before.endings.saturating_sub(endings_taken(kind))
}

/// Whether an operation leaves at least this depth when it has taken what it takes.
pub fn is_covered(depth: &Depth, kind: &Kind, before: &Depth) -> bool
    ensures { result ≡ covers (depth_left kind.now before.now) depth.now }
{
    u64::from(depth.operands) <= u64::from(before.operands).saturating_sub(operands_taken(kind))
        && depth.scopes <= before.scopes.saturating_sub(scopes_taken(kind))
        && depth.lists <= before.lists.saturating_sub(lists_taken(kind))
        && depth.endings <= before.endings.saturating_sub(endings_taken(kind))
}
