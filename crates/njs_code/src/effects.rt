// What each kind of operation needs of the depth, what it takes and gives, and where it goes on.
ghost use Rattle.std.specs.Prelude.{◌≡◌, ◌<◌, ◌^◌};
ghost use Rattle.njs_code.specs.Effects.{operands_taken, operands_given, scopes_needed, scopes_taken, scopes_given, lists_needed, lists_taken, lists_given, endings_taken, endings_given, goes_on, jump_of, operands_at_jump, past_of, is_ending};

use crate::{Address, Kind};

#[tactic(auto, unfolding(crate::specs::Effects::operands_taken))]
pub fn operands_taken(kind: &Kind) -> u64
    ensures taken { result ≡ operands_taken kind.now }
    ensures small { result < 2 ^ 33 }
{
    match kind {
        Kind::Store { .. }
        | Kind::StoreGlobal(_)
        | Kind::Base
        | Kind::Unary(_)
        | Kind::ToNumber
        | Kind::Step(_)
        | Kind::Drop
        | Kind::Receiver
        | Kind::JumpFalse(_)
        | Kind::JumpLogical(..)
        | Kind::ListNames
        | Kind::Enter(_)
        | Kind::Return
        | Kind::Throw => 1,
        Kind::Key
        | Kind::Get
        | Kind::GetKept
        | Kind::Method
        | Kind::DeleteMember
        | Kind::Binary(_)
        | Kind::Nip
        | Kind::JumpSame(_)
        | Kind::Define(_) => 2,
        Kind::Put => 3,
        Kind::Tuck(under) => u64::from(*under) + 1,
        Kind::Call(arguments) => u64::from(*arguments) + 2,
        Kind::New(arguments) => u64::from(*arguments) + 1,
        _ => 0,
    }
}

#[tactic(auto, unfolding(crate::specs::Effects::operands_given))]
pub fn operands_given(kind: &Kind) -> u64
    ensures given { result ≡ operands_given kind.now }
    ensures small { result < 2 ^ 33 }
{
    match kind {
        Kind::Undefined
        | Kind::Null
        | Kind::Bool(_)
        | Kind::Num(_)
        | Kind::Str(_)
        | Kind::This
        | Kind::Load { .. }
        | Kind::Store { .. }
        | Kind::LoadGlobal(_)
        | Kind::StoreGlobal(_)
        | Kind::Base
        | Kind::Get
        | Kind::Put
        | Kind::DeleteMember
        | Kind::Binary(_)
        | Kind::Unary(_)
        | Kind::ToNumber
        | Kind::Step(_)
        | Kind::Nip
        | Kind::JumpSame(_)
        | Kind::Call(_)
        | Kind::New(_)
        | Kind::NewArray
        | Kind::NewObject
        | Kind::Define(_)
        | Kind::Closure { .. }
        | Kind::Arguments
        | Kind::NextName
        | Kind::EndBlock => 1,
        Kind::Key | Kind::Method | Kind::Receiver => 2,
        Kind::GetKept => 3,
        Kind::Tuck(under) => u64::from(*under) + 2,
        _ => 0,
    }
}

#[tactic(auto, unfolding(crate::specs::Effects::scopes_needed))]
pub fn scopes_needed(kind: &Kind) -> u32
    ensures { result ≡ scopes_needed kind.now }
{
    match kind {
        Kind::Leave => 2,
        _ => 1,
    }
}

#[tactic(auto, unfolding(crate::specs::Effects::scopes_taken))]
pub fn scopes_taken(kind: &Kind) -> u32
    ensures { result ≡ scopes_taken kind.now }
{
    match kind {
        Kind::Leave => 1,
        _ => 0,
    }
}

#[tactic(auto, unfolding(crate::specs::Effects::scopes_given))]
pub fn scopes_given(kind: &Kind) -> u32
    ensures { result ≡ scopes_given kind.now }
{
    match kind {
        Kind::Enter(_) => 1,
        _ => 0,
    }
}

#[tactic(auto, unfolding(crate::specs::Effects::lists_needed))]
pub fn lists_needed(kind: &Kind) -> u32
    ensures { result ≡ lists_needed kind.now }
{
    match kind {
        Kind::MoreNames(_) | Kind::NextName | Kind::DropList => 1,
        _ => 0,
    }
}

#[tactic(auto, unfolding(crate::specs::Effects::lists_taken))]
pub fn lists_taken(kind: &Kind) -> u32
    ensures { result ≡ lists_taken kind.now }
{
    match kind {
        Kind::DropList => 1,
        _ => 0,
    }
}

#[tactic(auto, unfolding(crate::specs::Effects::lists_given))]
pub fn lists_given(kind: &Kind) -> u32
    ensures { result ≡ lists_given kind.now }
{
    match kind {
        Kind::ListNames => 1,
        _ => 0,
    }
}

#[tactic(auto, unfolding(crate::specs::Effects::endings_taken))]
pub fn endings_taken(kind: &Kind) -> u32
    ensures { result ≡ endings_taken kind.now }
{
    match kind {
        Kind::Resume => 1,
        _ => 0,
    }
}

#[tactic(auto, unfolding(crate::specs::Effects::endings_given))]
pub fn endings_given(kind: &Kind) -> u32
    ensures { result ≡ endings_given kind.now }
{
    match kind {
        Kind::Finally => 1,
        _ => 0,
    }
}

#[tactic(auto, unfolding(crate::specs::Effects::goes_on))]
pub fn goes_on(kind: &Kind) -> bool
    ensures { result ≡ goes_on kind.now }
{
    !matches!(
        kind,
        Kind::Jump(_)
            | Kind::Fail(_)
            | Kind::Return
            | Kind::Break(_)
            | Kind::Continue(_)
            | Kind::Throw
    )
}

#[tactic(auto, unfolding(crate::specs::Effects::jump_of))]
pub fn jump_of(kind: &Kind) -> Option<Address>
    ensures { result ≡ jump_of kind.now }
{
    match kind {
        Kind::Jump(to)
        | Kind::JumpFalse(to)
        | Kind::JumpLogical(_, to)
        | Kind::JumpSame(to)
        | Kind::MoreNames(to) => Some(*to),
        _ => None,
    }
}

#[tactic(auto, unfolding(crate::specs::Effects::operands_at_jump))]
pub fn operands_at_jump(kind: &Kind) -> u32
    ensures { result ≡ operands_at_jump kind.now }
{
    match kind {
        Kind::JumpLogical(..) => 1,
        _ => 0,
    }
}

#[tactic(auto, unfolding(crate::specs::Effects::past_of))]
pub fn past_of(kind: &Kind) -> Option<Address>
    ensures { result ≡ past_of kind.now }
{
    match kind {
        Kind::EndBody { past, .. } => Some(*past),
        _ => None,
    }
}

#[tactic(auto, unfolding(crate::specs::Effects::is_ending))]
pub fn is_ending(kind: &Kind) -> bool
    ensures { result ≡ is_ending kind.now }
{
    matches!(
        kind,
        Kind::EndBody { .. } | Kind::EndSwitch | Kind::EndBlock | Kind::Finally
    )
}
