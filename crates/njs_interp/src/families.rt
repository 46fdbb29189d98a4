// How the operations are sorted.
ghost use Rattle.std.specs.Prelude.{◌≡◌};
ghost use Rattle.njs_interp.specs.Dispatch.{family_of};

use njs_code::Kind;

/// Operations that are done alike.
#[derive(Clone, Copy)]
pub(crate) enum Family {
    /// They put a value on top.
    Constant,
    /// They move operands.
    Operand,
    /// They work on the slots of scopes.
    Slot,
    /// They read and write members.
    Member,
    /// They make objects and numbers.
    Made,
    /// They work on lists of names.
    Listed,
    /// They end a part of the code.
    End,
    /// It throws an error by itself.
    Failing,
    /// They go on elsewhere.
    Jump,
    /// They lead out of a part of the code.
    Leading,
    /// They ask a caller.
    Asked,
    /// They ask a caller in the call that they stand in.
    Called,
}

#[tactic(auto, unfolding(crate::specs::Dispatch::family_of))]
pub(crate) fn family_of(kind: &Kind) -> Family
    ensures { result ≡ family_of kind.now }
{
    match kind {
        Kind::Undefined | Kind::Null | Kind::Bool(_) | Kind::Num(_) | Kind::Str(_) | Kind::This =>
            Family::Constant,
        Kind::Tuck(_) | Kind::Drop | Kind::Nip | Kind::Receiver => Family::Operand,
        Kind::Load { .. }
        | Kind::Store { .. }
        | Kind::LoadGlobal(_)
        | Kind::StoreGlobal(_)
        | Kind::Enter(_)
        | Kind::Leave => Family::Slot,
        Kind::Base | Kind::Get | Kind::GetKept | Kind::Method | Kind::Put | Kind::DeleteMember =>
            Family::Member,
        Kind::NewArray | Kind::NewObject | Kind::Define(_) | Kind::Step(_) => Family::Made,
        Kind::NextName | Kind::DropList => Family::Listed,
        Kind::EndBody { .. } | Kind::EndSwitch | Kind::EndBlock | Kind::Finally => Family::End,
        Kind::Fail(_) => Family::Failing,
        Kind::Jump(_)
        | Kind::JumpFalse(_)
        | Kind::JumpLogical(_, _)
        | Kind::JumpSame(_)
        | Kind::MoreNames(_) => Family::Jump,
        Kind::Return | Kind::Break(_) | Kind::Continue(_) | Kind::Throw | Kind::Resume =>
            Family::Leading,
        Kind::Charge
        | Kind::Key
        | Kind::Binary(_)
        | Kind::Unary(_)
        | Kind::ToNumber
        | Kind::ListNames => Family::Asked,
        Kind::Call(_) | Kind::New(_) | Kind::Closure { .. } | Kind::Arguments => Family::Called,
    }
}
