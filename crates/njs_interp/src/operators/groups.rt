// How operators of two values go about them.
ghost use Rattle.std.specs.Prelude.{◌≡◌};
ghost use Rattle.njs_interp.specs.Alone.{group_of};

use njs_tree::BinaryOp;

/// How an operator of two values goes about them.
#[derive(Clone, Copy)]
pub enum Group {
    /// `+`
    Sum,
    /// `==`
    Equality,
    /// `!=`
    Inequality,
    /// `===`
    Identity,
    /// `!==`
    Difference,
    /// Both are made values that are no objects.
    Relation,
    /// `instanceof`
    Instance,
    /// `in`
    Member,
    /// Both are made numbers.
    Numbers,
}

pub fn group_of(op: BinaryOp) -> Group
    ensures { result ≡ group_of op }
{
    match op {
        BinaryOp::Add => Group::Sum,
        BinaryOp::Eq => Group::Equality,
        BinaryOp::Ne => Group::Inequality,
        BinaryOp::StrictEq => Group::Identity,
        BinaryOp::StrictNe => Group::Difference,
        BinaryOp::Lt | BinaryOp::Gt | BinaryOp::Le | BinaryOp::Ge => Group::Relation,
        BinaryOp::InstanceOf => Group::Instance,
        BinaryOp::In => Group::Member,
        BinaryOp::BitOr
        | BinaryOp::BitXor
        | BinaryOp::BitAnd
        | BinaryOp::Shl
        | BinaryOp::Shr
        | BinaryOp::UShr
        | BinaryOp::Sub
        | BinaryOp::Mul
        | BinaryOp::Div
        | BinaryOp::Rem => Group::Numbers,
    }
}
