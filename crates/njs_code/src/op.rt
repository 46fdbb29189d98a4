// One operation.
use njs_text::{List, Text};
use njs_tree::{BinaryOp, LogicalOp, UnaryOp, UpdateOp};

/// Where an operation stands in the code of its function: how many operations stand from it to the end, itself counted. So
/// the last one is at 1, and the one behind another is at one less.
#[derive(Clone, Copy, Debug, PartialEq, Eq)]
pub struct Address(pub u32);

/// How much stands at an operation: operands, the scopes that were entered in this call, the call's own among them, lists of
/// names that `for in` goes through, and endings that wait for the end of a `finally`. The scopes tell where the operation
/// stands: in the innermost of them, each of which has one slot, but for the call's own.
#[derive(Clone, Copy, Debug, PartialEq, Eq)]
pub struct Depth {
    pub operands: u32,
    pub scopes: u32,
    pub lists: u32,
    pub endings: u32,
}

/// A cause that an operation throws by itself.
#[derive(Drop)]
pub enum Failure {
    /// The name is bound nowhere (ECMA-262 5.1 §8.7.1, §8.7.2).
    NotDefined(Text),
    /// The name can't be assigned (ECMA-262 5.1 §10.2.1.1.3).
    ReadOnly,
}

/// What an operation does. The operands that it takes and gives stand behind each, the top last.
#[derive(Drop)]
pub enum Kind {
    /// Takes one tick.
    Charge,
    /// `[] → [undefined]`
    Undefined,
    /// `[] → [null]`
    Null,
    /// `[] → [truth value]`
    Bool(bool),
    /// `[] → [number]`
    Num(i64),
    /// `[] → [text]`
    Str(Text),
    /// `[] → [this]`
    This,
    /// The value of a slot, so many scopes out: `[] → [value]`
    Load {
        up: u32,
        slot: u32,
    },
    /// Gives a slot a value: `[value] → [value]`
    Store {
        up: u32,
        slot: u32,
    },
    /// The value of a slot of the outermost scope: `[] → [value]`
    LoadGlobal(u32),
    /// Gives a slot of the outermost scope a value: `[value] → [value]`
    StoreGlobal(u32),
    /// Throws.
    Fail(Failure),
    /// Throws where the value has no members (ECMA-262 5.1 §9.10): `[base] → [base]`
    Base,
    /// The same of the base, and then the key as a text: `[base, key] → [base, name]`
    Key,
    /// `[base, name] → [value]`
    Get,
    /// `[base, name] → [base, name, value]`
    GetKept,
    /// `[base, name] → [base, value]`
    Method,
    /// `[base, name, value] → [value]`
    Put,
    /// `[base, name] → [true]`
    DeleteMember,
    /// `[left, right] → [value]`
    Binary(BinaryOp),
    /// `[value] → [value]`
    Unary(UnaryOp),
    /// `[value] → [number]`
    ToNumber,
    /// The number after `++` or `--`: `[number] → [number]`
    Step(UpdateOp),
    /// Puts the top also under so many operands below it.
    Tuck(u32),
    /// `[value] → []`
    Drop,
    /// `[below, value] → [value]`
    Nip,
    /// `[value] → [undefined, value]`
    Receiver,
    /// On at another operation.
    Jump(Address),
    /// On there where the value is false (ECMA-262 5.1 §9.2): `[value] → []`
    JumpFalse(Address),
    /// On there with the value, where the operator leaves out its second: `[value] → []`, there `[value]`
    JumpLogical(LogicalOp, Address),
    /// On there where both are the same (ECMA-262 5.1 §9.12): `[value, other] → [value]`, there `[]`
    JumpSame(Address),
    /// With so many arguments: `[this, function, arguments] → [value]`
    Call(u32),
    /// With so many arguments: `[function, arguments] → [object]`
    New(u32),
    /// `[] → [array]`
    NewArray,
    /// `[] → [object]`
    NewObject,
    /// Gives an object a property: `[object, value] → [object]`
    Define(Text),
    /// Makes the function with a number, whose `length` is so many parameters; a name stands in a scope of its own around it
    /// (ECMA-262 5.1 §13): `[] → [function]`
    Closure {
        number: u32,
        params: u32,
        name: Option<Text>,
    },
    /// The `arguments` of the call (ECMA-262 5.1 §10.6): `[] → [object]`
    Arguments,
    /// Lists the names of a value (ECMA-262 5.1 §12.6.4): `[value] → []`
    ListNames,
    /// Skips names that aren't there any more. Where none is left, it goes on there.
    MoreNames(Address),
    /// Takes the next name of the list: `[] → [name]`
    NextName,
    /// Drops the list.
    DropList,
    /// Enters a scope with one name, which has the value: `[value] → []`
    Enter(Text),
    /// Leaves the scope.
    Leave,
    /// `[value] → `
    Return,
    /// Ends a loop or `switch`.
    Break(Option<Text>),
    /// Ends a turn of a loop.
    Continue(Option<Text>),
    /// `[value] → `
    Throw,
    /// The end of a loop's body: a `continue` of these labels goes on behind it, a `break` at the address.
    EndBody {
        labels: List<Text>,
        past: Address,
    },
    /// The end of a `switch`: a `break` without a label goes on behind it.
    EndSwitch,
    /// The end of a block with a `catch`, which stands behind it: `[] → [what was thrown]`
    EndBlock,
    /// The end of a block with a `finally`, which stands behind it: however the block ended, its ending waits.
    Finally,
    /// The end of a `finally`: the ending that waited goes on.
    Resume,
}

/// An operation, with what it counts on.
#[derive(Drop)]
pub struct Op {
    pub kind: Kind,
    /// What stands there before it.
    pub depth: Depth,
    /// The operation that ends the part of the code around it which endings lead to, if they don't end the function at once.
    pub around: Option<Address>,
}
