//! The plain data of the engine's values and objects. It stands on nothing, so that every definition of the language's
//! meaning may speak of it.
#![tactic(auto)]

/// The largest number that a value holds, 2^53 - 1; the least is its negative. Up to there the numbers of ECMA-262 5.1
/// §8.5 hold every whole number.
pub const MAX_SAFE: i64 = 9_007_199_254_740_991;

/// The number of a text in the heap's list of texts.
#[derive(Clone, Copy, Debug, PartialEq, Eq)]
pub struct TextId(pub u32);

/// The number of an object in the heap's list of objects.
#[derive(Clone, Copy, Debug, PartialEq, Eq)]
pub struct ObjId(pub u32);

/// The number of a scope in the heap's list of scopes.
#[derive(Clone, Copy, Debug, PartialEq, Eq)]
pub struct ScopeId(pub u32);

/// The number of a row in the table of built-in functions.
#[derive(Clone, Copy, Debug, PartialEq, Eq)]
pub struct Row(pub u16);

/// A value of the language (ECMA-262 5.1 §8). Numbers are whole. Texts and objects stand in the heap, and a value holds
/// their numbers: two values with different numbers may be the same text.
#[derive(Clone, Copy, Debug, PartialEq, Eq)]
pub enum Value {
    /// §8.1
    Undefined,
    /// §8.2
    Null,
    /// §8.3
    Bool(bool),
    /// §8.5, from `-MAX_SAFE` to `MAX_SAFE`
    Num(i64),
    /// §8.4
    Str(TextId),
    /// §8.6
    Obj(ObjId),
}

/// What a script may do with a property: the attributes of a data property (ECMA-262 5.1 §8.6.1).
#[derive(Clone, Copy, Debug, PartialEq, Eq)]
pub struct Flags {
    /// Its value may be changed.
    pub writable: bool,
    /// `for in` and `Object.keys` show it.
    pub enumerable: bool,
    /// It may be deleted, and its flags may be changed.
    pub configurable: bool,
}

/// A property descriptor (ECMA-262 5.1 §8.10): what a definition says of a property, each part where it is given.
/// The values are those of the heap, or of another kind where a meaning is stated over the values themselves.
#[derive(Clone, Copy, Debug)]
pub struct Desc<T = Value> {
    pub value: Option<T>,
    pub writable: Option<bool>,
    pub enumerable: Option<bool>,
    pub configurable: Option<bool>,
}

/// The class of an object (ECMA-262 5.1 §8.6.2). The last three are those of the server's own objects.
#[derive(Clone, Copy, Debug, PartialEq, Eq)]
pub enum Class {
    Object,
    Array,
    Function,
    Error,
    Arguments,
    /// The header fields of a request, whose names are compared without regard to the case of ASCII letters.
    HeadersIn,
    /// A request.
    Request,
    /// A dictionary that requests share.
    Zone,
}

/// Why an operation throws. Each cause is of one type of error (ECMA-262 5.1 §15.11.6) and has one message.
#[derive(Clone, Copy, Debug, PartialEq, Eq)]
pub enum Cause {
    /// ReferenceError: the name stands for nothing.
    NotDefined(TextId),
    /// TypeError: the callee can't be called.
    NotFunction,
    /// TypeError: the callee is no constructor.
    NotConstructor,
    /// TypeError: a property of undefined or null.
    NullBase,
    /// TypeError: an object is wanted.
    NotObject,
    /// TypeError: the property or name can't be written.
    ReadOnly,
    /// TypeError: the object takes no new properties.
    NotExtensible,
    /// TypeError: the property can be neither deleted nor changed so.
    NotConfigurable,
    /// TypeError: the method isn't for this receiver.
    WrongReceiver,
    /// TypeError: the argument is of another type.
    WrongArgument,
    /// TypeError: neither `valueOf` nor `toString` gives a value that is no object.
    NoPrimitive,
    /// TypeError: an object leads back to itself where that is not allowed.
    Circular,
    /// TypeError: a reduction of an array without elements and without a first value.
    EmptyReduce,
    /// TypeError: the response is past the point at which the call is allowed.
    ResponseState,
    /// TypeError: no name or value of a header field.
    BadField,
    /// RangeError: a number beyond `MAX_SAFE`.
    OutOfRange,
    /// RangeError: a number that isn't whole.
    Fraction,
    /// RangeError: a division by zero.
    DivideByZero,
    /// RangeError: a value that stands for no number.
    NotNumber,
    /// RangeError: too many calls within one another.
    CallDepth,
    /// RangeError: a text longer than texts can be.
    TextTooLong,
    /// RangeError: no length of an array.
    BadLength,
    /// RangeError: an argument outside its range.
    BadArgument,
    /// RangeError: a value that is nested too deeply.
    TooNested,
    /// SyntaxError: no JSON.
    BadJson,
    /// URIError: no text that can be encoded or decoded.
    BadUri,
    /// SharedMemoryError: a dictionary has no room.
    NoRoom,
}

/// Why an operation on the heap gave nothing.
#[derive(Clone, Copy, Debug, PartialEq, Eq)]
pub enum HeapStop {
    /// The script is to see an error of this cause.
    Throw(Cause),
    /// A growth was refused.
    NoMemory,
}
