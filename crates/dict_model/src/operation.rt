// What a zone is asked, what it answers, and what is kept.
ghost use Rattle.std.specs.Prelude.{◌≡◌, ◌↔◌, IsTrue, IfOk};
ghost use Rattle.dict_model.specs.Operation.{is_number, IsValue, IsAllowed, is_storing};

use njs_text::{List, NoMemory, Text};
use std::alloc::Global;

/// The largest number of the language, 2^53 - 1.
const MAX_NUMBER: u64 = 9_007_199_254_740_991;

/// A value of a zone: a text in a zone of type `string`, a number in one of type `number`.
#[derive(Debug, PartialEq, Eq, Drop)]
pub enum DictValue {
    Str(Text),
    Num(i64),
}

/// An operation, with its key. They are those of `ngx.shared` in the njs reference.
#[derive(Debug, Drop)]
pub enum DictOp {
    /// Stores a value, unless the key is there.
    Add(Text, DictValue),
    /// Stores a value.
    Set(Text, DictValue),
    /// Stores a value where the key is there.
    Replace(Text, DictValue),
    /// Adds a number, the first, to the one that is there, or else to the second one.
    Incr(Text, i64, i64),
    Get(Text),
    Has(Text),
    Delete(Text),
    /// Removes the key, and answers its value.
    Pop(Text),
    Clear,
    /// The first keys, at most so many.
    Keys(u32),
    Size,
    FreeSpace,
}

/// What an operation answers.
#[derive(Debug, Drop)]
pub enum DictReply {
    Yes,
    No,
    Value(DictValue),
    /// There is no value.
    Nothing,
    Number(i64),
    Names(List<Text>),
    /// There is no room for the value.
    Full,
    /// The number is not within plus or minus (2^53 - 1).
    Outside,
}

/// A call of a history: who asked, what, with which reading of the clock, and the reply.
#[derive(Debug, Drop)]
pub struct Entry {
    pub caller: u32,
    pub op: DictOp,
    pub reading: u64,
    pub reply: DictReply,
}

/// A zone as the configuration has it. Limits count bytes, and times milliseconds.
#[derive(Debug, Drop)]
pub struct ZoneSpec {
    pub name: Text,
    pub limit: u64,
    pub timeout: Option<u64>,
    /// The values are numbers; else they are texts.
    pub numeric: bool,
    /// Entries may be removed where there is no room for a new one.
    pub evict: bool,
}

/// What is kept under a key, and from which moment on it is no longer.
#[derive(Debug, Drop)]
pub struct Kept {
    pub key: Text,
    pub value: DictValue,
    pub expiry: Option<u64>,
}

impl DictValue {
    /// The same value.
    pub fn copy(&self, alloc: Global) -> Result<DictValue, NoMemory>
        ensures { IfOk result (λ value. value ≡ self.now) }
    {
        match self {
            DictValue::Str(text) => Ok(DictValue::Str(text.copy(alloc)?)),
            DictValue::Num(number) => Ok(DictValue::Num(*number)),
        }
    }
}

impl DictOp {
    /// Whether the operation may store a value.
    pub fn is_storing(&self) -> bool
        ensures { result ≡ is_storing self.now }
    {
        matches!(
            self,
            DictOp::Add(_, _) | DictOp::Set(_, _) | DictOp::Replace(_, _) | DictOp::Incr(_, _, _)
        )
    }

    /// The same operation.
    pub fn copy(&self, alloc: Global) -> Result<DictOp, NoMemory>
        ensures { IfOk result (λ op. op ≡ self.now) }
    {
        match self {
            DictOp::Add(key, value) => Ok(DictOp::Add(key.copy(alloc)?, value.copy(alloc)?)),
            DictOp::Set(key, value) => Ok(DictOp::Set(key.copy(alloc)?, value.copy(alloc)?)),
            DictOp::Replace(key, value) => Ok(DictOp::Replace(
                key.copy(alloc)?,
                value.copy(alloc)?,
            )),
            DictOp::Incr(key, step, initial) => Ok(DictOp::Incr(key.copy(alloc)?, *step, *initial)),
            DictOp::Get(key) => Ok(DictOp::Get(key.copy(alloc)?)),
            DictOp::Has(key) => Ok(DictOp::Has(key.copy(alloc)?)),
            DictOp::Delete(key) => Ok(DictOp::Delete(key.copy(alloc)?)),
            DictOp::Pop(key) => Ok(DictOp::Pop(key.copy(alloc)?)),
            DictOp::Clear => Ok(DictOp::Clear),
            DictOp::Keys(count) => Ok(DictOp::Keys(*count)),
            DictOp::Size => Ok(DictOp::Size),
            DictOp::FreeSpace => Ok(DictOp::FreeSpace),
        }
    }
}

// Whether a number is one of the language, within plus or minus (2^53 - 1).
pub(crate) fn is_number(number: i64) -> bool
    ensures { result ≡ is_number number }
{
    number.unsigned_abs() <= MAX_NUMBER
}

fn is_value(numeric: bool, value: &DictValue) -> bool
    ensures { IsTrue result ↔ IsValue numeric value.now }
{
    match value {
        DictValue::Str(_) => !numeric,
        DictValue::Num(number) => numeric && is_number(*number),
    }
}

impl ZoneSpec {
    /// Whether the zone can be asked this: a value is of its type, `Incr` is asked of numbers, and numbers are within
    /// plus or minus (2^53 - 1).
    pub fn allows(&self, op: &DictOp) -> bool
        ensures { IsTrue result ↔ IsAllowed self.now op.now }
    {
        match op {
            DictOp::Add(_, value) | DictOp::Set(_, value) | DictOp::Replace(_, value) => {
                is_value(self.numeric, value)
            }
            DictOp::Incr(_, step, initial) => {
                self.numeric && is_number(*step) && is_number(*initial)
            }
            _ => true,
        }
    }

    /// The same zone.
    pub fn copy(&self, alloc: Global) -> Result<ZoneSpec, NoMemory>
        ensures { IfOk result (λ spec. spec ≡ self.now) }
    {
        Ok(ZoneSpec {
            name: self.name.copy(alloc)?,
            limit: self.limit,
            timeout: self.timeout,
            numeric: self.numeric,
            evict: self.evict,
        })
    }
}
