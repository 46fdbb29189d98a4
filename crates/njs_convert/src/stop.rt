// Why a call gave no value.
use njs_value::Value;

/// Why a call gave no value.
#[derive(Clone, Copy, Debug, PartialEq, Eq)]
pub enum Stop {
    /// A value was thrown.
    Throw(Value),
    /// The ticks are spent.
    Fuel,
    /// A growth was refused. The machine is then only thrown away.
    NoMemory,
}
