//! Conversions of values, which may call functions of the script, for every caller; and the heap that every run begins with.
#![tactic(auto)]

mod caller;
#[cfg(test)]
mod callers;
mod errors;
mod first;
#[cfg(test)]
mod fixtures;
mod laws;
mod methods;
mod numbers;
mod primitive;
mod stop;
#[cfg(test)]
mod tests;
mod texts;

pub use caller::{Caller, HostCaller};
pub use errors::throw;
pub use first::first_heap;
pub use laws::{first_heap_has_ends, prototypes_have_their_places};
pub use methods::to_boolean;
pub use njs_meaning::{Hint, Level};
pub use numbers::{to_int32, to_number, to_uint32};
pub use primitive::to_primitive;
pub use stop::Stop;
pub use texts::to_text;
