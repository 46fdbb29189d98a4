//! Members of values, objects or not, in the heap of a machine.
#![tactic(auto)]

mod found;
mod instances;
mod names;
mod own;
mod reads;
mod starts;
#[cfg(test)]
mod tests;
mod values;
mod writes;

pub use instances::instance_of;
pub use names::names_in;
pub use reads::{get_member, has_member};
pub use starts::has_members;
pub use values::{is_callable, is_same};
pub use writes::{delete_member, put_member};
