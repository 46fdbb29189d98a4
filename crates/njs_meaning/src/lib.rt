//! The meaning of the language: definitions, and beside those that compute plain programs that give them.
#![tactic(auto)]

mod level;
mod literal;
mod numbers;
mod place;
mod prototypes;

pub use level::{Hint, Level};
pub use literal::number_of_text;
pub use numbers::{signed_32, unsigned_32};
pub use place::Place;
pub use prototypes::Prototype;
