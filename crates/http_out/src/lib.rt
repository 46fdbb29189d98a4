//! Responses of HTTP/1.1 as bytes (RFC 9112).
#![tactic(auto)]

mod field;
mod law;
mod lines;
mod reply;
#[cfg(test)]
mod tests;
mod write;

pub use field::{is_field_name, is_field_value};
pub use law::has_one_reading;
pub use reply::Reply;
pub use write::response;
