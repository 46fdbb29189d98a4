//! Whole requests of HTTP/1.1 and HTTP/1.0 (RFC 9112), read from a source in any cutting of the bytes.
#![tactic(auto)]

mod decide;
mod fields;
mod head;
mod judge;
mod laws;
mod length;
mod line;
mod reader;
mod request;
#[cfg(test)]
mod tests;

pub use laws::{answers_join, has_one_reading, stays_decided};
pub use reader::{Next, Reader};
pub use request::Request;
