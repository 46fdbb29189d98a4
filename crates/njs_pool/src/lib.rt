//! Workers that take connections from one listener, each in a thread of its own where one can be started.
#![tactic(auto)]

mod acceptor;
mod handler;
mod pool;
mod pool_end;
#[cfg(test)]
mod tests;

pub use handler::Handler;
pub use pool::{Pooled, workers};
pub use pool_end::PoolEnd;
