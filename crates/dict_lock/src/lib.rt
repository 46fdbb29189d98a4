//! A zone that threads share: its callers take turns, and all calls stand in one history.
#![tactic(auto)]

mod plays;
mod stop;
#[cfg(test)]
mod tests;
mod turn;
mod view;
mod zone;

pub use stop::SplitStop;
pub use view::{Held, Opening, Turn, ZoneView};
pub use zone::{Zone, ZoneSeat};
