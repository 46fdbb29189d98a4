//! One connection: requests in, responses out.
#![tactic(auto)]

mod builder;
mod connection;
mod form;
mod laws;
mod plain;
mod running;
mod script;
mod site;
mod values;
mod writer;

pub use builder::{SiteFault, build};
pub use connection::{ConnEnd, serve_connection};
pub use laws::accepted_scripts_answer;
pub use script::{MAX_SCRIPT, ScriptStop, ScriptWhy, script_from};
pub use site::{Loaded, Site, load};
pub use writer::{Written, write_whole};
