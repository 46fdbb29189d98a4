//! The heap of one machine, over a heap that machines share.
#![tactic(auto)]

mod arrays;
mod changes;
mod definitions;
mod laws;
mod machine;
mod properties;
mod reads;
#[cfg(test)]
mod tests;

pub use laws::{
    ends_go_by_content, new_texts_change_no_object, operations_go_by_content,
    walks_come_to_their_ends,
};
pub use machine::Machine;
