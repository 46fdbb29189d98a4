//! What code does, and what stands in it for each node of a tree: laws from code to meaning.
#![tactic(auto)]

mod laws;

pub use laws::{
    Saying, accepted_scripts_have_valid_code, calls_keep_what_dictionaries_say,
    code_does_what_scripts_mean, names_are_found, runs_keep_their_replies, sizes_are_small,
    sound_scripts_have_valid_code, stopped_runs_answer_nothing_more,
    writing_keeps_what_stands_behind,
};
