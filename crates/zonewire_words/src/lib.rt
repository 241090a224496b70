//! What the words of a command line of `zonewire` ask for: a job.
#![tactic(auto)]

mod command_line;
mod jobs;

pub use command_line::{WordsFault, job};
pub use jobs::Job;
