//! What the words of a command line of `zonetool` ask for: a task, which has the files and the options of its command.
#![tactic(auto)]

mod color_choice;
mod command_line;
mod reading;
mod task;

pub use color_choice::ColorChoice;
pub use command_line::{WordsFault, task_of};
pub use reading::{Reading, STANDARD_INPUT};
pub use task::Task;
