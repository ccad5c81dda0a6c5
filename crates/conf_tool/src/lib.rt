//! What the program does, apart from opening files: its command line, and its modes over any reader and writer.
//!
//! ```text
//! lines     one change a line           -> the configuration after each
//! check     a script                    -> each directive whose output differs, and the counts
//! rewrite   a script                    -> the script with its actual output
//! undo      a script                    -> a second script that undoes its last changes
//! plan      pairs of configurations     -> the steps from the first to the second of each
//! next      views of a cluster in JSON  -> what to do next, for each
//! ```
//!
//! The output of a mode is a function of its input and its options. Each mode is proved to print exactly this output,
//! or a prefix of it if a read, a write or an allocation fails. A reply is flushed before the mode waits for more
//! input.
#![tactic(auto)]

pub mod argument_fault;
pub mod command_line;
pub mod exit_status;
mod help;
mod id_list;
pub mod invocation;
pub mod laws;
mod line_reply;
pub mod mode;
mod next_reply;
pub mod options;
pub mod origin;
mod pair;
pub mod pair_arguments;
mod pair_reading;
mod plan_answer;
pub mod plan_input_fault;
pub mod plan_options;
mod program;
mod report;
pub mod run;
pub mod status;
pub mod tool_fault;
mod undo_script;

pub use argument_fault::ArgumentFault;
pub use invocation::Invocation;
pub use mode::Mode;
pub use options::Options;
pub use origin::Origin;
pub use pair_arguments::PairArguments;
pub use plan_input_fault::PlanInputFault;
pub use plan_options::{PlanOptions, PlanOutput};
pub use plan_output::Output;
pub use status::Status;
pub use tool_fault::ToolFault;
