//! The command line of the collector: its arguments, its files, what it prints, and how it ends.
//!
//! [`asked_task`] reads the arguments. [`replay_file`] replays a script, and [`check_file`] checks settings. `serve`
//! takes its settings from [`settings_of_file`], its address from [`listen_at`] and its admin port from
//! [`admin_door`], and looks at the limit of open files with [`has_descriptors`]. [`Reason`] keeps why something
//! failed, [`Watched`] how an input or an output failed, and [`ended`] gives the status.
//!
//! Exit statuses: 0 done, and good settings; 1 a fault of the settings, the script, the input or the output; 2 wrong
//! usage; 3 an allocation failure.
//!
//! It uses `trace_collector` for `replay`, `settings_check` for `check`, and `service_runtime` for the admin port and
//! for documents.
#![tactic(auto)]

mod admin;
mod check;
mod course;
mod descriptors;
mod end;
mod examples;
mod fault;
mod files;
mod reason;
mod replay;
mod start;
mod task;
mod watched;

pub use admin::{AdminDoor, admin_door, port_at};
pub use check::{End, check_file};
pub use course::Course;
pub use descriptors::{ThreadCounts, thread_counts};
pub use end::ended;
pub use fault::{ProgramFault, of_arguments, whole};
pub use reason::Reason;
pub use replay::{READ_SIZE, replay_file};
pub use start::{has_descriptors, listen_at, settings_of_file};
pub use task::{HELP, ServeOptions, Task, VERSION, asked_task};
pub use watched::{Watched, put_input, put_output};
