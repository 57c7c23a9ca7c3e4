//! Runs a program, from its options to its end: over any files, streams and console, and over the system. It
//! also says how the end is reported: why the run stopped, its exit status, and its lines on standard error.
//! The command line is read in crates above, because each check of code that names `clap` is expensive.
#![tactic(auto)]

pub mod exit_status;
pub mod outcome;
pub mod report;
pub mod run;
pub mod setup;
pub mod streams;
pub mod system;
pub mod voice;

pub use exit_status::{ending, script_stop};
pub use outcome::Stop;
pub use report::run_and_report;
pub use run::carry_out;
pub use setup::{HostClosures, Setup, Verification};
pub use streams::Streams;
pub use system::{run_on_system, without_memory};
pub use voice::{Console, SystemConsole, Voice};
