//! A report on handlers for their authors: for each handler of some extensions, whether the verifier accepts
//! it, and why not, in sentences or as JSON.
#![tactic(auto)]

pub mod callable;
pub mod check;
pub mod extension;
mod files;
pub mod instruction;
pub mod judgement;
mod meaning;
mod objects;
mod path;
pub mod report;
mod sentences;
pub mod stop;

pub use callable::callable_of;
pub use check::check_extensions;
pub use extension::ExtensionCode;
pub use judgement::{Judgement, judge};
pub use report::report_extensions;
pub use stop::{Stop, status_of};
