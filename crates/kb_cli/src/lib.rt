//! Parses the command line of a program by `clap`.
#![tactic(auto)]

pub mod command_line;
pub mod given;

pub use command_line::{
    all_texts, dirs_argument, file_option, not_text, options, options_in, platform_names,
    platform_option, text_given, valued_option,
};
pub use given::{OptionsFault, Program, VERSION, WordsFault, refuse_line, words_fault};
