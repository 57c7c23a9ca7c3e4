//! The engine for hosts, in one crate: all that a host names to load a session, to send events and to run
//! scripts. This crate defines nothing. Each item is documented in the crate that defines it.
//!
//! The definitions that contracts of a host cite are available through this crate too, as in
//! `ghost use Rattle.kb_host.specs.Native.{Fits};`, and declared types as well, as in
//! `Rattle.kb_host.specs.declared.Native.{Native}`. `specs/Lib.antt` lists the files of definitions.
#![tactic(auto)]

// Sessions: files, events, and what a session returns.
pub use kb_context::ContextValue;
pub use kb_execute::Finish;
pub use kb_files::{ExtensionFiles, Inputs, LoadFault, LoadFile, read_context_text};
pub use kb_keys::{Chord, KeyFault, Keystroke, Platform};
pub use kb_resolve::{Found, Placed, Resolved};
pub use kb_session::{EventEnd, Handled, Session, SessionFault};
pub use kb_stream::{Lines, WriteRefused, write_whole};
pub use kb_trace::{Answer, Event};

// Native commands: the closures of a host, and what they run on.
pub use kb_core::{Arg, Args, Buffer, Core, NATIVES, Native, Ran, Signature, at_budget, plain};
pub use kb_registry::{HostCommand, NativeCommand, Permit, Run, Ticket};

// The command palette.
pub use kb_palette::{Entry, History, PaletteCommand, list};

// Scripts.
pub use kb_script::{SCRIPT_LIMIT, ScriptFault, run_script, stream_script};

// Texts, lists and faults.
pub use kb_base::{Failure, FaultKind, NoMemory, Refusal, Seq, Text};

// Warnings and unread patterns of entries.
pub use kb_base::{EntryPattern, Origin, Part, UnreadPattern, Warning};
