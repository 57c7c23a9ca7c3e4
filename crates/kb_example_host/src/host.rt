//! Uses a session, for any type of command: everything of the host but its closures.
use kb_host::{
    Event, Failure, HostCommand, Inputs, Keystroke, LoadFault, NoMemory, Session, SessionFault,
    Ticket, write_whole,
};
use std::alloc::Global;
use std::io;

/// Why the host stopped.
#[derive(Debug, Drop)]
pub enum HostFault {
    /// The load was refused.
    Load(LoadFault),
    /// The session refused a closure, or was stopped.
    Session(SessionFault),
    /// A write to standard output failed.
    Write,
    /// Memory was refused.
    NoMemory,
}

impl From<NoMemory> for HostFault {
    fn from(_: NoMemory) -> HostFault {
        HostFault::NoMemory
    }
}

impl From<io::Error> for HostFault {
    fn from(_: io::Error) -> HostFault {
        HostFault::Write
    }
}

impl From<SessionFault> for HostFault {
    fn from(fault: SessionFault) -> HostFault {
        HostFault::Session(fault)
    }
}

impl From<Failure<LoadFault>> for HostFault {
    fn from(failure: Failure<LoadFault>) -> HostFault {
        match failure {
            Failure::Fault(fault) => HostFault::Load(fault),
            Failure::NoMemory => HostFault::NoMemory,
        }
    }
}

/// Loads a session from these files and closures, uses it and prints its trace.
pub fn run_session<R: Print, C: HostCommand>(
    rt: &R,
    alloc: Global,
    inputs: Inputs<'_>,
    natives: Vec<C>,
) -> Result<(), HostFault> {
    let mut session = Session::load(alloc, inputs, natives)?;
    let used = use_session(&mut session);
    let trace = session.into_trace();
    used?;
    match write_whole(&mut io::writer(rt), trace.text_from(0)) {
        Ok(()) => Ok(()),
        Err(_) => Err(HostFault::Write),
    }
}

/// Presses keys, disposes the closure of `type` and registers it again.
fn use_session<C: HostCommand>(session: &mut Session<C>) -> Result<(), SessionFault> {
    press(session, "ctrl+h")?;
    press(session, "ctrl+b")?;
    let closure = session.dispose(Ticket(1))?;
    press(session, "ctrl+h")?;
    give(session, closure)?;
    press(session, "ctrl+h")
}

/// Presses a key. A text that is no key is ignored.
fn press<C: HostCommand>(session: &mut Session<C>, key: &str) -> Result<(), SessionFault> {
    if let Ok(key) = Keystroke::parse(key) {
        session.handle(Event::Key(key))?;
    }
    Ok(())
}

/// Registers a closure. If the session refuses it, the session returns it, and it is dropped here.
fn give<C: HostCommand>(session: &mut Session<C>, closure: C) -> Result<(), SessionFault> {
    match session.register(closure) {
        Ok(_) => Ok(()),
        Err((_, fault)) => Err(fault),
    }
}
