//! Laws across crates. The transcript of a script over memory is the text that the model defines. Sessions
//! whose closures stand for the same natives write the same trace. `proofs/ModelRows.antt` and
//! `proofs/ScopeRows.antt` evaluate the definitions on examples; golden files test the engine itself
//! (`docs/TESTING.md`).
#![tactic(auto)]

ghost use Rattle.std.specs.Prelude.{◌≡◌, IfOk, IfErr, map};
ghost use Rattle.kb_end_to_end.specs.Transcript.{IsTranscript, FailsToGive, of_load, of_script};
ghost use Rattle.kb_files.specs.Inputs.{files_of};

mod alike;

pub use alike::{handle_alike, loads_are_alike, raw_loads_are_alike, run_alike, scripts_are_alike};
use kb_base::Failure;
use kb_files::{Inputs, LoadFault};
use kb_registry::HostCommand;
use kb_script::{ScriptFault, run_script};
use kb_session::Session;
use std::alloc::Global;

/// Why there is no transcript.
#[derive(Debug, Drop)]
pub enum TranscriptFault {
    Load(LoadFault),
    Script(ScriptFault),
}

/// The failure of a load as one of a transcript.
fn load_failure(failure: Failure<LoadFault>) -> Failure<TranscriptFault>
    ensures { result ≡ of_load failure }
{
    failure.map_fault(TranscriptFault::Load)
}

/// The failure of a script as one of a transcript.
fn script_failure(failure: Failure<ScriptFault>) -> Failure<TranscriptFault>
    ensures { result ≡ of_script failure }
{
    failure.map_fault(TranscriptFault::Script)
}

/// Loads a session with these files and closures, runs a script in it beside a shelf of more closures, and
/// returns what the script writes. That is the text that the model defines. It depends on the closures only
/// by the natives that they stand for.
///
/// Errors: `Load` with the fault of `Session::load`, `Script` with the fault of `run_script`, and
/// `NoMemory`. `Stopped` and `Trapped` never occur: the session is new, and its handlers are verified.
#[tactic(auto, using(crate::proofs::Transcripts::load_fails))]
pub fn transcript<C: HostCommand>(
    alloc: Global,
    inputs: Inputs<'_>,
    natives: Vec<C>,
    shelf: Vec<C>,
    script: &[u8],
) -> Result<Vec<u8>, Failure<TranscriptFault>>
    ensures ok { IfOk result (λ out. IsTranscript (files_of inputs.entry) (map C.stands_for natives.items)
        (map C.stands_for shelf.items) script.now out.items) }
    ensures err { IfErr result (FailsToGive (files_of inputs.entry) (map C.stands_for natives.items)
        script.now) }
{
    let mut session = match Session::load(alloc, inputs, natives) {
        Ok(session) => session,
        Err(failure) => return Err(load_failure(failure)),
    };
    let mut shelf = shelf;
    let mut out = Vec::new(alloc);
    let mut reader = script;
    let ran = run_script(alloc, &mut reader, &mut out, &mut session, &mut shelf);
    drop(session.into_trace());
    match ran {
        Ok(()) => Ok(out),
        Err(failure) => Err(script_failure(failure)),
    }
}
