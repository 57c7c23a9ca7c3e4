//! Theorems about scripts in sessions with verified handlers. The functions have no effect; their contracts
//! are the theorems.
ghost use Rattle.kb_script.specs.Headline.{MemoryAloneStopsScripts};

/// If a session is safe and not stopped, as one from `Session::load` is, then nothing but refused memory
/// stops it in a script: `run_script` never ends with `Stopped` or `Trapped`.
pub fn memory_alone_stops_scripts()
    ensures { MemoryAloneStopsScripts }
{}
