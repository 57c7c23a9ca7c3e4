//! The library that runs the cases of each kind.
use kb_base::NoMemory;
use kb_golden_calls::Calls;
use kb_golden_sessions::{run_session, run_transcript};
use kb_golden_text::{BlockRunner, CaseRunner, run_cases};
use std::alloc::Global;

/// Runs the cases of one golden file of the engine.
#[derive(Drop)]
pub struct EngineCases {
    calls: Calls,
}

impl CaseRunner for EngineCases {
    fn run_case(&mut self, alloc: Global, kind: &str, input: &[u8]) -> Result<String, NoMemory> {
        let (word, _) = kind.split_once(' ').unwrap_or((kind, ""));
        match word {
            "native" | "arguments" | "handlers" | "code" | "callees" | "verify" => {
                kb_golden_code::run_case(alloc, kind, input)
            }
            "registry" | "boxed" | "spent" => kb_golden_code::run_live_case(alloc, kind, input),
            "assemble" | "disassemble" => kb_golden_assembly::run_case(alloc, kind, input),
            "localize" | "moves" | "respell" | "respell-file" | "press" =>
                kb_golden_exchange::run_case(alloc, kind, input),
            "random" => kb_random_code::run_case(alloc, kind, input),
            "transcript" => run_transcript(alloc, input),
            _ => self.calls.run_case(alloc, kind, input),
        }
    }
}

impl BlockRunner for EngineCases {
    fn new() -> EngineCases {
        EngineCases {
            calls: Calls::new(),
        }
    }

    fn run_block(
        &mut self,
        alloc: Global,
        kind: &str,
        lines: &str,
        actual: &mut String,
    ) -> Result<(), NoMemory> {
        match kind {
            "session" => run_session(alloc, false, lines, actual),
            "raw" => run_session(alloc, true, lines, actual),
            _ => run_cases(alloc, self, kind, lines, actual),
        }
    }
}
