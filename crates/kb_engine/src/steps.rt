//! The steps of `runCommands` that began in an event, as the trace has them.
ghost use Rattle.std.specs.Prelude.{◌≡◌, ◌≤◌, length, option_map};
ghost use Rattle.kb_engine.specs.Steps.{last_step, step_in, steps_begun, steps_in};

use kb_stream::Lines;

/// How many steps begin in a line, if there is one: a step begins in `run COMMAND`.
fn steps_in(line: Option<&str>) -> usize
    ensures number { result ≡ steps_in (option_map (λ line. line.now) line.entry) }
    ensures few { result ≤ 1 }
{
    match step_in(line) {
        Some(_) => 1,
        None => 0,
    }
}

/// The command of the step that begins in a line, if there is one.
fn step_in(line: Option<&str>) -> Option<&[u8]>
    ensures { option_map (λ command. command.now) result
        ≡ step_in (option_map (λ line. line.now) line.entry) }
{
    let line = line?;
    if line.starts_with("run ") {
        Some(&line.as_bytes()[4..])
    } else {
        None
    }
}

/// How many steps began.
pub(crate) fn steps_begun(trace: &Lines) -> usize
    ensures { result ≡ steps_begun trace.now (length trace.now) }
{
    let mut begun = 0;
    let mut left = trace.len();
    while left > 0 {
        left -= 1;
        begun += steps_in(trace.get(left));
    }
    begun
}

/// The command of the last step that began, or nothing.
pub(crate) fn last_step(trace: &Lines) -> &[u8]
    ensures { result.now ≡ last_step trace.now (length trace.now) }
{
    let mut left = trace.len();
    while left > 0 {
        left -= 1;
        if let Some(command) = step_in(trace.get(left)) {
            return command;
        }
    }
    &[]
}
