//! The path of fault 69 as a text.
use kb_base::NoMemory;
use kb_verify::Step;
use std::alloc::Global;

// At most 8 blocks are nested.
const NEST_LIMIT: usize = 8;

fn add_steps(text: &mut String, path: &[Step], nested: usize) -> Result<(), NoMemory> {
    for step in path {
        match step {
            Step::Choice(false) => text.push('f')?,
            Step::Choice(true) => text.push('j')?,
            Step::Turns(turn) => {
                text.push('(')?;
                if nested < NEST_LIMIT {
                    add_steps(text, turn.as_slice(), nested + 1)?;
                }
                text.push(')')?;
            }
        }
    }
    Ok(())
}

/// The steps of a path as `steps_by` of `paths` writes them.
pub(crate) fn steps_text(alloc: Global, path: &[Step]) -> Result<String, NoMemory> {
    let mut text = String::new(alloc);
    add_steps(&mut text, path, 0)?;
    Ok(text)
}

/// The branches of a path at which it jumps, as the bits that `cost_by` of `paths` takes.
pub(crate) fn jumps_in(steps: &str) -> u32 {
    let mut jumps = 0u32;
    let mut bit = 1u32;
    for step in steps.chars() {
        if step == 'j' {
            jumps |= bit;
        }
        if step == 'j' || step == 'f' {
            bit = bit.wrapping_mul(2);
        }
    }
    jumps
}
