//! Problems of a file that have one sentence. People read it once, with the other places.
use crate::shown::Ranked;
use indexmap::IndexMap;
use kb_base::NoMemory;
use kb_problems::Problem;
use std::alloc::Global;

/// Problems of a file with one sentence, by their indices among those that are written.
#[derive(Drop)]
pub(crate) struct Group {
    /// The first of them.
    pub(crate) first: usize,
    /// The others, in order.
    pub(crate) others: Vec<usize>,
}

/// The groups of a file, by their sentences.
#[derive(Drop)]
struct Sentences<'p> {
    file: usize,
    groups: IndexMap<&'p str, usize>,
}

impl<'p> Sentences<'p> {
    /// The groups of a file before its first problem.
    fn of(alloc: Global, file: usize) -> Sentences<'p> {
        Sentences {
            file,
            groups: IndexMap::new(alloc),
        }
    }
}

/// Adds a problem to the group with its sentence, or begins a group with it.
fn add<'p>(
    alloc: Global,
    index: usize,
    sentence: &'p str,
    sentences: &mut Sentences<'p>,
    groups: &mut Vec<Group>,
) -> Result<(), NoMemory> {
    if let Some(number) = sentences.groups.get(&sentence)
        && let Some(group) = groups.get_mut(*number)
    {
        group.others.push(index)?;
        return Ok(());
    }
    sentences.groups.insert(sentence, groups.len())?;
    groups.push(Group {
        first: index,
        others: Vec::new(alloc),
    })?;
    Ok(())
}

/// The groups of problems that are written, in order. Those of different files are in different groups.
pub(crate) fn grouped(
    alloc: Global,
    problems: &[Problem],
    shown: &[Ranked],
) -> Result<Vec<Group>, NoMemory> {
    let mut groups = Vec::new(alloc);
    let mut sentences = Sentences::of(alloc, 0);
    for (index, one) in shown.iter().enumerate() {
        if one.file != sentences.file {
            sentences = Sentences::of(alloc, one.file);
        }
        if let Some(problem) = problems.get(one.place) {
            let sentence = problem.sentence.as_str();
            add(alloc, index, sentence, &mut sentences, &mut groups)?;
        }
    }
    Ok(groups)
}
