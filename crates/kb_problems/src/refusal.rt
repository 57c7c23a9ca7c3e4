//! Why a load refuses its files, with the culprit.
ghost use Rattle.std.specs.Prelude.{◌≡◌, IfOk};
ghost use Rattle.kb_problems.specs.declared.cause.Cause.TheVariants.{Refused};

use crate::cause::Cause;
use crate::handler_culprit::handlers_culprit;
use crate::layout_culprit::layout_culprit;
use crate::manifest_culprit::{dependency_culprit, identifier_culprit, manifest_culprit};
use crate::meaning::text_meaning;
use crate::problem::Problem;
use kb_base::{FaultKind, NoMemory};
use kb_files::{LoadFault, LoadFile};
use kb_places::{Source, Span, open};
use kb_source_files::{ExtensionSource, SourceFile, SourceFiles};
use std::alloc::Global;

/// What is said of a refused file: where, and why.
pub type Said = (Option<Span>, String);

/// The problem of a load that is refused. Error: `NoMemory`.
pub fn refused(
    alloc: Global,
    files: &SourceFiles<'_>,
    fault: LoadFault,
) -> Result<Problem, NoMemory>
    ensures cause { IfOk result (λ problem. problem.cause ≡ Refused fault.file fault.refusal.kind) }
    ensures file { IfOk result (λ problem. problem.file ≡ fault.file) }
{
    let (span, sentence) = match files.file_of(fault.file) {
        Some(file) => said_of_file(alloc, files, file, &fault)?,
        None => (None, whole_sentence(alloc, fault.file)?),
    };
    Ok(Problem {
        cause: Cause::Refused(fault.file, fault.refusal.kind),
        file: fault.file,
        span,
        sentence,
    })
}

/// The sentence on a refusal of no single file.
fn whole_sentence(alloc: Global, file: LoadFile) -> Result<String, NoMemory> {
    match file {
        LoadFile::Extensions => {
            format!(in alloc; "there are more than 100 extensions; load fewer")
        }
        _ => format!(in alloc; "the load is refused"),
    }
}

/// What is said of a file that is refused.
fn said_of_file(
    alloc: Global,
    files: &SourceFiles<'_>,
    file: SourceFile<'_>,
    fault: &LoadFault,
) -> Result<Said, NoMemory> {
    match open(alloc, file.bytes)? {
        Ok(source) => said_of_value(alloc, files, &source, fault),
        Err(misread) => {
            let span = Span {
                begin: misread.at,
                end: misread.at,
            };
            let sentence = format!(in alloc; "{}", text_meaning(misread.fault))?;
            Ok((Some(span), sentence))
        }
    }
}

/// The extensions before the one at a place in load order.
fn before<'a>(files: &SourceFiles<'a>, place: usize) -> &'a [ExtensionSource<'a>] {
    files.extensions.get(..place).unwrap_or(&[])
}

/// What is said of a file that is JSON, and refused.
fn said_of_value(
    alloc: Global,
    files: &SourceFiles<'_>,
    source: &Source<'_>,
    fault: &LoadFault,
) -> Result<Said, NoMemory> {
    let kind = fault.refusal.kind;
    match fault.file {
        LoadFile::Layout => layout_culprit(alloc, source, kind),
        LoadFile::Package(place) => match kind {
            FaultKind::MissingDependency => dependency_culprit(alloc, before(files, place), source),
            FaultKind::DuplicateExtension => identifier_culprit(
                alloc,
                before(files, place),
                source,
            ),
            _ => manifest_culprit(alloc, source),
        },
        LoadFile::Handlers(place) => {
            handlers_culprit(alloc, before(files, place), source, &fault.refusal)
        }
        _ => {
            let sentence = format!(in alloc; "the file has to be a list of rules, in [ and ]")?;
            Ok((Some(source.whole()), sentence))
        }
    }
}
