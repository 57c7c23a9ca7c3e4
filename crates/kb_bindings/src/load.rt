//! The load of all files: the scopes, what binds keys, and the handlers of extensions.
ghost use Rattle.std.specs.Prelude.{◌≡◌, option_map, IfOk};
ghost use Rattle.kb_base.specs.Failure.{Gives};
ghost use Rattle.kb_files.specs.Fault.{refused_by};
ghost use Rattle.kb_files.specs.Layout.{layout_scopes};
ghost use Rattle.kb_files.specs.Marked.{GivesOf};
ghost use Rattle.kb_files.specs.RuleFile.{elements_held};
ghost use Rattle.kb_rules.specs.RuleList.{AreRightlyMarked};
ghost use Rattle.kb_bindings.specs.Load.{LoadsFiles, MarksAreRight, AreRules, AreLists, IsBound};
ghost use Rattle.kb_files.specs.Inputs.{files_of};
ghost use Rattle.kb_bindings.specs.Load.{lists_held, rules_held};

use crate::bindings::Bindings;
use kb_base::{Failure, NoMemory, Seq};
use kb_code::Handler;
use kb_context::Scopes;
use kb_files::{
    Extension, Inputs, LoadFault, LoadFile, ReadExtensions, of_file, read_extensions, read_rules,
    read_scopes,
};
use kb_rules::{Origin, RuleList};
use std::alloc::Global;

/// What the files of a load give: the scopes, what binds keys, and the handlers of extensions.
#[derive(Drop)]
pub struct Loaded {
    pub scopes: Scopes,
    pub bindings: Bindings,
    /// For each extension in load order its handlers in the order of their file; none where it has no such
    /// file. A load doesn't verify their code.
    pub handlers: Seq<Seq<Handler>>,
}

/// What these files give.
///
/// Errors: the first file that is refused, and why, in this order (our decision): the layout (1 to 4, 40, 41,
/// 21, 22), the default rules, the user's rules (1 to 4, 41 each), more than 100 extensions (44), for each
/// extension in load order its manifest (1 to 4, 40, 41) and, if there is one, its file of handlers (1 to 4,
/// 40 to 44, 50 to 53), an extension that repeats the identifier of an earlier one (91), one that depends on
/// an extension that isn't before it (90); or refused memory.
pub fn load_files(alloc: Global, inputs: Inputs<'_>) -> Result<Loaded, Failure<LoadFault>>
    ensures read { LoadsFiles (files_of inputs.entry) result }

    // A pattern is listed as unread only if the grammar of `regex` rejects it or it nests too deep. One that
    // isn't listed is read by that grammar.
    ensures right { IfOk result (λ loaded. MarksAreRight (files_of inputs.entry) loaded.bindings) }
{
    let scopes = load_scopes(alloc, inputs.layout)?;
    let lists = load_lists(alloc, inputs.defaults, inputs.user)?;
    let extensions = match read_extensions(alloc, inputs.extensions, inputs.platform) {
        Ok(extensions) => extensions,
        Err(failure) => {
            // (written down, since they are dropped by a call then, and not part by part in the proof)
            drop(lists);
            return Err(failure);
        }
    };
    let ReadExtensions {
        extensions,
        handlers,
    } = extensions;
    match bind(alloc, lists, extensions) {
        Ok(bindings) => Ok(Loaded {
            scopes,
            bindings,
            handlers,
        }),
        Err(refused) => Err(Failure::from(refused)),
    }
}

// The loads call one another, so that each function drops few values where a file is refused.

/// What binds keys among these rules, the default ones and the user's, and extensions.
fn bind(
    alloc: Global,
    lists: (RuleList, RuleList),
    extensions: Seq<Extension>,
) -> Result<Bindings, NoMemory>
    ensures { IfOk result (λ bindings. bindings ≡ record {
      defaults = lists.0;
      extensions = extensions;
      user = lists.1;
    }) }
{
    let (defaults, user) = lists;
    Bindings::new(alloc, defaults, extensions, user)
}

/// The default rules and the user's.
fn load_lists(
    alloc: Global,
    defaults: &[u8],
    user: &[u8],
) -> Result<(RuleList, RuleList), Failure<LoadFault>>
    ensures read { GivesOf (λ held lists. AreLists held lists.0 lists.1) result
        (lists_held defaults.now user.now) }
    ensures right { IfOk result (λ lists. AreRightlyMarked lists.0 × AreRightlyMarked lists.1) }
{
    let defaults = load_rules(alloc, LoadFile::Defaults, defaults, Origin::Defaults)?;
    match load_rules(alloc, LoadFile::User, user, Origin::User) {
        Ok(user) => Ok((defaults, user)),
        Err(failure) => {
            drop(defaults);
            Err(failure)
        }
    }
}

/// The scopes of a layout file, or the one scope that there is without a file.
#[tactic(auto, using(crate::proofs::LoadLemmas::scopes_of_file))]
fn load_scopes(alloc: Global, layout: Option<&[u8]>) -> Result<Scopes, Failure<LoadFault>>
    ensures { Gives (λ scopes. scopes) result
        (refused_by LoadFile.Layout (layout_scopes (option_map (λ layout. layout.now) layout.entry))) }
{
    of_file(LoadFile::Layout, read_scopes(alloc, layout))
}

/// The rules of a file.
#[tactic(auto, using(crate::proofs::LoadLemmas::file_of_rules))]
fn load_rules(
    alloc: Global,
    file: LoadFile,
    bytes: &[u8],
    origin: Origin,
) -> Result<RuleList, Failure<LoadFault>>
    ensures read { GivesOf (AreRules origin) result (refused_by file (elements_held bytes.now)) }
    ensures right { IfOk result AreRightlyMarked }
{
    of_file(file, read_rules(alloc, bytes, origin))
}
