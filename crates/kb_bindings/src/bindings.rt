//! What binds keys, and what follows from it: the search, and the commands of the palette.
ghost use Rattle.std.specs.Prelude.{◌≡◌, [], ◌∷◌, ◌++◌, IfOk, IfErr, OnOk, OnErr, map};
ghost use Rattle.std.specs.List.{flat_map};
ghost use Rattle.kb_resolve.specs.Enablements.{enablement_in, enablement_of};
ghost use Rattle.kb_context.specs.Scopes.{context};
ghost use Rattle.kb_resolve.specs.Pressed.{step_of};
ghost use Rattle.kb_resolve.specs.Resolved.{resolution_of};
ghost use Rattle.kb_resolve.specs.Resolver.{MayAskPatterns, resolved};
ghost use Rattle.kb_bindings.specs.Sources.{pressed, still_pressed, rules_of, with_user_rules, source_of};
ghost use Rattle.kb_bindings.specs.Sources.{IsPlaceOf, found_behind};
ghost use Rattle.kb_bindings.specs.Sources.{contribution_of, contributions_of, enablement, with_enabled};
ghost use Rattle.kb_files.specs.Enabled.{is_enabled_at, switched_at};
ghost use Rattle.kb_bindings.specs.Unread as unread;
ghost use Rattle.kb_bindings.specs.Warning.{warnings_of};
ghost use Rattle.kb_bindings.specs.Bindings.{IsRenewed, IsSearched};
ghost use Rattle.kb_palette_commands.specs.Palette.{palette_commands};

use crate::unread::all_unread;
use crate::warning::all_warnings;
use kb_base::{EntryPattern, NoMemory, Seq, Text, Warning};
use kb_context::Scopes;
use kb_files::Extension;
use kb_keys::Keystroke;
use kb_manifest::{Command, CommandTable};
use kb_palette::PaletteCommand;
use kb_palette_commands::palette_commands;
use kb_resolve::{ChordState, Contribution, Enablements, Press, Resolved, Resolver};
use kb_rules::{Origin, RuleList, RuleSet};
use std::alloc::Global;
use std::marker::Model;

/// The default rules, the extensions and the user's rules, with the search among them, the commands of the
/// palette, and the warnings about their entries. Contracts see the first three.
#[derive(Drop)]
pub struct Bindings {
    defaults: RuleList,
    extensions: Vec<Extension>,
    user: RuleList,
    resolver: Resolver,
    enablements: Enablements,
    palette: Vec<PaletteCommand>,
    warnings: Seq<Warning>,
}

impl Model for Bindings {
    ghost use Rattle.std.specs.Prelude.{◌≡◌};
    ghost use Rattle.std.specs.Coded.{codes};
    ghost use Rattle.kb_files.specs.contracts.extension_file.Extension as extension;
    ghost use Rattle.kb_resolve.specs.Enablements.{enablement_in};
    ghost use Rattle.kb_rules.specs.contracts.removal.Removal as removal;
    ghost use Rattle.kb_rules.specs.contracts.rule.Rule as rule;
    ghost use Rattle.kb_base.specs.contracts.note.EntryPattern as marks;
    ghost use Rattle.kb_base.specs.contracts.note.Warning as warning;
    ghost use Rattle.kb_bindings.specs.Bindings.{IsSearched};
    ghost use Rattle.kb_bindings.specs.Sources.{Sources};

    ghost Value = { Sources };

    ghost coded = { Prim.hlevel (
      codes,
      extension.the_row.coded,
      rule.the_row.coded,
      removal.the_row.coded,
      warning.the_row.coded,
      marks.the_row.coded,
    ) };

    ghost view = { λ b. record { defaults = b.defaults; extensions = b.extensions.items; user = b.user } };

    // The resolver, the enablements, the palette's commands and the warnings are derived from these rules and
    // extensions.
    ghost invariant = { λ b.
        IsSearched (record { defaults = b.defaults; extensions = b.extensions.items; user = b.user })
        b.resolver (enablement_in b.enablements) b.palette.items b.warnings };
}

/// Other rules of the user, with the search among all rules and the warnings about all entries.
#[derive(Drop)]
pub struct Renewed {
    user: RuleList,
    resolver: Resolver,
    warnings: Seq<Warning>,
}

impl Bindings {
    /// These rules and extensions.
    pub(crate) fn new(
        alloc: Global,
        defaults: RuleList,
        extensions: Seq<Extension>,
        user: RuleList,
    ) -> Result<Bindings, NoMemory>
        ensures { IfOk result (λ made.
            made ≡ record { defaults = defaults; extensions = extensions; user = user }) }
    {
        match derive_all(alloc, &defaults, extensions.as_slice(), &user) {
            Ok(
                Derived {
                    in_force: InForce {
                        resolver,
                        enablements,
                        palette,
                    },
                    warnings,
                },
            ) => Ok(Bindings {
                defaults,
                extensions: extensions.into_vec(),
                user,
                resolver,
                enablements,
                palette,
                warnings,
            }),
            Err(refused) => {
                drop(defaults);
                drop(user);
                Err(refused)
            }
        }
    }

    /// Presses a key, over what the focus of the scopes sees. `NoMemory` only if a clause or an enablement
    /// with a pattern is evaluated; the chord is then unchanged.
    pub fn press<'b>(
        &'b self,
        chord: &mut ChordState,
        stroke: Keystroke,
        scopes: &Scopes,
    ) -> Result<Press<'b>, NoMemory>
        ensures step { IfOk result (λ press.
            step_of press.does ≡ pressed chord.old stroke scopes.now.seen self.now) }
        ensures found { IfOk result (λ press. IsPlaceOf self.now press.found
            (found_behind chord.old stroke scopes.now.seen self.now)) }
        ensures pressed { OnOk result (chord.new ≡ still_pressed chord.old stroke scopes.now.seen self.now) }
        ensures err { OnErr result (chord.new ≡ chord.old) }
        ensures memory { IfErr result (λ _. MayAskPatterns (chord.old ++ stroke ∷ [])
            (context scopes.now.seen) (enablement self.now) (rules_of self.now)) }
    {
        chord.press(stroke, &self.resolver, scopes, &self.enablements)
    }

    /// Looks up the rule of these keystrokes, over what the focus of the scopes sees. Nothing is pressed.
    /// Error: `NoMemory`.
    pub fn look_up<'b>(
        &'b self,
        strokes: &[Keystroke],
        scopes: &Scopes,
    ) -> Result<Resolved<'b>, NoMemory>
        ensures { IfOk result (λ found. resolution_of found
            ≡ resolved strokes.now (context scopes.now.seen) (enablement self.now) (rules_of self.now)) }
    {
        self.resolver.resolve(strokes, scopes, &self.enablements)
    }

    /// The warnings about the entries of all files, in the order of the files.
    pub fn warnings(&self) -> &[Warning]
        ensures { result.now ≡ warnings_of self.now }
    {
        self.warnings.as_slice()
    }

    /// The extensions, in load order.
    pub fn extensions(&self) -> &[Extension]
        ensures { result.now ≡ self.now.extensions }
    {
        self.extensions.as_slice()
    }

    /// The default rules.
    pub fn defaults(&self) -> &RuleList
        ensures { result.now ≡ self.now.defaults }
    {
        &self.defaults
    }

    /// The rules of the user.
    pub fn user(&self) -> &RuleList
        ensures { result.now ≡ self.now.user }
    {
        &self.user
    }

    /// The search among the rules in force.
    pub fn resolver(&self) -> &Resolver
        ensures { result.now ≡ rules_of self.now }
    {
        &self.resolver
    }

    /// The enablements of the commands that enabled extensions contribute.
    pub fn enablements(&self) -> &Enablements
        ensures { enablement_in result.now ≡ enablement self.now }
    {
        &self.enablements
    }

    /// The commands of the palette: those of the enabled extensions, in load order.
    pub fn palette(&self) -> &[PaletteCommand]
        ensures { result.now ≡ palette_commands self.now.extensions }
    {
        self.palette.as_slice()
    }

    /// The unread patterns of the entries of all files, in the order of the files. Error: `NoMemory`.
    pub fn unread(&self, alloc: Global) -> Result<Seq<EntryPattern>, NoMemory>
        ensures { IfOk result (λ all. all ≡ unread.unread_of self.now) }
    {
        all_unread(
            alloc,
            &self.defaults,
            self.extensions.as_slice(),
            &self.user,
        )
    }

    /// The name of a file in messages: `defaults`, `user`, or the identifier of an extension.
    pub fn source(&self, origin: Origin) -> &str
        ensures { result.now ≡ source_of self.now origin }
    {
        match origin {
            Origin::Defaults => "defaults",
            Origin::Extension(number) => match self.extensions.as_slice().get(number as usize) {
                Some(extension) => extension.manifest.id.as_str(),
                None => "",
            },
            Origin::User => "user",
        }
    }

    /// What other rules of the user make of the search, before anything changes. Error: `NoMemory`; the new
    /// rules are then dropped.
    pub fn renewed(&self, alloc: Global, user: RuleList) -> Result<Renewed, NoMemory>
        ensures { IfOk result (λ renewed. IsRenewed self.now user renewed) }
    {
        match searched(alloc, &self.defaults, self.extensions.as_slice(), &user) {
            Ok((resolver, warnings)) => Ok(Renewed {
                user,
                resolver,
                warnings,
            }),
            Err(refused) => {
                drop(user);
                Err(refused)
            }
        }
    }

    /// Replaces the rules of the user by those of `renewed`.
    pub fn renew(&mut self, renewed: Renewed)
        requires { IsRenewed self.old renewed.user renewed }
        ensures { self.new ≡ with_user_rules renewed.user self.old }
    {
        let Renewed {
            user,
            resolver,
            warnings,
        } = renewed;
        self.user = user;
        self.resolver = resolver;
        self.warnings = warnings;
    }

    /// Enables the extension at a place in load order, or disables it. Without an extension there nothing
    /// changes. On refused memory nothing changes.
    pub fn switch(&mut self, alloc: Global, place: usize, enabled: bool) -> Result<(), NoMemory>
        ensures ok { OnOk result (self.new ≡ with_enabled place enabled self.old) }
        ensures err { OnErr result (self.new ≡ self.old) }
    {
        let before = set_enabled(&mut self.extensions, place, enabled);
        match search_all(
            alloc,
            &self.defaults,
            self.extensions.as_slice(),
            &self.user,
        ) {
            Ok(
                InForce {
                    resolver,
                    enablements,
                    palette,
                },
            ) => {
                self.resolver = resolver;
                self.enablements = enablements;
                self.palette = palette;
                Ok(())
            }
            Err(refused) => {
                set_enabled(&mut self.extensions, place, before);
                Err(refused)
            }
        }
    }
}

/// Enables the extension at a place, or disables it, and returns whether it was enabled before. Without an
/// extension there nothing changes.
fn set_enabled(extensions: &mut Vec<Extension>, place: usize, enabled: bool) -> bool
    ensures before { result ≡ is_enabled_at place extensions.old.items }
    ensures set { extensions.new.items ≡ switched_at place enabled extensions.old.items }
{
    if place >= extensions.as_slice().len() {
        return false;
    }
    let extension = &mut extensions[place];
    let before = extension.enabled;
    extension.enabled = enabled;
    before
}

/// What rules and extensions have in force: the search among the rules, the enablements of commands, and the
/// commands of the palette.
#[derive(Drop)]
struct InForce {
    resolver: Resolver,
    enablements: Enablements,
    palette: Vec<PaletteCommand>,
}

/// What is derived from rules and extensions: what is in force, and the warnings about entries.
#[derive(Drop)]
struct Derived {
    in_force: InForce,
    warnings: Seq<Warning>,
}

/// What is derived from these rules and extensions.
fn derive_all(
    alloc: Global,
    defaults: &RuleList,
    extensions: &[Extension],
    user: &RuleList,
) -> Result<Derived, NoMemory>
    ensures { IfOk result (λ made. IsSearched (record {
      defaults = defaults.now;
      extensions = extensions.now;
      user = user.now;
    }) made.in_force.resolver (enablement_in made.in_force.enablements) made.in_force.palette.items
        made.warnings) }
{
    let warnings = all_warnings(alloc, defaults, extensions, user)?;
    let in_force = search_all(alloc, defaults, extensions, user)?;
    Ok(Derived { in_force, warnings })
}

/// The search among all rules, the enablements of the extensions' commands, and the commands of the palette.
fn search_all(
    alloc: Global,
    defaults: &RuleList,
    extensions: &[Extension],
    user: &RuleList,
) -> Result<InForce, NoMemory>
    ensures rules { IfOk result (λ made. made.resolver ≡ rules_of (record {
      defaults = defaults.now;
      extensions = extensions.now;
      user = user.now;
    })) }
    ensures enablements { IfOk result (λ made. enablement_in made.enablements ≡ enablement (record {
      defaults = defaults.now;
      extensions = extensions.now;
      user = user.now;
    })) }
    ensures palette { IfOk result (λ made. made.palette.items ≡ palette_commands extensions.now) }
{
    let enablements = all_enablements(alloc, extensions)?;
    let palette = palette_commands(alloc, extensions)?;
    let resolver = search_among(alloc, defaults, extensions, user)?;
    Ok(InForce {
        resolver,
        enablements,
        palette,
    })
}

/// The enablements of the extensions' commands.
fn all_enablements(alloc: Global, extensions: &[Extension]) -> Result<Enablements, NoMemory>
    ensures { IfOk result (λ made.
        enablement_in made ≡ enablement_of (flat_map contributions_of extensions.now)) }
{
    Enablements::new(alloc, all_contributions(alloc, extensions)?)
}

/// The search among all rules, and the warnings about all entries.
fn searched(
    alloc: Global,
    defaults: &RuleList,
    extensions: &[Extension],
    user: &RuleList,
) -> Result<(Resolver, Seq<Warning>), NoMemory>
    ensures rules { IfOk result (λ made. made.0 ≡ rules_of (record {
      defaults = defaults.now;
      extensions = extensions.now;
      user = user.now;
    })) }
    ensures warnings { IfOk result (λ made. made.1 ≡ warnings_of (record {
      defaults = defaults.now;
      extensions = extensions.now;
      user = user.now;
    })) }
{
    let warnings = all_warnings(alloc, defaults, extensions, user)?;
    let resolver = search_among(alloc, defaults, extensions, user)?;
    Ok((resolver, warnings))
}

/// The search among all rules.
fn search_among(
    alloc: Global,
    defaults: &RuleList,
    extensions: &[Extension],
    user: &RuleList,
) -> Result<Resolver, NoMemory>
    ensures { IfOk result (λ resolver. resolver ≡ rules_of (record {
      defaults = defaults.now;
      extensions = extensions.now;
      user = user.now;
    })) }
{
    let lists = lists_of(alloc, extensions)?;
    let enabled = flags_of(alloc, extensions)?;
    let rules = RuleSet::assemble(alloc, defaults, lists.as_slice(), enabled.as_slice(), user)?;
    Resolver::build(alloc, rules)
}

/// The rules of each extension, lent.
fn lists_of<'e>(alloc: Global, extensions: &'e [Extension]) -> Result<Vec<&'e RuleList>, NoMemory>
    ensures { IfOk result (λ lists. map (λ list. list.now) lists.items ≡ map (λ e. e.rules) extensions.now) }
{
    let mut lists = Vec::new(alloc);
    for extension in extensions {
        lists.push(&extension.rules)?;
    }
    Ok(lists)
}

/// Whether each extension is enabled.
fn flags_of(alloc: Global, extensions: &[Extension]) -> Result<Vec<bool>, NoMemory>
    ensures { IfOk result (λ enabled. enabled.items ≡ map (λ e. e.enabled) extensions.now) }
{
    let mut enabled = Vec::new(alloc);
    for extension in extensions {
        enabled.push(extension.enabled)?;
    }
    Ok(enabled)
}

/// What the enabled extensions contribute of their commands, in load order.
fn all_contributions(alloc: Global, extensions: &[Extension]) -> Result<Vec<Contribution>, NoMemory>
    ensures { IfOk result (λ made. made.items ≡ flat_map contributions_of extensions.now) }
{
    let mut made = Vec::new(alloc);
    for extension in extensions {
        add_contributions(alloc, extension, &mut made)?;
    }
    Ok(made)
}

/// Adds what an extension contributes of its commands, if it is enabled.
fn add_contributions(
    alloc: Global,
    extension: &Extension,
    made: &mut Vec<Contribution>,
) -> Result<(), NoMemory>
    ensures { OnOk result (made.new.items ≡ made.old.items ++ contributions_of extension.now) }
{
    if !extension.enabled {
        return Ok(());
    }
    contribute(alloc, &extension.manifest.commands, made)
}

/// Adds what these commands contribute.
fn contribute(
    alloc: Global,
    commands: &CommandTable,
    made: &mut Vec<Contribution>,
) -> Result<(), NoMemory>
    ensures { OnOk result (made.new.items ≡ made.old.items ++ map contribution_of commands.now) }
{
    for number in 0..commands.len() {
        if let Some((name, command)) = commands.at(number) {
            made.push(contribution(alloc, name, command)?)?;
        }
    }
    Ok(())
}

/// What a command contributes. Its enablement is shared.
fn contribution(alloc: Global, name: &str, command: &Command) -> Result<Contribution, NoMemory>
    ensures { IfOk result (λ made. made
        ≡ contribution_of (record { name = name.now; command = command.now })) }
{
    let enablement = match &command.enablement {
        Some(clause) => Some(clause.share()?),
        None => None,
    };
    Ok(Contribution {
        command: Text::from_str(alloc, name)?,
        enablement,
    })
}
