//! Context keys that no scope of the layout has at first.
ghost use Rattle.std.specs.Prelude.{◌≡◌, OnOk};
ghost use Rattle.kb_problems.specs.Starts.{never_said};

use kb_base::{NoMemory, Origin, Part};
use kb_context::Scopes;
use kb_files::Extension;
use kb_manifest::{Command, CommandTable, PaletteItem};
use kb_problems::{Lint, Opened, OpenedFiles, Problem, clause_member, linted, push_other};
use kb_rules::Rule;
use kb_when::{Clause, Leaf, SharedClause, Tree};
use std::alloc::Global;
use std::collections::HashMap;
use std::rc::Rc;

/// The keys that scopes have.
type KnownKeys = HashMap<String, ()>;

/// Adds the keys of a scope.
fn add_keys(alloc: Global, keys: &[&str], all: &mut KnownKeys) -> Result<(), NoMemory> {
    for key in keys {
        all.insert(String::from_str(alloc, *key)?, ())?;
    }
    Ok(())
}

/// The keys that some scope has.
fn keys_of(alloc: Global, scopes: &Scopes) -> Result<KnownKeys, NoMemory> {
    let mut all = HashMap::new(alloc);
    for scope in scopes.scopes() {
        let keys = scope.keys.keys(alloc)?;
        add_keys(alloc, keys.as_slice(), &mut all)?;
    }
    Ok(all)
}

/// Adds a key, if no scope has it.
fn add_unknown<'t>(
    key: &'t str,
    known: &KnownKeys,
    unknown: &mut Vec<&'t str>,
) -> Result<(), NoMemory> {
    if known.contains_key(key) {
        return Ok(());
    }
    unknown.push(key)?;
    Ok(())
}

/// Adds the keys of an atom that no scope has.
fn add_of_leaf<'t>(
    leaf: &'t Leaf,
    known: &KnownKeys,
    unknown: &mut Vec<&'t str>,
) -> Result<(), NoMemory> {
    match leaf {
        Leaf::Key(key) | Leaf::Equals(key, _) | Leaf::Compare(key, _, _) | Leaf::Matches(key, _) =>
            add_unknown(key.as_str(), known, unknown),
        Leaf::Member(key, list) => {
            add_unknown(key.as_str(), known, unknown)?;
            add_unknown(list.as_str(), known, unknown)
        }
    }
}

/// Adds the keys of a tree that no scope has, in its order.
#[cycle(keys)]
fn add_of_tree<'t>(
    tree: &'t Tree,
    known: &KnownKeys,
    unknown: &mut Vec<&'t str>,
) -> Result<(), NoMemory> {
    match tree {
        Tree::Atom(leaf) => add_of_leaf(leaf, known, unknown),
        Tree::Not(tree) => add_of_tree(tree, known, unknown),
        Tree::And(trees) => add_of_trees(trees.as_slice(), known, unknown),
        Tree::Or(trees) => add_of_trees(trees.as_slice(), known, unknown),
        Tree::True | Tree::False => Ok(()),
    }
}

/// Adds the keys of some trees that no scope has, in their order.
#[cycle(keys)]
fn add_of_trees<'t>(
    trees: &'t [Tree],
    known: &KnownKeys,
    unknown: &mut Vec<&'t str>,
) -> Result<(), NoMemory> {
    for tree in trees {
        add_of_tree(tree, known, unknown)?;
    }
    Ok(())
}

/// The sentence on keys that no scope has, each of them once.
fn unknown_sentence(alloc: Global, unknown: &[&str]) -> Result<String, NoMemory> {
    let mut list = String::new(alloc);
    let mut listed = HashMap::new(alloc);
    for key in unknown {
        if listed.contains_key(*key) {
            continue;
        }
        let sign = if listed.is_empty() { "" } else { ", " };
        write!(list, "{sign}`{key}`")?;
        listed.insert(String::from_str(alloc, *key)?, ())?;
    }
    let word = if listed.len() == 1 { "key" } else { "keys" };
    format!(in alloc; "no scope of the layout has the context {word} {list}")
}

/// Adds the clauses with keys that no scope of the layout has at first, each with these keys: those of these
/// rules, and those of the commands and the items of the palette of all extensions.
pub(crate) fn add_unknown_keys(
    alloc: Global,
    files: &OpenedFiles<'_>,
    rules: &[Rc<Rule>],
    extensions: &[Extension],
    scopes: &Scopes,
    problems: &mut Vec<Problem>,
) -> Result<(), NoMemory>
    ensures { OnOk result (never_said problems.new.items ≡ never_said problems.old.items) }
{
    let known = keys_of(alloc, scopes)?;
    for rule in rules {
        add_of_rule(alloc, files, rule, &known, problems)?;
    }
    add_of_extensions(alloc, files, extensions, &known, problems)?;
    Ok(())
}

/// Adds the clause of a rule, if it has a key that isn't known.
fn add_of_rule(
    alloc: Global,
    files: &OpenedFiles<'_>,
    rule: &Rule,
    known: &KnownKeys,
    problems: &mut Vec<Problem>,
) -> Result<(), NoMemory>
    ensures { OnOk result (never_said problems.new.items ≡ never_said problems.old.items) }
{
    let Some(clause) = &rule.when else {
        return Ok(());
    };
    let Some(opened) = files.of(rule.origin) else {
        return Ok(());
    };
    add_clause(
        alloc,
        opened,
        Part::Keybindings,
        rule.place,
        clause,
        known,
        problems,
    )?;
    Ok(())
}

/// Adds the clauses of the commands and of the items of the palette of extensions.
fn add_of_extensions(
    alloc: Global,
    files: &OpenedFiles<'_>,
    extensions: &[Extension],
    known: &KnownKeys,
    problems: &mut Vec<Problem>,
) -> Result<(), NoMemory>
    ensures { OnOk result (never_said problems.new.items ≡ never_said problems.old.items) }
{
    for extension in extensions {
        let Some(opened) = files.of(Origin::Extension(extension.number)) else {
            continue;
        };
        let manifest = &extension.manifest;
        add_of_commands(alloc, opened, &manifest.commands, known, problems)?;
        add_of_items(alloc, opened, manifest.palette.as_slice(), known, problems)?;
    }
    Ok(())
}

/// Adds the enablements of commands that have a key that isn't known.
fn add_of_commands(
    alloc: Global,
    opened: &Opened<'_>,
    commands: &CommandTable,
    known: &KnownKeys,
    problems: &mut Vec<Problem>,
) -> Result<(), NoMemory>
    ensures { OnOk result (never_said problems.new.items ≡ never_said problems.old.items) }
{
    for number in 0..commands.len() {
        let Some((_, command)) = commands.at(number) else {
            continue;
        };
        add_of_command(alloc, opened, command, known, problems)?;
    }
    Ok(())
}

/// Adds the enablement of a command, if it has a key that isn't known.
fn add_of_command(
    alloc: Global,
    opened: &Opened<'_>,
    command: &Command,
    known: &KnownKeys,
    problems: &mut Vec<Problem>,
) -> Result<(), NoMemory>
    ensures { OnOk result (never_said problems.new.items ≡ never_said problems.old.items) }
{
    let clause = command.enablement.as_ref();
    add_shared(
        alloc,
        opened,
        Part::Commands,
        command.place,
        clause,
        known,
        problems,
    )?;
    Ok(())
}

/// Adds the clauses of items of the palette that have a key that isn't known.
fn add_of_items(
    alloc: Global,
    opened: &Opened<'_>,
    items: &[PaletteItem],
    known: &KnownKeys,
    problems: &mut Vec<Problem>,
) -> Result<(), NoMemory>
    ensures { OnOk result (never_said problems.new.items ≡ never_said problems.old.items) }
{
    for item in items {
        let clause = item.when.as_ref();
        add_shared(
            alloc,
            opened,
            Part::Palette,
            item.place,
            clause,
            known,
            problems,
        )?;
    }
    Ok(())
}

/// Adds the clause of an entry, if it has one, with a key that isn't known.
fn add_shared(
    alloc: Global,
    opened: &Opened<'_>,
    part: Part,
    place: usize,
    clause: Option<&SharedClause>,
    known: &KnownKeys,
    problems: &mut Vec<Problem>,
) -> Result<(), NoMemory>
    ensures { OnOk result (never_said problems.new.items ≡ never_said problems.old.items) }
{
    let Some(clause) = clause else {
        return Ok(());
    };
    add_clause(
        alloc,
        opened,
        part,
        place,
        clause.as_clause(),
        known,
        problems,
    )?;
    Ok(())
}

/// Adds the clause of an entry, if it has a key that isn't known.
fn add_clause(
    alloc: Global,
    opened: &Opened<'_>,
    part: Part,
    place: usize,
    clause: &Clause,
    known: &KnownKeys,
    problems: &mut Vec<Problem>,
) -> Result<(), NoMemory>
    ensures { OnOk result (never_said problems.new.items ≡ never_said problems.old.items) }
{
    let mut unknown = Vec::new(alloc);
    add_of_tree(clause.tree(), known, &mut unknown)?;
    if unknown.is_empty() {
        return Ok(());
    }
    let span = opened.member(alloc, part, place, clause_member(part))?;
    let sentence = unknown_sentence(alloc, unknown.as_slice())?;
    push_other(
        linted(opened.file, Lint::UnknownContextKey, span, sentence),
        problems,
    )?;
    Ok(())
}
