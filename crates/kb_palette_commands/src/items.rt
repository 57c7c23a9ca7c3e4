//! The items of the palette's menu, by the command that they name.
ghost use Rattle.std.specs.Prelude.{◌≡◌, ◌++◌, map, IfOk, OnOk};
ghost use Rattle.std.specs.List.{flat_map};
ghost use Rattle.kb_palette_commands.specs.Items.{clauses_in, HasItems, items_in};

use kb_base::NoMemory;
use kb_files::Extension;
use kb_manifest::PaletteItem;
use kb_when::SharedClause;
use std::alloc::Global;
use std::collections::HashMap;

/// The clauses of items, by the identifier of their command. An item without a clause has `None`.
#[derive(Drop)]
pub(crate) struct ItemTable {
    table: HashMap<String, Vec<Option<SharedClause>>>,
}

impl ItemTable {
    /// The items of the enabled extensions. Their clauses are shared.
    pub(crate) fn new(alloc: Global, extensions: &[Extension]) -> Result<ItemTable, NoMemory>
        ensures { IfOk result (λ made. HasItems made (flat_map items_in extensions.now)) }
    {
        let items = all_items(alloc, extensions)?;
        ItemTable::of_items(alloc, items.as_slice())
    }

    /// These items.
    fn of_items(alloc: Global, items: &[&PaletteItem]) -> Result<ItemTable, NoMemory>
        ensures { IfOk result (λ made. HasItems made (map (λ item. item.now) items.now)) }
    {
        let mut table: HashMap<String, Vec<Option<SharedClause>>> = HashMap::new(alloc);
        for item in items {
            let name = String::from_str(alloc, item.command.as_str())?;
            table.entry(name)?.or_default().push(shared(&item.when)?)?;
        }
        Ok(ItemTable { table })
    }

    /// The clauses of the items that name a command, in their order.
    pub(crate) fn clauses(&self, command: &str) -> &[Option<SharedClause>]
        ensures { result.now ≡ clauses_in self.now command.now }
    {
        match self.table.get(command) {
            Some(clauses) => clauses.as_slice(),
            None => &[],
        }
    }
}

/// One more owner of a clause, if there is one.
pub(crate) fn shared(clause: &Option<SharedClause>) -> Result<Option<SharedClause>, NoMemory>
    ensures { IfOk result (λ made. made ≡ clause.now) }
{
    match clause {
        Some(clause) => Ok(Some(clause.share()?)),
        None => Ok(None),
    }
}

/// The items of the enabled extensions, in load order.
fn all_items<'e>(
    alloc: Global,
    extensions: &'e [Extension],
) -> Result<Vec<&'e PaletteItem>, NoMemory>
    ensures { IfOk result (λ made. map (λ item. item.now) made.items ≡ flat_map items_in extensions.now) }
{
    let mut made = Vec::new(alloc);
    for extension in extensions {
        add_extension(extension, &mut made)?;
    }
    Ok(made)
}

/// Adds the items of an extension, if it is enabled.
fn add_extension<'e>(
    extension: &'e Extension,
    made: &mut Vec<&'e PaletteItem>,
) -> Result<(), NoMemory>
    ensures { OnOk result (map (λ item. item.now) made.new.items
        ≡ map (λ item. item.now) made.old.items ++ items_in extension.now) }
{
    if !extension.enabled {
        return Ok(());
    }
    add_items(extension.manifest.palette.as_slice(), made)
}

/// Adds these items.
fn add_items<'e>(items: &'e [PaletteItem], made: &mut Vec<&'e PaletteItem>) -> Result<(), NoMemory>
    ensures { OnOk result
        (map (λ item. item.now) made.new.items ≡ map (λ item. item.now) made.old.items ++ items.now) }
{
    for item in items {
        made.push(item)?;
    }
    Ok(())
}
