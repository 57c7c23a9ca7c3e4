//! Theorems about the list of the palette and the history. The functions have no effect; their contracts are
//! the theorems.
ghost use Rattle.std.specs.Prelude.{◌≡◌, ◌↔◌, ℕ, List, take};
ghost use Rattle.kb_context.specs.Scopes.{Keys};
ghost use Rattle.kb_palette.specs.Command.{CommandData};
ghost use Rattle.kb_palette.specs.History.{history_of, distinct};
ghost use Rattle.kb_palette.specs.Listing.{IsPaletteList, palette_list};
ghost use Rattle.kb_palette.specs.declared.listing.Entry.{Entry};

/// Noting choice after choice gives the last 50 distinct ones.
pub fn history_is_last()
    ensures { (past : List (List ℕ)) → history_of past ≡ take 50 (distinct past) }
{}

/// Exactly one list has each command that is found, once, in order: the list of the palette.
pub fn leaves_one_list()
    ensures { (keys : Keys) (query : List ℕ) (commands : List CommandData) (history : List (List ℕ))
        (entries : List Entry) → IsPaletteList keys query commands history entries
        ↔ (entries ≡ palette_list keys query commands history) }
{}
