//! Laws of the definitions that the contracts cite.

ghost use Rattle.wc_component_file.specs.Files.{SpellsFile};
ghost use Rattle.wc_component_file.specs.Renamed.{HaveOriginals};
ghost use Rattle.wc_read.specs.Laws.{HasOneValue};

/// Bytes spell one file at most.
pub fn files_unique()
    ensures { HasOneValue SpellsFile }
{}

/// A name has an original name exactly where it is that name and ` [vN]` after it, N a decimal number.
pub fn originals_are_cut()
    ensures { HaveOriginals }
{}
