//! A module as its import sections, which are read, and all other sections, which are unchanged.

ghost use Rattle.std.specs.Prelude.{◌≡◌, ◌≢◌, ◌↔◌, ◌++◌, length, List, map, IfOk, IfErr, OnOk, IsOk, IsErrOf, All, Any};
ghost use Rattle.wc_read.specs.Imports.{import_values};
ghost use Rattle.wc_read.specs.Sections.{section_value, IsComponent};
ghost use Rattle.wc_dedupe.specs.Private.NamePositions.{names_of};
ghost use Rattle.wc_dedupe.specs.Renaming.{originals};
ghost use Rattle.wc_dedupe.specs.ParsedSections.{ParsedSectionValue, parsed_section_value, parsed_values, SpellsParsedSection, AreSpelled, SpellsParsedSections, imports_in, imports_of, renamed_section, renamed_sections, parsed_section_text, parsed_module_text, import_count, Fits, IsTooLarge};

use crate::rename_list::RenameList;
use crate::renaming::renamed_imports;
use std::alloc::{AllocError, Global};
use wc_read::codes::IMPORT_ID;
use wc_read::{Import, MODULE_HEADER, ReadFault, Section, frames, laws, read_imports};
use wc_write::{WriteFault, append_import_section, append_raw_section};

/// A section: an import section as its imports, any other one unchanged.
#[derive(Debug, Drop)]
pub enum ParsedSection<'a> {
    Imports(Vec<Import<'a>>),
    Other(Section<'a>),
}

/// Cuts a module into sections, and reads its import sections. The fault is `Component` exactly where the bytes begin
/// with a component's header.
pub fn parse_module(alloc: Global, bytes: &[u8]) -> Result<Vec<ParsedSection<'_>>, ReadFault>
    ensures found { IfOk result (λ v. SpellsParsedSections bytes.now (parsed_values v.items)) }
    ensures refused { IfErr result (λ f. f ≢ ReadFault.Memory
        → (v : List ParsedSectionValue) → ¬ (SpellsParsedSections bytes.now v)) }
    ensures component { IsErrOf result ReadFault.Component ↔ IsComponent bytes.now }
{
    laws::frames_unique();
    let frames = frames(alloc, bytes)?;
    let parts = parse_sections(alloc, &frames.sections)?;
    Ok(parts)
}

/// Reads the import sections among sections.
fn parse_sections<'a>(
    alloc: Global,
    sections: &[Section<'a>],
) -> Result<Vec<ParsedSection<'a>>, ReadFault>
    ensures found { IfOk result (λ v.
        AreSpelled (map section_value sections.now) (parsed_values v.items)) }
    ensures refused { IfErr result (λ f. f ≢ ReadFault.Memory
        → (v : List ParsedSectionValue) → ¬ (AreSpelled (map section_value sections.now) v)) }
    ensures no_component { IfErr result (λ f. f ≢ ReadFault.Component) }
{
    let mut parts = Vec::new(alloc);
    for section in sections {
        let part = parse_section(alloc, section)?;
        parts.push(part)?;
    }
    Ok(parts)
}

/// Reads a section, where it is an import section.
fn parse_section<'a>(alloc: Global, section: &Section<'a>) -> Result<ParsedSection<'a>, ReadFault>
    ensures found { IfOk result (λ p.
        SpellsParsedSection (section_value section.now) (parsed_section_value p)) }
    ensures refused { IfErr result (λ f. f ≢ ReadFault.Memory
        → (p : ParsedSectionValue) → ¬ (SpellsParsedSection (section_value section.now) p)) }
    ensures no_component { IfErr result (λ f. f ≢ ReadFault.Component) }
{
    if section.id != IMPORT_ID {
        return Ok(ParsedSection::Other(*section));
    }
    let imports = read_imports(alloc, section.content)?;
    Ok(ParsedSection::Imports(imports))
}

/// The modules and names of the imports of all import sections, in order.
pub fn import_names<'a>(
    alloc: Global,
    parts: &[ParsedSection<'a>],
) -> Result<Vec<(&'a str, &'a str)>, AllocError>
    ensures { IfOk result (λ v. names_of v.items
        ≡ originals (imports_of (parsed_values parts.now))) }
{
    let mut names = Vec::new(alloc);
    for part in parts {
        push_names(&mut names, imports_in(part))?;
    }
    Ok(names)
}

/// Appends the modules and names of imports.
fn push_names<'a>(
    names: &mut Vec<(&'a str, &'a str)>,
    imports: &[Import<'a>],
) -> Result<(), AllocError>
    ensures { OnOk result (names_of names.new.items
        ≡ names_of names.old.items ++ originals (import_values imports.now)) }
{
    for import in imports {
        names.push((import.module, import.name))?;
    }
    Ok(())
}

/// Writes the module of these parts. `indices` has for each import the index of its rename, or `None` where it
/// keeps its name. `size` bytes are reserved at first.
pub fn write_sections(
    alloc: Global,
    size: usize,
    parts: &[ParsedSection<'_>],
    indices: &[Option<usize>],
    renames: &RenameList,
) -> Result<Vec<u8>, WriteFault>
    requires { length indices.now ≡ length (imports_of (parsed_values parts.now)) }
    ensures written { IfOk result (λ v. v.items ≡ parsed_module_text
        (renamed_sections renames.now (parsed_values parts.now) indices.now)) }
    ensures fits { IsOk result → All Fits
        (renamed_sections renames.now (parsed_values parts.now) indices.now) }
    ensures too_large { IsErrOf result WriteFault.TooLarge → Any IsTooLarge
        (renamed_sections renames.now (parsed_values parts.now) indices.now) }
{
    let mut out = Vec::with_capacity(alloc, size)?;
    out.extend_from_slice(MODULE_HEADER)?;
    let mut left = indices;
    for part in parts {
        let (mine, others) = left.split_at(imports_in(part).len());
        append_section(alloc, &mut out, part, mine, renames)?;
        left = others;
    }
    Ok(out)
}

/// The imports of a part.
fn imports_in<'p, 'a>(part: &'p ParsedSection<'a>) -> &'p [Import<'a>]
    ensures { import_values result.now ≡ imports_in (parsed_section_value part.now) }
{
    match part {
        ParsedSection::Imports(imports) => imports,
        ParsedSection::Other(_) => &[],
    }
}

/// Appends a part. `indices` has for each of its imports the index of its rename, or `None` where it keeps its name.
fn append_section(
    alloc: Global,
    out: &mut Vec<u8>,
    part: &ParsedSection<'_>,
    indices: &[Option<usize>],
    renames: &RenameList,
) -> Result<(), WriteFault>
    requires { length indices.now ≡ import_count (parsed_section_value part.now) }
    ensures written { OnOk result (out.new.items ≡ out.old.items ++ parsed_section_text
        (renamed_section renames.now (parsed_section_value part.now) indices.now)) }
    ensures fits { IsOk result → Fits
        (renamed_section renames.now (parsed_section_value part.now) indices.now) }
    ensures too_large { IsErrOf result WriteFault.TooLarge → IsTooLarge
        (renamed_section renames.now (parsed_section_value part.now) indices.now) }
{
    match part {
        ParsedSection::Imports(imports) => {
            let renamed = renamed_imports(alloc, imports, indices, renames)?;
            append_import_section(out, &renamed)
        }
        ParsedSection::Other(section) => append_raw_section(out, section.id, section.content),
    }
}
