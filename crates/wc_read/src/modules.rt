//! The reading of modules.

ghost use Rattle.std.specs.Prelude.{◌≡◌, ◌≢◌, map, IfOk, IfErr, IsErrOf, IsTrue, ◌↔◌};
ghost use Rattle.std.specs.List.{filter};
ghost use Rattle.wc_read.specs.Sections.{section_values, IsComponent};
ghost use Rattle.wc_read.specs.Fault.{IfRefused, SpellsNothing};
ghost use Rattle.wc_read.specs.Reading.Contents.{section_contents_value};
ghost use Rattle.wc_read.specs.Modules.{ModuleValue, module_value, ArePaired, IsAssembled, is_segments, AreModule, SpellsModule};

use crate::codes::{DATA_COUNT_ID, DATA_ID, ELEMENT_ID};
use crate::core_module::Module;
use crate::fault::ReadFault;
use crate::framing::frames;
use crate::names::global_names;
use crate::order::check_order;
use crate::producers::producers;
use crate::section_contents::{SectionContents, read_section_contents};
use crate::sections::Section;
use crate::spaces::{declared, funcs, globals};
use crate::types::{MemoryType, TableType};
use crate::validity::check_module;
use std::alloc::{AllocError, Global};

/// Reads a module (WebAssembly core specification, 5.5.16).
///
/// Sections are read to their end, bodies of functions and the sections of elements, data and data counts by their
/// sizes alone.
///
/// # Errors
///
/// - `Component`: the bytes begin with the header of a component.
/// - `NotWasm`: the bytes begin with the header of neither a module nor a component.
/// - `Truncated`: the bytes, or the bytes of a section, end inside an item.
/// - `BadNumber`: a number does not fit its bits in LEB128, or an immediate of an initialiser is `BadNumber` in a body.
/// - `BadName`: a name is not UTF-8, that of a custom section included.
/// - `UnknownSection`: the id of a section is above 12.
/// - `SectionOrder`: a section is out of order, or occurs twice.
/// - `SectionSize`: bytes of a section follow its last item.
/// - `BadType`: a byte is no type, not the type that is needed, no mutability, or no kind of import or export, or the
///   index of a type in a reference is negative.
/// - `BadLimits`: `read_imports` refuses these limits.
/// - `CountMismatch`: there are not as many bodies as defined functions.
/// - `TooLarge`: an index space has 2^32 items or more.
/// - `BadIndex`: the type of a function, the type that a reference names, the item of an export or the start function
///   is out of range.
/// - `DuplicateExport`: two exports have one name.
/// - `UnknownOperator`: an opcode of an initialiser is not assigned, or the byte of a fence there is not 0.
/// - `BadInitialiser`: an operator of an initialiser is not constant, or it does not leave one value of the type of its
///   global.
/// - `BadStart`: the start function has parameters or results.
/// - `Memory`: an allocation failed.
pub fn read_module(alloc: Global, bytes: &[u8]) -> Result<Module<'_>, ReadFault>
    // What is read is spelled so, by all of the bytes.
    ensures found { IfOk result (λ m. SpellsModule bytes.now (module_value m)) }
    // Unless memory runs out, what is spelled is read.
    ensures refused { IfRefused result (SpellsNothing SpellsModule bytes.now) }
    ensures component { IsErrOf result ReadFault.Component ↔ IsComponent bytes.now }
{
    let frames = frames(alloc, bytes)?;
    module_from(alloc, &frames.sections)
}

/// The module that sections make.
fn module_from<'a>(alloc: Global, sections: &[Section<'a>]) -> Result<Module<'a>, ReadFault>
    ensures found { IfOk result (λ m. AreModule (section_values sections.now) (module_value m)) }
    ensures refused { IfRefused result
        ((v : ModuleValue) → ¬ (AreModule (section_values sections.now) v)) }
    ensures no_component { IfErr result (λ f. f ≢ ReadFault.Component) }
{
    check_order(sections)?;
    let parts = read_section_contents(alloc, sections)?;
    if !are_paired(&parts) {
        return Err(ReadFault::CountMismatch);
    }
    let module = assemble(alloc, sections, parts)?;
    check_module(alloc, &module)?;
    Ok(module)
}

/// Whether there is a body for each defined function.
fn are_paired(parts: &SectionContents) -> bool
    ensures { IsTrue result ↔ ArePaired (section_contents_value parts.now) }
{
    parts.func_types.len() == parts.bodies.len()
}

/// Puts the contents of sections together.
pub fn assemble<'a>(
    alloc: Global,
    sections: &[Section<'a>],
    parts: SectionContents<'a>,
) -> Result<Module<'a>, ReadFault>
    ensures found { IfOk result (λ m. IsAssembled
        (section_values sections.now) (section_contents_value parts.entry) (module_value m)) }
    ensures memory { IfErr result (λ e. e ≡ ReadFault.Memory) }
{
    let funcs = funcs(alloc, &parts.imports, &parts.func_types, &parts.bodies)?;
    let tables = declared::<TableType>(alloc, &parts.imports, &parts.tables)?;
    let memories = declared::<MemoryType>(alloc, &parts.imports, &parts.memories)?;
    let globals = globals(alloc, &parts.imports, &parts.globals)?;
    let global_names = global_names(alloc, sections)?;
    let producers = producers(alloc, sections)?;
    let ids = segment_ids(alloc, sections)?;
    Ok(Module {
        types: parts.types,
        imports: parts.imports,
        funcs,
        tables,
        memories,
        globals,
        exports: parts.exports,
        start: parts.start,
        global_names,
        producers,
        ids,
    })
}

/// The ids of the sections of segments.
fn segment_ids(alloc: Global, sections: &[Section]) -> Result<Vec<u8>, AllocError>
    ensures { IfOk result (λ v. v.items ≡ filter is_segments (map (λ s. s.id) sections.now)) }
{
    sections
        .iter()
        .map(|section| section.id)
        .filter(|id| matches!(*id, ELEMENT_ID | DATA_ID | DATA_COUNT_ID))
        .collect(alloc)
}
