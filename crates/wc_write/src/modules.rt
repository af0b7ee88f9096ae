//! Modules.

ghost use Rattle.std.specs.Prelude.{◌≡◌, ◌++◌, IfOk, OnOk, IsOk, IsErrOf};
ghost use Rattle.wc_write.specs.Modules.{SizesFit, built_value, built_value_by, sections_text, built_text};

use crate::bodies::BodyText;
use crate::fault::WriteFault;
use crate::inits::InitText;
use crate::module_sections::{
    append_code, append_exports, append_func_types, append_globals, append_imports,
    append_memories, append_producers, append_start, append_tables, append_types,
};
use std::alloc::Global;
use wc_read::{Body, Export, FuncType, GlobalType, Init, Item, MODULE_HEADER, Memory, Table};

/// A module to be written (WebAssembly core specification, 2.5). Its imports are the imported items of its index
/// spaces. In each index space imported items come before defined ones, which is not checked. The content of a defined
/// function is its body, or whatever else can append the body's text; so is that of a defined global its initialiser.
#[derive(Debug, Drop)]
pub struct Built<'a, C = Body<'a>, I = Init<'a>> {
    /// The function types, by their indices (2.5.2).
    pub types: Vec<FuncType>,
    /// The functions, each with the index of its type, and defined ones with their bodies (2.5.3).
    pub funcs: Vec<Item<'a, u32, C>>,
    /// The tables (2.5.4).
    pub tables: Vec<Table<'a>>,
    /// The memories (2.5.5).
    pub memories: Vec<Memory<'a>>,
    /// The globals, and defined ones with their initialisers (2.5.6).
    pub globals: Vec<Item<'a, GlobalType, I>>,
    /// The exports, in order (2.5.10).
    pub exports: Vec<Export<'a>>,
    /// The index of the start function; `None` where there is none (2.5.9).
    pub start: Option<u32>,
    /// The content of the custom section `producers`, without the section's name (tool conventions); `None` where it is
    /// left out.
    pub producers: Option<&'a [u8]>,
}

/// Writes a module (WebAssembly core specification, 5.5.16): the header, the sections of types, imports, functions,
/// tables, memories, globals, exports, start and code, and after them the custom section `producers`. A section is
/// left out where it has no items, the start section where `start` is `None`, and `producers` where that is `None`.
/// Imports are grouped: memories, tables, globals, functions, each group in the order of its index space. Each
/// number is written as minimal LEB128; runs of locals and the bytes of producers are unchanged.
///
/// Nothing but sizes is checked. `laws::text_read` says of which modules the bytes are an encoding.
///
/// # Errors
///
/// - `TooLarge`: the content of a section has 2^32 bytes or more. Counts, names and bodies are no longer than the
///   contents that they are in.
/// - `Memory`: an allocation failed.
pub fn write_module(alloc: Global, built: &Built<'_>) -> Result<Vec<u8>, WriteFault>
    ensures written { IfOk result (λ v. v.items ≡ built_text (built_value built.now)) }
    ensures fits { IsOk result → SizesFit (built_value built.now) }
    ensures too_large { IsErrOf result WriteFault.TooLarge
        → ¬ (SizesFit (built_value built.now)) }
{
    write_module_of(alloc, built)
}

/// Writes a module whose bodies and initialisers are given by any contents that can append their texts (5.4.9 and
/// 5.5.13), as `write_module` does: no operator need be kept.
///
/// # Errors
///
/// - `TooLarge`: the content of a section has 2^32 bytes or more.
/// - `Memory`: an allocation failed.
#[tactic(auto, unfolding(crate::specs::Modules::built_text))]
pub fn write_module_of<C: BodyText, I: InitText>(
    alloc: Global,
    built: &Built<'_, C, I>,
) -> Result<Vec<u8>, WriteFault>
    ensures written { IfOk result (λ v. v.items
        ≡ built_text (built_value_by C.body I.init built.now)) }
    ensures fits { IsOk result → SizesFit (built_value_by C.body I.init built.now) }
    ensures too_large { IsErrOf result WriteFault.TooLarge
        → ¬ (SizesFit (built_value_by C.body I.init built.now)) }
{
    let mut out = Vec::from_slice(alloc, MODULE_HEADER)?;
    append_sections(&mut out, built)?;
    Ok(out)
}

/// Appends the sections of a module. One buffer serves all their contents.
fn append_sections<C: BodyText, I: InitText>(
    out: &mut Vec<u8>,
    built: &Built<'_, C, I>,
) -> Result<(), WriteFault>
    ensures written { OnOk result (out.new.items ≡
        out.old.items ++ sections_text (built_value_by C.body I.init built.now)) }
    ensures fits { IsOk result → SizesFit (built_value_by C.body I.init built.now) }
    ensures too_large { IsErrOf result WriteFault.TooLarge
        → ¬ (SizesFit (built_value_by C.body I.init built.now)) }
{
    let mut content = Vec::new(*out.allocator());
    append_types(out, &mut content, &built.types)?;
    append_imports(out, &mut content, built)?;
    append_func_types(out, &mut content, &built.funcs)?;
    append_tables(out, &mut content, &built.tables)?;
    append_memories(out, &mut content, &built.memories)?;
    append_globals(out, &mut content, &built.globals)?;
    append_exports(out, &mut content, &built.exports)?;
    append_start(out, &mut content, built.start)?;
    append_code(out, &mut content, &built.funcs)?;
    append_producers(out, &mut content, built.producers)?;
    Ok(())
}
