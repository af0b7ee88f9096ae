//! An example of `wc_read`.

ghost use Rattle.std.specs.Prelude.{◌≡◌, ◌↔◌, Any, IfOk, IsTrue};
ghost use Rattle.wc_read.specs.Fault.{IfRefused, SpellsNothing};
ghost use Rattle.wc_read.specs.Modules.{ModuleValue, SpellsModule, module_value};

use std::alloc::Global;
use wc_read::{ExportKind, Module, ReadFault, read_module};

/// Whether a module exports a memory.
fn has_memory(parsed: &Module<'_>) -> bool
    ensures { IsTrue result
        ↔ Any (λ e. e.kind ≡ ExportKind.Memory) (module_value parsed.now).exports }
{
    parsed
        .exports
        .iter()
        .any(|export| export.kind == ExportKind::Memory)
}

/// Reads a module, and says whether one of its exports is a memory.
pub(crate) fn exports_memory(alloc: Global, bytes: &[u8]) -> Result<bool, ReadFault>
    ensures found { IfOk result (λ answer. (m : ModuleValue) × SpellsModule bytes.now m
        × (IsTrue answer ↔ Any (λ e. e.kind ≡ ExportKind.Memory) m.exports)) }
    ensures refused { IfRefused result (SpellsNothing SpellsModule bytes.now) }
{
    let module = read_module(alloc, bytes)?;
    Ok(has_memory(&module))
}
