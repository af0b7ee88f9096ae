//! Functions of the module `env`, by which linkers reach a thread's stack pointer and its local storage.

ghost use Rattle.std.specs.Option.{option_map};
ghost use Rattle.wc_read.specs.Types.{func_type_value};
ghost use Rattle.wc_names.specs.Environment.{IsEnvironmentImport};
ghost use Rattle.wc_names.specs.Finds.{Finds};
ghost use Rattle.wc_names.specs.Views.{import_view};

use crate::Import;
use wc_read::FuncType;

/// The import that a function of the module `env` is.
pub(crate) fn environment_import(name: &str, ty: &FuncType) -> Option<Import>
    ensures { Finds (option_map import_view result)
        (IsEnvironmentImport name.now (func_type_value ty.now)) }
{
    if name == "__wasm_get_stack_pointer" {
        let ty = *ty.results().first()?;
        return Some(Import::ContextGet { ty, slot: 0 });
    }
    if name == "__wasm_set_stack_pointer" {
        let ty = *ty.params().first()?;
        return Some(Import::ContextSet { ty, slot: 0 });
    }
    if name == "__wasm_get_tls_base" {
        let ty = *ty.results().first()?;
        return Some(Import::TlsBaseGet { ty });
    }
    if name == "__wasm_set_tls_base" {
        let ty = *ty.params().first()?;
        return Some(Import::TlsBaseSet { ty });
    }
    None
}
