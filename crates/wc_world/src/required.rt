//! The exports for which adapters were trimmed.

ghost use Rattle.std.specs.Prelude.{◌≡◌, IfOk};
ghost use Rattle.wc_gc.specs.LiveItems.{names_of};
ghost use Rattle.wc_validate.specs.Imports.Map.{required_in};
ghost use Rattle.wc_validate.specs.Validate.{module_record};
ghost use Rattle.wc_world.specs.Trimming.{required_names};
ghost use Rattle.wc_world.specs.Required.{IsTrimmedFor};

use crate::trimming::required_names;
use std::alloc::{AllocError, Global};
use wc_maps::Set;
use wc_validate::ValidatedModule;

/// The names of the exports that are required of an adapter in a component's world, for which it was trimmed: of the
/// functions that the main module imports from it, and then of the exports that are recorded of it; each name once.
/// `main` and `info` are what the world has of its main module and of the adapter of this name. With these names
/// `wc_gc::why_imports` says, of the bytes that the encoder has, why the adapter needs its imports.
///
/// # Errors
///
/// `AllocError`: an allocation failed.
pub fn required_exports(
    alloc: Global,
    main: &ValidatedModule,
    name: &str,
    info: &ValidatedModule,
) -> Result<Set<String>, AllocError>
    ensures names { IfOk result (λ s. names_of s.keys
        ≡ required_names (required_in main.now.imports name.now) info.now.exports) }
    ensures trimmed { IfOk result (λ s. IsTrimmedFor (module_record main.now) name.now
        (module_record info.now) (names_of s.keys)) }
{
    let required = main.imports.required_from_adapter(alloc, name)?;
    required_names(alloc, &required, &info.exports)
}
