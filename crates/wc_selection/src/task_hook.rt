//! The name for an encoder without a task hook.

ghost use Rattle.std.specs.Prelude.{◌≡◌, IfOk, string_bytes};
ghost use Rattle.wc_selection.specs.TaskHook.{NoExportIsHook, no_task_hook};

use std::alloc::{AllocError, Global};

/// A name that makes no export the task hook: the name of the initialiser, `_initialize`. An exported function with
/// this name is the initialiser, whatever its type and whatever the name of the hook (`no_export_is_hook`). An
/// encoder whose `task_hook` is this name has no task hook.
///
/// # Errors
///
/// `AllocError`: an allocation failed.
pub fn no_task_hook(alloc: Global) -> Result<String, AllocError>
    ensures { IfOk result (λ s. string_bytes s ≡ no_task_hook) }
{
    String::from_str(alloc, "_initialize")
}

/// If the task hook has the name of [`no_task_hook`], no export of any name and type is the task hook, and none needs
/// its type. A law: the function does nothing when it runs.
pub fn no_export_is_hook()
    ensures { NoExportIsHook }
{}
