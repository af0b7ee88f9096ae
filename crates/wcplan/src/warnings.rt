//! Warnings: the parts of a command that its component doesn't need.

ghost use Rattle.std.specs.Prelude.{◌≡◌, IfOk, map, string_bytes};
ghost use Rattle.std.specs.Option.{option_map};
ghost use Rattle.std.specs.List.{list_any};
ghost use Rattle.std.specs.Str.{bytes_eq};
ghost use Rattle.wc_maps.specs.Texts.{text_of, text_pair};
ghost use Rattle.wc_world.specs.WorldViews.{adapters_view, world_view};
ghost use Rattle.wcplan_inputs.specs.AdapterNames.{names_of};
ghost use Rattle.wcplan_inputs.specs.Arguments.{command_view};
ghost use Rattle.wcplan.specs.Warnings.{adapter_warning, adapter_warnings, hook_warning, left_out_text, nameless_text, no_hook_text, warning_line, warnings_text};

use std::alloc::{AllocError, Global};
use wc_maps::Map;
use wc_texts::escaped;
use wc_world::{ComponentWorld, WorldAdapter};
use wcplan_inputs::Command;

/// The warnings of a command whose component's world this is, each in a line after `wcplan: warning: `. Adapters of
/// the command come in order: a warning says that an adapter has no name, or otherwise that the component has no
/// adapter with its name. If a task hook is named, and no export of the main module is the hook, the last warning
/// says so. Texts from outside are escaped (`wc_texts::escaped`).
///
/// # Errors
///
/// `AllocError`: an allocation failed.
pub(crate) fn warnings_of(
    alloc: Global,
    command: &Command<'_>,
    world: &ComponentWorld<'_>,
) -> Result<String, AllocError>
    ensures { IfOk result (λ text. string_bytes text
        ≡ warnings_text (command_view command.now) (world_view world.now)) }
{
    let adapters = adapter_warnings(alloc, &command.adapters, &world.adapters)?;
    let hook = hook_warning(
        alloc,
        command.task_hook,
        world.info.exports.wasm_task_hook(),
    )?;
    format!(in alloc; "{adapters}{hook}")
}

/// The warnings for adapters, listed by their names and paths, in a component with these adapters.
fn adapter_warnings(
    alloc: Global,
    given: &[(&str, &str)],
    adapters: &Map<&str, WorldAdapter<'_>>,
) -> Result<String, AllocError>
    ensures { IfOk result (λ text. string_bytes text
        ≡ adapter_warnings (names_of (adapters_view adapters.now)) (map text_pair given.now)) }
{
    let mut text = String::new(alloc);
    for (name, path) in given {
        let warning = adapter_warning(alloc, adapters, name, path)?;
        text.push_str(&warning)?;
    }
    Ok(text)
}

/// The warning for an adapter, listed by its name and its path, if it needs one.
fn adapter_warning(
    alloc: Global,
    adapters: &Map<&str, WorldAdapter<'_>>,
    name: &str,
    path: &str,
) -> Result<String, AllocError>
    ensures { IfOk result (λ text. string_bytes text
        ≡ adapter_warning (names_of (adapters_view adapters.now)) (name.now, path.now)) }
{
    if name.is_empty() {
        return nameless_warning(alloc, path);
    }
    if is_adapter(adapters, name) {
        return Ok(String::new(alloc));
    }
    left_out_warning(alloc, name)
}

/// Whether there is an adapter of this name.
fn is_adapter(adapters: &Map<&str, WorldAdapter<'_>>, name: &str) -> bool
    ensures { result ≡ list_any (bytes_eq name.now) (names_of (adapters_view adapters.now)) }
{
    adapters.contains_key(name)
}

/// The warning of an adapter that has no name.
fn nameless_warning(alloc: Global, path: &str) -> Result<String, AllocError>
    ensures { IfOk result (λ text. string_bytes text ≡ warning_line (nameless_text path.now)) }
{
    let text = format!(in alloc; "the adapter of `{path}` has no name")?;
    warning_line(alloc, &text)
}

/// The warning of an adapter that the component doesn't have.
fn left_out_warning(alloc: Global, name: &str) -> Result<String, AllocError>
    ensures { IfOk result (λ text. string_bytes text ≡ warning_line (left_out_text name.now)) }
{
    let text = format!(in alloc;
        "adapter `{name}` is left out: the main module imports nothing from it, and it has to export no function"
    )?;
    warning_line(alloc, &text)
}

/// The warning of a task hook that is named, if no export is the hook.
fn hook_warning(
    alloc: Global,
    named: Option<&str>,
    export: Option<&str>,
) -> Result<String, AllocError>
    ensures { IfOk result (λ text. string_bytes text
        ≡ hook_warning (option_map text_of named.entry) (option_map text_of export.entry)) }
{
    match (named, export) {
        (Some(name), None) => no_hook_warning(alloc, name),
        (Some(_), Some(_)) | (None, _) => Ok(String::new(alloc)),
    }
}

/// The warning of a task hook that no export is.
fn no_hook_warning(alloc: Global, name: &str) -> Result<String, AllocError>
    ensures { IfOk result (λ text. string_bytes text ≡ warning_line (no_hook_text name.now)) }
{
    let text = format!(in alloc; "no export of the main module is the task hook `{name}`")?;
    warning_line(alloc, &text)
}

/// A warning in a line, escaped.
fn warning_line(alloc: Global, text: &str) -> Result<String, AllocError>
    ensures { IfOk result (λ line. string_bytes line ≡ warning_line text.now) }
{
    let text = escaped(alloc, text)?;
    format!(in alloc; "wcplan: warning: {text}\n")
}
