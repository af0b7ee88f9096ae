//! The functions that a command asks for.

ghost use Rattle.std.specs.Prelude.{◌≡◌, ◌⊎◌, IfErr, IfOk, map, string_bytes};
ghost use Rattle.std.specs.Option.{option_map};
ghost use Rattle.wc_texts.specs.Escape.{escaped};
ghost use Rattle.wc_why.specs.Tree.{tree_caller_view};
ghost use Rattle.wc_import_paths.specs.Functions.{AreAskedOf, near_function};
ghost use Rattle.wcwhy.specs.Arguments.{command_view};
ghost use Rattle.wcwhy.specs.Functions.{IsFunctionFault, IsUnknownFault, lacks_names};
ghost use Rattle.wcwhy.specs.declared.fault.WhyFault.TheVariants.{Memory};

use crate::arguments::Command;
use crate::fault::WhyFault;
use std::alloc::{AllocError, Global};
use wc_import_paths::{
    are_named, first_unknown_function, functions_asked, functions_of, is_number, near_function,
};
use wc_maps::Seed;
use wc_texts::escaped;
use wc_why::TreeCaller;

/// The functions that a command asks for of the module with these bytes, which has so many, by index.
///
/// # Errors
///
/// - `NoFunction`, `NoNames`: none is what is asked for; the first such.
/// - `Memory`: an allocation failed; it may come in place of the others.
pub(crate) fn functions_for<'a, 'r>(
    alloc: Global,
    seed: Seed,
    command: &Command<'a>,
    bytes: &'r [u8],
    count: usize,
) -> Result<Vec<TreeCaller<'r>>, WhyFault<'a>>
    ensures asked { IfOk result (λ v. AreAskedOf bytes.now count
        (command_view command.now).functions (map tree_caller_view v.items)) }
    ensures fault { IfErr result (λ f. (f ≡ Memory)
        ⊎ IsFunctionFault (command_view command.now) bytes.now count f) }
{
    if command.functions.is_empty() {
        return Ok(Vec::new(alloc));
    }
    let functions = functions_of(alloc, bytes, count)?;
    let asked = functions_asked(alloc, seed, &functions, &command.functions)?;
    match first_unknown_function(alloc, seed, &asked, &command.functions)? {
        Some(name) => Err(no_function(alloc, command.source, &functions, name)),
        None => Ok(asked),
    }
}

/// The fault for a text that asks for none of the functions of the module of this path.
fn no_function<'a>(
    alloc: Global,
    path: &'a str,
    functions: &[TreeCaller<'_>],
    text: &'a str,
) -> WhyFault<'a>
    ensures { (result ≡ Memory) ⊎ IsUnknownFault path.now
        (map tree_caller_view functions.now) text.now result }
{
    if lacks_names(functions, text) {
        return WhyFault::NoNames(text, path);
    }
    match near_text(alloc, functions, text) {
        Ok(near) => WhyFault::NoFunction(text, near),
        Err(AllocError) => WhyFault::Memory,
    }
}

/// Whether a text is a name, and these functions have no names.
fn lacks_names(functions: &[TreeCaller<'_>], text: &str) -> bool
    ensures { result ≡ lacks_names (map tree_caller_view functions.now) text.now }
{
    !are_named(functions) && !is_number(text)
}

/// The name that a text may be meant for, escaped.
fn near_text(
    alloc: Global,
    functions: &[TreeCaller<'_>],
    text: &str,
) -> Result<Option<String>, AllocError>
    ensures { IfOk result (λ r. option_map string_bytes r ≡ option_map escaped
        (near_function (map tree_caller_view functions.now) text.now)) }
{
    match near_function(alloc, functions, text)? {
        Some(name) => Ok(Some(escaped(alloc, &name)?)),
        None => Ok(None),
    }
}
