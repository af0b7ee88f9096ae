//! Functions that texts ask for: by their indices, or by their names.

ghost use Rattle.std.specs.Prelude.{◌≡◌, ℕ, List, [], ◌∷◌, ◌++◌, IfOk, Some, None, OnOk, cond, map, string_bytes, true, false};
ghost use Rattle.std.specs.List.{find, list_all, list_any};
ghost use Rattle.std.specs.Char.{is_ascii_digit};
ghost use Rattle.std.specs.Option.{option_map, option_map_or};
ghost use Rattle.wc_read.specs.Names.{name_entries};
ghost use Rattle.wc_why.specs.Component.{caller_named};
ghost use Rattle.wc_why.specs.Texts.{name_at, text_of};
ghost use Rattle.wc_why.specs.Tree.{TreeCallerView, tree_caller_view};
ghost use Rattle.wc_import_paths.specs.Functions.{AreFunctions, are_named, asks_for, first_unknown_function, functions_asked, functions_named, has_alike, has_longer, index_of, is_alike, is_known_function, is_longer, is_number, near_function, shown_name};
ghost use Rattle.wc_why_text.specs.RustNames.{rust_name};
ghost use Rattle.wc_import_paths.specs.Private.Functions.{AddsFunction, AddsName, AddsText, AreKnown, AreWanted, has_either, has_index};

use std::alloc::{AllocError, Global};
use wc_maps::{OrderedMap, Seed, Set};
use wc_read::function_names;
use wc_why::TreeCaller;
use wc_why_text::rust_name;

/// The functions of the module with these bytes, with their names, in order; there are so many of them.
///
/// # Errors
///
/// `AllocError`: an allocation failed.
pub fn functions_of(
    alloc: Global,
    bytes: &[u8],
    count: usize,
) -> Result<Vec<TreeCaller<'_>>, AllocError>
    ensures { IfOk result (λ v. AreFunctions bytes.now count (map tree_caller_view v.items)) }
{
    match function_names(alloc, bytes) {
        Ok(names) => named_functions(alloc, &names, count),
        // The bytes are those of a module: there is no fault but that memory runs out.
        Err(_) => Err(AllocError),
    }
}

/// So many functions, each with its name.
fn named_functions<'r>(
    alloc: Global,
    names: &OrderedMap<u32, &'r str>,
    count: usize,
) -> Result<Vec<TreeCaller<'r>>, AllocError>
    ensures { IfOk result (λ v. map tree_caller_view v.items
        ≡ functions_named (name_entries names.now) count) }
{
    let mut functions = Vec::new(alloc);
    for index in 0..count {
        functions.push(function_at(names, index))?;
    }
    Ok(functions)
}

/// A function with its name.
fn function_at<'r>(names: &OrderedMap<u32, &'r str>, index: usize) -> TreeCaller<'r>
    ensures { tree_caller_view result ≡ caller_named (name_entries names.now) index }
{
    TreeCaller {
        index,
        name: name_at(names, index),
    }
}

/// The name of a function, if it has one.
fn name_at<'r>(names: &OrderedMap<u32, &'r str>, index: usize) -> Option<&'r str>
    ensures { option_map text_of result ≡ name_at (name_entries names.now) index }
{
    match u32::try_from(index) {
        Ok(index) => names.get(&index).copied(),
        Err(_) => None,
    }
}

/// The functions that texts ask for, each once, in order. A text of decimal digits asks for the function of this index,
/// and another one for all functions of this name, in the module or as it is shown (`wc_why_text::rust_name`).
///
/// # Errors
///
/// `AllocError`: an allocation failed.
pub fn functions_asked<'r>(
    alloc: Global,
    seed: Seed,
    functions: &[TreeCaller<'r>],
    texts: &[&str],
) -> Result<Vec<TreeCaller<'r>>, AllocError>
    ensures { IfOk result (λ v. map tree_caller_view v.items
        ≡ functions_asked (map text_of texts.now) (map tree_caller_view functions.now)) }
{
    let wanted = wanted_of(alloc, seed, texts)?;
    let mut asked = Vec::new(alloc);
    push_asked(alloc, &wanted, functions, &mut asked)?;
    Ok(asked)
}

/// Appends the functions that are wanted.
fn push_asked<'r>(
    alloc: Global,
    wanted: &FunctionKeys,
    functions: &[TreeCaller<'r>],
    asked: &mut Vec<TreeCaller<'r>>,
) -> Result<(), AllocError>
    ensures { (texts : List (List ℕ)) → AreWanted texts wanted.now
        → OnOk result (map tree_caller_view asked.new.items ≡ map tree_caller_view asked.old.items
        ++ functions_asked texts (map tree_caller_view functions.now)) }
{
    for function in functions {
        push_if(is_wanted(alloc, wanted, function)?, function, asked)?;
    }
    Ok(())
}

/// Appends a function, if it is wanted.
fn push_if<'r>(
    is_wanted: bool,
    function: &TreeCaller<'r>,
    asked: &mut Vec<TreeCaller<'r>>,
) -> Result<(), AllocError>
    ensures { OnOk result (map tree_caller_view asked.new.items
        ≡ map tree_caller_view asked.old.items
        ++ cond is_wanted (tree_caller_view function.now ∷ []) []) }
{
    if is_wanted {
        asked.push(*function)?;
    }
    Ok(())
}

/// The first text that asks for none of these functions.
///
/// # Errors
///
/// `AllocError`: an allocation failed.
pub fn first_unknown_function<'t>(
    alloc: Global,
    seed: Seed,
    functions: &[TreeCaller<'_>],
    texts: &[&'t str],
) -> Result<Option<&'t str>, AllocError>
    ensures { IfOk result (λ r. option_map text_of r ≡ first_unknown_function
        (map tree_caller_view functions.now) (map text_of texts.now)) }
{
    let known = known_of(alloc, seed, functions)?;
    Ok(first_outside(&known, texts))
}

/// The first text that asks for no function that is known.
fn first_outside<'t>(known: &FunctionKeys, texts: &[&'t str]) -> Option<&'t str>
    ensures { (functions : List TreeCallerView) → AreKnown functions known.now
        → option_map text_of result ≡ first_unknown_function functions (map text_of texts.now) }
{
    for text in texts {
        if !is_known(known, text) {
            return Some(*text);
        }
    }
    None
}

/// The name, as it is shown, that a text may be meant for: where it is not one of decimal digits, that of the first of
/// these functions that has its name but for the case of letters, in the module or as it is shown; or else of the first
/// whose shown name ends with `::` and the text.
///
/// # Errors
///
/// `AllocError`: an allocation failed.
pub fn near_function(
    alloc: Global,
    functions: &[TreeCaller<'_>],
    text: &str,
) -> Result<Option<String>, AllocError>
    ensures { IfOk result (λ r. option_map string_bytes r
        ≡ near_function (map tree_caller_view functions.now) text.now) }
{
    if is_number(text) {
        return Ok(None);
    }
    match alike_name(alloc, functions, text)? {
        Some(name) => Ok(Some(name)),
        None => longer_name(alloc, functions, text),
    }
}

/// Whether any of these functions has a name.
pub fn are_named(functions: &[TreeCaller<'_>]) -> bool
    ensures { result ≡ are_named (map tree_caller_view functions.now) }
{
    for function in functions {
        if function.name.is_some() {
            return true;
        }
    }
    false
}

/// Indices and names of functions.
#[derive(Drop)]
struct FunctionKeys {
    indices: Set<usize>,
    names: Set<String>,
}

/// No indices and no names.
fn no_keys(alloc: Global, seed: Seed) -> FunctionKeys
    ensures wanted { AreWanted [] result }
    ensures known { AreKnown [] result }
{
    FunctionKeys {
        indices: Set::with_hasher(alloc, seed),
        names: Set::with_hasher(alloc, seed),
    }
}

/// The indices and the names that texts are.
fn wanted_of(alloc: Global, seed: Seed, texts: &[&str]) -> Result<FunctionKeys, AllocError>
    ensures { IfOk result (AreWanted (map text_of texts.now)) }
{
    let mut wanted = no_keys(alloc, seed);
    for text in texts {
        note_wanted(alloc, &mut wanted, text)?;
    }
    Ok(wanted)
}

/// Notes the index or the name that a text is.
fn note_wanted(alloc: Global, wanted: &mut FunctionKeys, text: &str) -> Result<(), AllocError>
    ensures { OnOk result (AddsText wanted.old wanted.new text.now) }
{
    if is_number(text) {
        note_index(wanted, text)
    } else {
        wanted.names.insert(String::from_str(alloc, text)?)?;
        Ok(())
    }
}

/// Notes the index that a number is.
fn note_index(wanted: &mut FunctionKeys, text: &str) -> Result<(), AllocError>
    requires { is_number text.now ≡ true }
    ensures { OnOk result (AddsText wanted.old wanted.new text.now) }
{
    match index_of(text) {
        Some(index) => {
            wanted.indices.insert(index)?;
            Ok(())
        }
        // No function has an index that is too large.
        None => Ok(()),
    }
}

/// Whether a text is one of decimal digits.
pub fn is_number(text: &str) -> bool
    ensures { result ≡ is_number text.now }
{
    !text.is_empty() && are_digits(text.as_bytes())
}

/// Whether all bytes are decimal digits.
fn are_digits(bytes: &[u8]) -> bool
    ensures { result ≡ list_all is_ascii_digit bytes.now }
{
    bytes.iter().all(|byte| byte.is_ascii_digit())
}

/// The index that a text of decimal digits is, if it is one.
pub fn index_of(text: &str) -> Option<usize>
    ensures { result ≡ index_of text.now }
{
    if is_number(text) {
        text.parse::<usize>().ok()
    } else {
        None
    }
}

/// Whether a function is wanted: by its index, or by its name.
fn is_wanted(
    alloc: Global,
    wanted: &FunctionKeys,
    function: &TreeCaller<'_>,
) -> Result<bool, AllocError>
    ensures { (texts : List (List ℕ)) → AreWanted texts wanted.now
        → IfOk result (λ b. b ≡ list_any (asks_for (tree_caller_view function.now)) texts) }
{
    if wanted.indices.contains(&function.index) {
        return Ok(true);
    }
    match function.name {
        Some(name) => has_either(alloc, &wanted.names, name),
        None => Ok(false),
    }
}

/// Whether a set has a name, as it is or as it is shown.
fn has_either(alloc: Global, names: &Set<String>, name: &str) -> Result<bool, AllocError>
    ensures { IfOk result (λ b. b ≡ has_either names.now.keys name.now) }
{
    if names.is_empty() {
        return Ok(false);
    }
    if names.contains(name) {
        return Ok(true);
    }
    let shown = rust_name(alloc, name)?;
    Ok(names.contains(shown.as_str()))
}

/// The indices of functions, and their names, as they are and as they are shown.
fn known_of(
    alloc: Global,
    seed: Seed,
    functions: &[TreeCaller<'_>],
) -> Result<FunctionKeys, AllocError>
    ensures { IfOk result (AreKnown (map tree_caller_view functions.now)) }
{
    let mut known = no_keys(alloc, seed);
    for function in functions {
        note_known(alloc, &mut known, function)?;
    }
    Ok(known)
}

/// Notes the index of a function, and its name, as it is and as it is shown.
fn note_known(
    alloc: Global,
    known: &mut FunctionKeys,
    function: &TreeCaller<'_>,
) -> Result<(), AllocError>
    ensures { OnOk result (AddsFunction known.old known.new (tree_caller_view function.now)) }
{
    known.indices.insert(function.index)?;
    match function.name {
        Some(name) => note_name(alloc, &mut known.names, name),
        None => Ok(()),
    }
}

/// Notes a name, as it is and as it is shown.
fn note_name(alloc: Global, names: &mut Set<String>, name: &str) -> Result<(), AllocError>
    ensures { OnOk result (AddsName names.old.keys names.new.keys name.now) }
{
    names.insert(String::from_str(alloc, name)?)?;
    names.insert(rust_name(alloc, name)?)?;
    Ok(())
}

/// Whether a text asks for one of the functions that are known.
fn is_known(known: &FunctionKeys, text: &str) -> bool
    ensures { (functions : List TreeCallerView) → AreKnown functions known.now
        → result ≡ is_known_function functions text.now }
{
    if is_number(text) {
        has_index(&known.indices, index_of(text))
    } else {
        known.names.contains(text)
    }
}

/// Whether a set has an index, if there is one.
fn has_index(indices: &Set<usize>, index: Option<usize>) -> bool
    ensures { result ≡ option_map_or (has_index indices.now.keys) index false }
{
    match index {
        Some(index) => indices.contains(&index),
        None => false,
    }
}

/// The name, as it is shown, of the first function whose name is a text but for the case of letters.
fn alike_name(
    alloc: Global,
    functions: &[TreeCaller<'_>],
    text: &str,
) -> Result<Option<String>, AllocError>
    ensures { IfOk result (λ r. option_map string_bytes r ≡ option_map shown_name
        (find (has_alike text.now) (map tree_caller_view functions.now))) }
{
    for function in functions {
        match alike_to(alloc, function, text)? {
            Some(shown) => return Ok(Some(shown)),
            None => {}
        }
    }
    Ok(None)
}

/// The name of a function, as it is shown, if it is a text but for the case of letters.
fn alike_to(
    alloc: Global,
    function: &TreeCaller<'_>,
    text: &str,
) -> Result<Option<String>, AllocError>
    ensures { IfOk result (λ r. option_map string_bytes r ≡ cond
        (has_alike text.now (tree_caller_view function.now))
        (Some (shown_name (tree_caller_view function.now))) None) }
{
    match function.name {
        Some(name) => alike_shown(alloc, name, text),
        None => Ok(None),
    }
}

/// A name, as it is shown, if it is a text but for the case of letters.
fn alike_shown(alloc: Global, name: &str, text: &str) -> Result<Option<String>, AllocError>
    ensures { IfOk result (λ r. option_map string_bytes r ≡ cond
        (is_alike text.now name.now) (Some (rust_name name.now)) None) }
{
    let shown = rust_name(alloc, name)?;
    if text.eq_ignore_ascii_case(name) || text.eq_ignore_ascii_case(&shown) {
        Ok(Some(shown))
    } else {
        Ok(None)
    }
}

/// The name, as it is shown, of the first function whose shown name ends with `::` and a text.
fn longer_name(
    alloc: Global,
    functions: &[TreeCaller<'_>],
    text: &str,
) -> Result<Option<String>, AllocError>
    ensures { IfOk result (λ r. option_map string_bytes r ≡ option_map shown_name
        (find (has_longer text.now) (map tree_caller_view functions.now))) }
{
    for function in functions {
        match longer_than(alloc, function, text)? {
            Some(shown) => return Ok(Some(shown)),
            None => {}
        }
    }
    Ok(None)
}

/// The name of a function, as it is shown, if it ends with `::` and a text.
fn longer_than(
    alloc: Global,
    function: &TreeCaller<'_>,
    text: &str,
) -> Result<Option<String>, AllocError>
    ensures { IfOk result (λ r. option_map string_bytes r ≡ cond
        (has_longer text.now (tree_caller_view function.now))
        (Some (shown_name (tree_caller_view function.now))) None) }
{
    match function.name {
        Some(name) => longer_shown(alloc, name, text),
        None => Ok(None),
    }
}

/// A name, as it is shown, if it ends with `::` and a text.
fn longer_shown(alloc: Global, name: &str, text: &str) -> Result<Option<String>, AllocError>
    ensures { IfOk result (λ r. option_map string_bytes r ≡ cond
        (is_longer text.now name.now) (Some (rust_name name.now)) None) }
{
    let end = format!(in alloc; "::{text}")?;
    let shown = rust_name(alloc, name)?;
    if shown.as_bytes().ends_with(end.as_bytes()) {
        Ok(Some(shown))
    } else {
        Ok(None)
    }
}
