//! Near names, which differ from an unknown name only in the version or in the case of letters.

ghost use Rattle.std.specs.Prelude.{◌≡◌, ◌<◌, All, IfOk, length, map, option_copied, string_bytes};
ghost use Rattle.std.specs.Option.{IfSome, IsSome, option_map};
ghost use Rattle.std.specs.Str.{str_eq_ignore_ascii_case};
ghost use Rattle.semver.specs.Identifiers.{parts_text};
ghost use Rattle.wc_encoder.specs.EncoderParts.{world_exports, world_imports};
ghost use Rattle.wc_resolve.specs.Resolve.{key_text};
ghost use Rattle.wc_resolve.specs.Ranges.{IsItemIn, IsKeyIn};
ghost use Rattle.wc_resolve.specs.Views.{interface_view, item_view, world_entry};
ghost use Rattle.wc_names.specs.Keys.{as_interface};
ghost use Rattle.wc_selection.specs.KeyNames.{unversioned_text};
ghost use Rattle.wc_validate.specs.Explain.{subject_view};
ghost use Rattle.wcplan_inputs.specs.Nearest.{exported_interface, exported_name, first_near, function_name, imported_name, interface_alike, interface_for, interface_named, is_alike, is_near, key_texts, names_in, near_function, near_import, near_interface, near_place, near_result, near_subject, nearest};

use std::alloc::{AllocError, Global};
use wc_encoder::ComponentEncoder;
use wc_maps::Map;
use wc_resolve::{Interface, InterfaceId, Resolve, WorldItem, WorldKey};
use wc_texts::strip_prefix;
use wc_validate::{Subject, ValidateFault};
use wc_world::{ModulePlace, WorldFault};

/// Finds the nearest name for the name that a fault is about: the first that differs only in its version or in the
/// case of letters. A function's name is the part after `[async-lower]`. For `UnknownInterface` the names are all
/// that the world imports, or all that it exports if the name follows `[export]` or `_ex_`. For `NoRootImport` they
/// are all that the world imports. For `MissingFunction` they are the functions of the interface with the module's
/// name, or otherwise of the first whose name differs only in its version or in the case of letters. For
/// `NoSuchExport` with a name after `[task-return]`, they are all that the world exports. `None` if no name is near,
/// and for all other faults.
///
/// # Errors
///
/// `AllocError`: an allocation failed.
pub(crate) fn near_place(
    alloc: Global,
    encoder: &ComponentEncoder,
    fault: &WorldFault,
    place: &ModulePlace,
) -> Result<Option<String>, AllocError>
    ensures { IfOk result (λ r. option_map string_bytes r
        ≡ near_place encoder.now fault.now place.now) }
{
    match place {
        ModulePlace::Validation(place) => nearest(alloc, encoder, fault, &place.subject),
        ModulePlace::Trim(_) | ModulePlace::PageSizes { .. } => Ok(None),
    }
}

/// Finds the nearest name to that of an import or an export.
fn nearest(
    alloc: Global,
    encoder: &ComponentEncoder,
    fault: &WorldFault,
    subject: &Subject,
) -> Result<Option<String>, AllocError>
    ensures { IfOk result (λ r. option_map string_bytes r
        ≡ nearest encoder.now fault.now (subject_view subject.now)) }
{
    match fault {
        WorldFault::Main(fault) => near_subject(alloc, encoder, fault, subject),
        WorldFault::Adapter(_, fault) => near_subject(alloc, encoder, fault, subject),
        WorldFault::Minimized(_, fault) => near_subject(alloc, encoder, fault, subject),
        _ => Ok(None),
    }
}

/// Finds the nearest name to the one that a fault of a module is about.
fn near_subject(
    alloc: Global,
    encoder: &ComponentEncoder,
    fault: &ValidateFault,
    subject: &Subject,
) -> Result<Option<String>, AllocError>
    ensures { IfOk result (λ r. option_map string_bytes r
        ≡ near_subject encoder.now fault.now (subject_view subject.now)) }
{
    match subject {
        Subject::Import {
            module_name,
            name,
            ..
        } => near_import(alloc, encoder, fault, module_name, name),
        _ => Ok(None),
    }
}

/// Finds the nearest name to that of an import that is refused.
fn near_import(
    alloc: Global,
    encoder: &ComponentEncoder,
    fault: &ValidateFault,
    module_name: &str,
    name: &str,
) -> Result<Option<String>, AllocError>
    ensures { IfOk result (λ r. option_map string_bytes r
        ≡ near_import encoder.now fault.now module_name.now name.now) }
{
    match fault {
        ValidateFault::UnknownInterface => near_interface(alloc, encoder, module_name),
        ValidateFault::NoRootImport => near_imported(alloc, encoder, function_name(name)),
        ValidateFault::MissingFunction => near_function(
            alloc,
            encoder,
            imported_name(module_name),
            function_name(name),
        ),
        ValidateFault::NoSuchExport => near_result(alloc, encoder, name),
        _ => Ok(None),
    }
}

/// The interface whose name is near the one in a module's name.
fn near_interface(
    alloc: Global,
    encoder: &ComponentEncoder,
    module_name: &str,
) -> Result<Option<String>, AllocError>
    ensures { IfOk result (λ r. option_map string_bytes r
        ≡ near_interface encoder.now module_name.now) }
{
    match exported_interface(module_name) {
        Some(name) => near_exported(alloc, encoder, name),
        None => near_imported(alloc, encoder, imported_name(module_name)),
    }
}

/// The name of the export that a module's name is about: after the first `]`, or in the standard scheme after `_ex_`.
fn exported_interface(module_name: &str) -> Option<&str>
    ensures { option_map (λ t. t.now) result ≡ exported_interface module_name.now }
{
    match exported_name(module_name) {
        Some(name) => Some(name),
        None => strip_prefix(imported_name(module_name), "_ex_"),
    }
}

/// The function in a name: the part after `[async-lower]`; without `[async-lower]` the whole name.
fn function_name(name: &str) -> &str
    ensures { result.now ≡ function_name name.now }
{
    match strip_prefix(name, "[async-lower]") {
        Some(function) => function,
        None => name,
    }
}

/// Finds the nearest export of the world to the function whose result a name is about.
fn near_result(
    alloc: Global,
    encoder: &ComponentEncoder,
    name: &str,
) -> Result<Option<String>, AllocError>
    ensures { IfOk result (λ r. option_map string_bytes r ≡ near_result encoder.now name.now) }
{
    match exported_name(name) {
        Some(function) => near_exported(alloc, encoder, function),
        None => Ok(None),
    }
}

/// The part of a name after its first `]`.
fn exported_name(text: &str) -> Option<&str>
    ensures { option_copied result ≡ exported_name text.now }
{
    match text.split_once(']') {
        Some((_before, name)) => Some(name),
        None => None,
    }
}

/// The part of a module's name after its first `|`; without a `|` the whole name.
fn imported_name(module_name: &str) -> &str
    ensures { result.now ≡ imported_name module_name.now }
{
    match module_name.split_once('|') {
        Some((_before, name)) => name,
        None => module_name,
    }
}

/// The first import of the world whose text is near a name.
fn near_imported(
    alloc: Global,
    encoder: &ComponentEncoder,
    name: &str,
) -> Result<Option<String>, AllocError>
    ensures { IfOk result (λ r. option_map string_bytes r ≡ first_near name.now
        (key_texts encoder.now.resolve (world_imports encoder.now))) }
{
    encoder.well_formedness();
    let metadata = encoder.metadata();
    metadata.resolve.well_formedness();
    let imports = &metadata.resolve.world(metadata.world).imports;
    near_key(alloc, &metadata.resolve, imports, name)
}

/// The first export of the world whose text is near a name.
fn near_exported(
    alloc: Global,
    encoder: &ComponentEncoder,
    name: &str,
) -> Result<Option<String>, AllocError>
    ensures { IfOk result (λ r. option_map string_bytes r ≡ first_near name.now
        (key_texts encoder.now.resolve (world_exports encoder.now))) }
{
    encoder.well_formedness();
    let metadata = encoder.metadata();
    metadata.resolve.well_formedness();
    let exports = &metadata.resolve.world(metadata.world).exports;
    near_key(alloc, &metadata.resolve, exports, name)
}

/// The first text of these keys that is near a name.
fn near_key(
    alloc: Global,
    resolve: &Resolve,
    items: &Map<WorldKey, WorldItem>,
    name: &str,
) -> Result<Option<String>, AllocError>
    requires there { All (λ x. IsKeyIn resolve.now x.0) (map world_entry items.now.entries) }
    requires named { All (λ x. IsSome (key_text parts_text resolve.now x.0))
        (map world_entry items.now.entries) }
    ensures { IfOk result (λ r. option_map string_bytes r ≡ first_near name.now
        (key_texts resolve.now (map world_entry items.now.entries))) }
{
    for (key, _item) in items.iter() {
        let text = resolve.name_world_key(alloc, key)?;
        if is_near(name, &text) {
            return Ok(Some(text));
        }
    }
    Ok(None)
}

/// The function with a near name, in the interface that the world imports under this text.
fn near_function(
    alloc: Global,
    encoder: &ComponentEncoder,
    text: &str,
    name: &str,
) -> Result<Option<String>, AllocError>
    ensures { IfOk result (λ r. option_map string_bytes r
        ≡ near_function encoder.now text.now name.now) }
{
    encoder.well_formedness();
    let metadata = encoder.metadata();
    metadata.resolve.well_formedness();
    let resolve = &metadata.resolve;
    let imports = &resolve.world(metadata.world).imports;
    match interface_for(alloc, resolve, imports, text)? {
        Some(id) => near_name(alloc, resolve.interface(id), name),
        None => Ok(None),
    }
}

/// The interface that has a key with this text, or otherwise the first that has a key whose text differs only in its
/// version or in the case of letters.
fn interface_for(
    alloc: Global,
    resolve: &Resolve,
    items: &Map<WorldKey, WorldItem>,
    text: &str,
) -> Result<Option<InterfaceId>, AllocError>
    requires there { All (λ x. IsKeyIn resolve.now x.0) (map world_entry items.now.entries) }
    requires named { All (λ x. IsSome (key_text parts_text resolve.now x.0))
        (map world_entry items.now.entries) }
    requires items { All (λ x. IsItemIn resolve.now x.1) (map world_entry items.now.entries) }
    ensures named { IfOk result (λ r. option_map (λ i. i.0) r
        ≡ interface_for resolve.now (map world_entry items.now.entries) text.now) }
    ensures there { IfOk result (λ r. IfSome r (λ i. i.0 < length resolve.now.interfaces)) }
{
    match interface_named(alloc, resolve, items, text)? {
        Some(id) => Ok(Some(id)),
        None => interface_alike(alloc, resolve, items, text),
    }
}

/// The interface that has a key with this text.
fn interface_named(
    alloc: Global,
    resolve: &Resolve,
    items: &Map<WorldKey, WorldItem>,
    text: &str,
) -> Result<Option<InterfaceId>, AllocError>
    requires there { All (λ x. IsKeyIn resolve.now x.0) (map world_entry items.now.entries) }
    requires named { All (λ x. IsSome (key_text parts_text resolve.now x.0))
        (map world_entry items.now.entries) }
    requires items { All (λ x. IsItemIn resolve.now x.1) (map world_entry items.now.entries) }
    ensures named { IfOk result (λ r. option_map (λ i. i.0) r
        ≡ interface_named resolve.now (map world_entry items.now.entries) text.now) }
    ensures there { IfOk result (λ r. IfSome r (λ i. i.0 < length resolve.now.interfaces)) }
{
    for (key, item) in items.iter() {
        let key_text = resolve.name_world_key(alloc, key)?;
        if key_text.as_str() == text {
            return Ok(interface_in(item));
        }
    }
    Ok(None)
}

/// The first interface that has a key whose text differs from this one only in its version and in the case of
/// letters.
fn interface_alike(
    alloc: Global,
    resolve: &Resolve,
    items: &Map<WorldKey, WorldItem>,
    text: &str,
) -> Result<Option<InterfaceId>, AllocError>
    requires there { All (λ x. IsKeyIn resolve.now x.0) (map world_entry items.now.entries) }
    requires named { All (λ x. IsSome (key_text parts_text resolve.now x.0))
        (map world_entry items.now.entries) }
    requires items { All (λ x. IsItemIn resolve.now x.1) (map world_entry items.now.entries) }
    ensures named { IfOk result (λ r. option_map (λ i. i.0) r
        ≡ interface_alike resolve.now (map world_entry items.now.entries) text.now) }
    ensures there { IfOk result (λ r. IfSome r (λ i. i.0 < length resolve.now.interfaces)) }
{
    for (key, item) in items.iter() {
        let key_text = resolve.name_world_key(alloc, key)?;
        if is_alike(text, &key_text) {
            return Ok(interface_in(item));
        }
    }
    Ok(None)
}

/// The interface that an item is.
fn interface_in(item: &WorldItem) -> Option<InterfaceId>
    ensures { option_map (λ i. i.0) result ≡ as_interface (item_view item.now) }
{
    match item {
        WorldItem::Interface { id, .. } => Some(*id),
        _ => None,
    }
}

/// The first name of an interface's functions that is near a name.
fn near_name(alloc: Global, interface: &Interface, name: &str) -> Result<Option<String>, AllocError>
    ensures { IfOk result (λ r. option_map string_bytes r
        ≡ first_near name.now (names_in (interface_view interface.now))) }
{
    for (function, _declared) in interface.functions.iter() {
        if is_near(name, function) {
            return Ok(Some(String::from_str(alloc, function)?));
        }
    }
    Ok(None)
}

/// Whether names differ, and only in their versions and in the case of ASCII letters.
pub(crate) fn is_near(name: &str, other: &str) -> bool
    ensures { result ≡ is_near name.now other.now }
{
    if name == other {
        false
    } else {
        is_alike(name, other)
    }
}

/// Whether names differ only in their versions and in the case of ASCII letters.
pub(crate) fn is_alike(name: &str, other: &str) -> bool
    ensures { result ≡ is_alike name.now other.now }
{
    same_letters(unversioned(name), unversioned(other))
}

/// Whether texts differ only in the case of ASCII letters.
fn same_letters(left: &str, right: &str) -> bool
    ensures { result ≡ str_eq_ignore_ascii_case left.now right.now }
{
    left.eq_ignore_ascii_case(right)
}

/// The part of a text before its first `@`; without a `@` the whole text.
fn unversioned(text: &str) -> &str
    ensures { result.now ≡ unversioned_text text.now }
{
    match text.split_once('@') {
        Some((before, _version)) => before,
        None => text,
    }
}
