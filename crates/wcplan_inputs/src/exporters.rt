//! Which functions of a key of a world's exports a module has, by the names of its exports.

ghost use Rattle.std.specs.Prelude.{◌≡◌, ◌≢◌, ◌∷◌, ◌++◌, [], IfOk, IsErr, OnOk, None, Some, false, map, option_copied, string_bytes};
ghost use Rattle.std.specs.Option.{option_map, option_map_or};
ghost use Rattle.wc_resolve.specs.Names.{track};
ghost use Rattle.wc_resolve.specs.Resolve.{canonical_id, core_name, key_text};
ghost use Rattle.wc_resolve.specs.Views.{interface_view, key_view, world_entry};
ghost use Rattle.wc_selection.specs.Keys.{named_key};
ghost use Rattle.wc_maps.specs.Texts.{HasTexts, is_in, text_of};
ghost use Rattle.wcplan_inputs.specs.Exporters.{AreExportNames, first_lacking, is_exported, is_legacy_in, is_standard_in, key_functions};
ghost use Rattle.wcplan_inputs.specs.Nearest.{function_names, names_in};
ghost use Rattle.wcplan_inputs.specs.Private.Exporters.{key_functions_view};

use std::alloc::{AllocError, Global};
use wc_maps::{Map, Seed, Set};
use wc_read::{Export, ReadFault, read_module};
use wc_resolve::{Interface, InterfaceId, Resolve, WorldItem, WorldKey};

/// The names of the exports of the module that bytes encode; `None` if they encode none. The set hashes under `seed`.
///
/// # Errors
///
/// `AllocError`: an allocation failed.
pub(crate) fn export_names<'b>(
    alloc: Global,
    seed: Seed,
    bytes: &'b [u8],
) -> Result<Option<Set<&'b str>>, AllocError>
    ensures { IfOk result (λ names. AreExportNames bytes.now
        (option_map (λ s. map text_of s.keys) names)) }
{
    match read_module(alloc, bytes) {
        Ok(parsed) => Ok(Some(name_set(alloc, seed, &parsed.exports)?)),
        Err(fault) => without_names(fault),
    }
}

/// No names, since bytes are no module.
fn without_names<'b>(fault: ReadFault) -> Result<Option<Set<&'b str>>, AllocError>
    ensures none { IfOk result (λ names. option_map (λ s. map text_of s.keys) names ≡ None) }
    ensures refused { OnOk result (fault ≢ ReadFault.Memory) }
    ensures memory { IsErr result → fault ≡ ReadFault.Memory }
{
    match fault {
        ReadFault::Memory => Err(AllocError),
        _ => Ok(None),
    }
}

/// The names of exports as a set. `seed`: its seed.
fn name_set<'b>(
    alloc: Global,
    seed: Seed,
    exports: &[Export<'b>],
) -> Result<Set<&'b str>, AllocError>
    ensures { IfOk result (λ s. HasTexts (map (λ e. e.name.now) exports.now)
        (map text_of s.keys)) }
{
    let mut names: Set<&str> = Set::with_hasher(alloc, seed);
    for export in exports {
        names.insert(export.name)?;
    }
    Ok(names)
}

/// The functions of a key of a world's exports, and what their names begin with.
#[derive(Drop)]
pub(crate) struct KeyFunctions<'r> {
    /// The text of their interface in names of the older scheme; `None` for a function of the world itself.
    interface: Option<&'r str>,
    /// Their text in names of the standard scheme, empty for the world itself; `None` if there is none.
    canonical: Option<String>,
    /// Their names, in order.
    functions: Vec<&'r str>,
}

impl<'r> KeyFunctions<'r> {
    /// The functions of a key that a world exports, with the key's text; none if the world doesn't export it.
    ///
    /// # Errors
    ///
    /// `AllocError`: an allocation failed.
    pub(crate) fn new(
        alloc: Global,
        resolve: &'r Resolve,
        exports: &'r Map<WorldKey, WorldItem>,
        key: &'r (WorldKey, String),
    ) -> Result<KeyFunctions<'r>, AllocError>
        ensures { IfOk result (λ k. key_functions_view k
            ≡ key_functions resolve.now (map world_entry exports.now.entries)
            (named_key key.now)) }
    {
        match exports.get(&key.0) {
            Some(WorldItem::Interface { id, .. }) => interface_functions(alloc, resolve, key, *id),
            Some(WorldItem::Function(_)) => world_function(alloc, key.1.as_str()),
            Some(WorldItem::TypeItem { .. }) => Ok(no_functions(alloc)),
            None => Ok(no_functions(alloc)),
        }
    }

    /// The first function that a module lacks whose exports have these names. Names of the older scheme don't count
    /// if `rejects_legacy`.
    ///
    /// # Errors
    ///
    /// `AllocError`: an allocation failed.
    pub(crate) fn first_lacking(
        &self,
        alloc: Global,
        names: &Set<&str>,
        rejects_legacy: bool,
    ) -> Result<Option<&'r str>, AllocError>
        ensures { IfOk result (λ r. option_map text_of r
            ≡ first_lacking (map text_of names.now.keys) rejects_legacy
            (key_functions_view self.now)) }
    {
        let functions = self.functions.as_slice();
        for function in functions {
            if !self.is_exported(alloc, names, rejects_legacy, function)? {
                return Ok(Some(*function));
            }
        }
        Ok(None)
    }

    /// Whether one of these names is that of a function.
    fn is_exported(
        &self,
        alloc: Global,
        names: &Set<&str>,
        rejects_legacy: bool,
        function: &str,
    ) -> Result<bool, AllocError>
        ensures { IfOk result (λ is. is ≡ is_exported (map text_of names.now.keys) rejects_legacy
            (key_functions_view self.now) function.now) }
    {
        if is_standard_export(alloc, names, &self.canonical, function)? {
            return Ok(true);
        }
        if rejects_legacy {
            return Ok(false);
        }
        is_legacy_export(alloc, names, self.interface, function)
    }
}

/// The functions of an interface that is exported under a key.
fn interface_functions<'r>(
    alloc: Global,
    resolve: &'r Resolve,
    key: &'r (WorldKey, String),
    id: InterfaceId,
) -> Result<KeyFunctions<'r>, AllocError>
    ensures interface { IfOk result (λ k. option_map text_of k.interface
        ≡ Some (string_bytes key.now.1)) }
    ensures canonical { IfOk result (λ k. option_map string_bytes k.canonical
        ≡ key_text track resolve.now (key_view key.now.0)) }
    ensures functions { IfOk result (λ k. map text_of k.functions.items
        ≡ function_names resolve.now id.0) }
{
    let canonical = canonical_text(alloc, resolve, &key.0)?;
    let functions = functions_of(alloc, resolve, id)?;
    Ok(KeyFunctions {
        interface: Some(key.1.as_str()),
        canonical,
        functions,
    })
}

/// The text of a key in names of the standard scheme, if it has one there.
fn canonical_text(
    alloc: Global,
    resolve: &Resolve,
    key: &WorldKey,
) -> Result<Option<String>, AllocError>
    ensures { IfOk result (λ text. option_map string_bytes text
        ≡ key_text track resolve.now (key_view key.now)) }
{
    match key {
        WorldKey::Name(name) => Ok(Some(String::from_str(alloc, name)?)),
        WorldKey::Interface(id) => canonical_id(alloc, resolve, *id),
    }
}

/// The canonical id of an interface; `None` if it has none, or is not there.
fn canonical_id(
    alloc: Global,
    resolve: &Resolve,
    id: InterfaceId,
) -> Result<Option<String>, AllocError>
    ensures { IfOk result (λ text. option_map string_bytes text
        ≡ canonical_id resolve.now id.0) }
{
    if resolve.has_interface(id) {
        resolve.canonicalized_id_of(alloc, id)
    } else {
        Ok(None)
    }
}

/// The names of the functions of an interface; none if it is not there.
fn functions_of<'r>(
    alloc: Global,
    resolve: &'r Resolve,
    id: InterfaceId,
) -> Result<Vec<&'r str>, AllocError>
    ensures { IfOk result (λ v. map text_of v.items ≡ function_names resolve.now id.0) }
{
    if resolve.has_interface(id) {
        names_in(alloc, resolve.interface(id))
    } else {
        Ok(Vec::new(alloc))
    }
}

/// The names of an interface's functions.
fn names_in<'r>(alloc: Global, interface: &'r Interface) -> Result<Vec<&'r str>, AllocError>
    ensures { IfOk result (λ v. map text_of v.items ≡ names_in (interface_view interface.now)) }
{
    let mut names = Vec::new(alloc);
    for (name, _function) in interface.functions.iter() {
        names.push(name.as_str())?;
    }
    Ok(names)
}

/// The function of the world of this name.
fn world_function<'r>(alloc: Global, name: &'r str) -> Result<KeyFunctions<'r>, AllocError>
    ensures interface { IfOk result (λ k. option_map text_of k.interface ≡ None) }
    ensures canonical { IfOk result (λ k. option_map string_bytes k.canonical ≡ Some []) }
    ensures functions { IfOk result (λ k. map text_of k.functions.items ≡ name.now ∷ []) }
{
    let mut functions = Vec::new(alloc);
    functions.push(name)?;
    Ok(KeyFunctions {
        interface: None,
        canonical: Some(String::new(alloc)),
        functions,
    })
}

/// No functions.
fn no_functions<'r>(alloc: Global) -> KeyFunctions<'r>
    ensures interface { option_map text_of result.interface ≡ None }
    ensures canonical { option_map string_bytes result.canonical ≡ None }
    ensures functions { map text_of result.functions.items ≡ [] }
{
    KeyFunctions {
        interface: None,
        canonical: None,
        functions: Vec::new(alloc),
    }
}

/// Whether one of these names is the name of a function in the standard scheme, with the text of its interface, if it
/// has one.
fn is_standard_export(
    alloc: Global,
    names: &Set<&str>,
    text: &Option<String>,
    function: &str,
) -> Result<bool, AllocError>
    ensures { IfOk result (λ is. is ≡ option_map_or
        (is_standard_in (map text_of names.now.keys) function.now)
        (option_map string_bytes text.now) false) }
{
    match text {
        Some(text) => {
            let name = format!(in alloc; "cm32p2|{text}|{function}")?;
            Ok(has_name(names, &name))
        }
        None => Ok(false),
    }
}

/// Whether one of these names is that of a function in the older scheme, of an interface with this text, if it has one.
fn is_legacy_export(
    alloc: Global,
    names: &Set<&str>,
    interface: Option<&str>,
    function: &str,
) -> Result<bool, AllocError>
    ensures { IfOk result (λ is. is ≡ is_legacy_in (map text_of names.now.keys)
        (core_name (option_copied interface.entry) function.now)) }
{
    let name = legacy_name(alloc, interface, function)?;
    if has_name(names, &name) {
        return Ok(true);
    }
    if is_lifted(alloc, names, "[async-lift]", &name)? {
        return Ok(true);
    }
    is_lifted(alloc, names, "[async-lift-stackful]", &name)
}

/// The name of a function in the older scheme.
fn legacy_name(alloc: Global, interface: Option<&str>, function: &str) -> Result<String, AllocError>
    ensures { IfOk result (λ text. string_bytes text
        ≡ core_name (option_copied interface.entry) function.now) }
{
    match interface {
        Some(interface) => format!(in alloc; "{interface}#{function}"),
        None => String::from_str(alloc, function),
    }
}

/// Whether one of these names is another one, after how it is lifted.
fn is_lifted(alloc: Global, names: &Set<&str>, lift: &str, name: &str) -> Result<bool, AllocError>
    ensures { IfOk result (λ is. is ≡ is_in (map text_of names.now.keys) (lift.now ++ name.now)) }
{
    let lifted = format!(in alloc; "{lift}{name}")?;
    Ok(has_name(names, &lifted))
}

/// Whether a name is one of these.
fn has_name(names: &Set<&str>, name: &str) -> bool
    ensures { result ≡ is_in (map text_of names.now.keys) name.now }
{
    names.contains(name)
}
