//! The exports of an adapter that a component may need.

ghost use Rattle.std.specs.Prelude.{◌≡◌, [], ◌∷◌, ◌++◌, OnOk, cond, map};
ghost use Rattle.std.specs.List.{list_all};
ghost use Rattle.std.specs.Option.{option_map};
ghost use Rattle.wc_gc.specs.Found.{are_i32, is_i32};
ghost use Rattle.wc_read.specs.Exports.{export_value};
ghost use Rattle.wc_read.specs.Modules.{module_value};
ghost use Rattle.wc_read.specs.Types.{func_type_value};
ghost use Rattle.wc_why.specs.Texts.{text_of};
ghost use Rattle.wc_module_ways.specs.ComponentExports.{component_exports, has_hash, is_component_export, is_component_function, is_component_item, is_component_name, is_initializer, is_realloc, is_realloc_name, is_standard, needed_names, type_of};

use std::alloc::{AllocError, Global};
use wc_read::{Export, ExportKind, FuncType, Module, ValType};
use wc_texts::strip_prefix;

/// How the names begin that are read by the standard scheme (component model, pull request 378).
const STANDARD_MARKER: &str = "cm32p2";

/// Appends the names of the exports that a component may need, in the order of the module.
pub(crate) fn push_component_exports<'r>(
    code: &Module<'r>,
    names: &mut Vec<&'r str>,
) -> Result<(), AllocError>
    ensures { OnOk result (map text_of names.new.items ≡ map text_of names.old.items
        ++ component_exports (module_value code.now)) }
{
    push_needed(code, &code.exports, names)
}

/// Appends the names of those of these exports that a component may need, in their order.
fn push_needed<'r>(
    code: &Module<'r>,
    exports: &[Export<'r>],
    names: &mut Vec<&'r str>,
) -> Result<(), AllocError>
    ensures { OnOk result (map text_of names.new.items ≡ map text_of names.old.items
        ++ needed_names (module_value code.now) (map export_value exports.now)) }
{
    for export in exports {
        push_if_needed(code, export, names)?;
    }
    Ok(())
}

/// Appends the name of an export, if a component may need it.
fn push_if_needed<'r>(
    code: &Module<'r>,
    export: &Export<'r>,
    names: &mut Vec<&'r str>,
) -> Result<(), AllocError>
    ensures { OnOk result (map text_of names.new.items ≡ map text_of names.old.items
        ++ cond (is_component_export (module_value code.now) (export_value export.now))
        (export.now.name.now ∷ []) []) }
{
    if is_component_export(code, export) {
        names.push(export.name)?;
    }
    Ok(())
}

/// Whether a component may need an export.
fn is_component_export(code: &Module<'_>, export: &Export<'_>) -> bool
    ensures { result ≡ is_component_export (module_value code.now) (export_value export.now) }
{
    is_component_name(export.name) || is_component_item(code, export)
}

/// Whether a component may need what is exported by a name, whatever that is: what has the name of a function of an
/// interface, one of the standard scheme, or one of four reallocs.
fn is_component_name(name: &str) -> bool
    ensures { result ≡ is_component_name name.now }
{
    has_hash(name) || is_standard(name) || is_realloc_name(name)
}

/// Whether a name is that of something of an interface.
pub(crate) fn has_hash(name: &str) -> bool
    ensures { result ≡ has_hash name.now }
{
    match name.split_once('#') {
        Some(_) => true,
        None => false,
    }
}

/// Whether a name is one of the standard scheme.
fn is_standard(name: &str) -> bool
    ensures { result ≡ is_standard name.now }
{
    match strip_prefix(name, STANDARD_MARKER) {
        Some(_) => true,
        None => false,
    }
}

/// Whether a name is that of a realloc, whatever its type is.
fn is_realloc_name(name: &str) -> bool
    ensures { result ≡ is_realloc_name name.now }
{
    name == "canonical_abi_realloc"
        || name == "cabi_import_realloc"
        || name == "cabi_export_realloc"
        || name == "cabi_realloc_adapter"
}

/// Whether a component may need an export of this kind and name.
fn is_component_item(code: &Module<'_>, export: &Export<'_>) -> bool
    ensures { result ≡ is_component_item (module_value code.now) (export_value export.now) }
{
    match export.kind {
        ExportKind::Func => is_component_function(code, export.name, export.index),
        ExportKind::Table => export.name == "__indirect_function_table",
        ExportKind::Memory => export.name == "memory",
        ExportKind::Global => false,
    }
}

/// Whether a function of this index is a realloc or an initializer by its name and type.
fn is_component_function(code: &Module<'_>, name: &str, index: u32) -> bool
    ensures { result ≡ is_component_function (module_value code.now) name.now index }
{
    match type_of(code, index) {
        Some(ty) => is_realloc(name, ty) || is_initializer(name, ty),
        None => false,
    }
}

/// The type of a function, by the function's index.
fn type_of<'m>(code: &'m Module<'_>, index: u32) -> Option<&'m FuncType>
    ensures { option_map (λ t. func_type_value t.now) result
        ≡ type_of (module_value code.now) index }
{
    match code.funcs.get(index as usize) {
        Some(func) => code.types.get(func.ty as usize),
        None => None,
    }
}

/// Whether a function of this name and type is the general realloc.
fn is_realloc(name: &str, ty: &FuncType) -> bool
    ensures { result ≡ is_realloc name.now (func_type_value ty.now) }
{
    name == "cabi_realloc" && are_i32(ty.params(), 4) && are_i32(ty.results(), 1)
}

/// Whether a function of this name and type is called before all others.
fn is_initializer(name: &str, ty: &FuncType) -> bool
    ensures { result ≡ is_initializer name.now (func_type_value ty.now) }
{
    name == "_initialize" && ty.params().is_empty() && ty.results().is_empty()
}

/// Whether these are so many types i32.
fn are_i32(types: &[ValType], count: usize) -> bool
    ensures { result ≡ are_i32 count types.now }
{
    types.len() == count && all_i32(types)
}

/// Whether all of these are i32.
fn all_i32(types: &[ValType]) -> bool
    ensures { result ≡ list_all is_i32 types.now }
{
    types.iter().all(|ty| is_i32(*ty))
}

/// Whether a type is i32.
fn is_i32(ty: ValType) -> bool
    ensures { result ≡ is_i32 ty }
{
    matches!(ty, ValType::I32)
}
