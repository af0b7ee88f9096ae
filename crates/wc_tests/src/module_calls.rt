//! The calls of `wc_validate`.

use crate::encoder_calls::put_which;
use crate::encoders::Asked;
use crate::export_calls::put_answers;
use std::alloc::{AllocError, Global};
use wc_encoder::{Adapter, ComponentEncoder};
use wc_fixtures::read::made;
use wc_fixtures::shown_imports::put_copy;
use wc_fixtures::shown_names::put_name;
use wc_lines::input::{Stop, bad_row, end_answer, number_of};
use wc_lines::lines::Lines;
use wc_lines::put_last::{PutAbout, put_last_about, put_last_fault};
use wc_lines::rows::Row;
use wc_lines::values::{put_fault, put_func_type};
use wc_maps::Map;
use wc_names::Import;
use wc_read::{FuncType, ReadFault};
use wc_texts::Refused;
use wc_validate::{
    ImportInstance, ImportMap, Place, ValidateFault, ValidatedModule, WorldInterfaces,
    validate_module, validate_module_explained,
};

/// A line `MODULE NAME: IMPORT` for each import.
fn put_names(alloc: Global, module_name: &str, names: &Map<String, Import>, out: &mut Lines) {
    for (name, import) in names.iter() {
        put_name(out, module_name);
        out.push(' ');
        put_name(out, name);
        out.push_str(": ");
        put_copy(alloc, import, out);
        out.end();
    }
}

/// All that is recorded of a module: a line `MODULE: WHICH`, or a line for each import.
fn put_instance(alloc: Global, module_name: &str, instance: &ImportInstance, out: &mut Lines) {
    match instance {
        ImportInstance::Whole(which) => {
            put_name(out, module_name);
            out.push_str(": ");
            put_which(out, which);
        }
        ImportInstance::Names(names) => put_names(alloc, module_name, names, out),
    }
}

/// All that is recorded, module by module.
fn put_modules(alloc: Global, imports: &ImportMap, out: &mut Lines) {
    for (module_name, instance) in imports.modules().iter() {
        put_instance(alloc, module_name, instance, out);
    }
}

/// The functions that are imported from an adapter, with their types.
fn put_required(
    alloc: Global,
    imports: &ImportMap,
    adapter: &str,
    out: &mut Lines,
) -> Result<(), AllocError> {
    let required = imports.required_from_adapter(alloc, adapter)?;
    for (name, ty) in required.iter() {
        put_name(out, name);
        out.push(':');
        put_func_type(out, ty);
        out.push('\n');
    }
    Ok(())
}

/// The answers to a row's questions about a module: for the exports, answers to lines `do ask QUESTION`, after the
/// word `ask`; for the imports, `required ADAPTER`, or all that is recorded.
fn put_asked(
    alloc: Global,
    validated: &ValidatedModule,
    row: &Row<'_>,
    out: &mut Lines,
) -> Result<(), Stop> {
    let imports = &validated.imports;
    let last = row.arguments.last().copied().unwrap_or("");
    if row.call == "asked_exports" || last == "ask" {
        put_answers(alloc, &validated.exports, &row.input, out)?;
    } else if row.arguments.iter().any(|word| *word == "required") {
        put_required(alloc, imports, last, out)?;
    } else {
        put_modules(alloc, imports, out);
    }
    Ok(())
}

impl<'a> PutAbout<Asked<'a>> for Result<ValidatedModule, ValidateFault> {
    /// Puts the answers about a validated module, or why it was refused.
    fn put_about(&self, alloc: Global, asked: &Asked<'a>, out: &mut Lines) {
        match self {
            Ok(validated) => {
                let answered = put_asked(alloc, validated, asked.row, out);
                let _ = end_answer(answered.map(|_| true), out);
            }
            // a copy of it has the same text
            Err(ValidateFault::AdapterModuleDidNotExport(missing)) => match missing.clone(alloc) {
                Ok(copy) => put_fault(out, copy),
                Err(_) => out.lack_memory(),
            },
            Err(fault) => writeln!(out, "fault {fault}"),
        }
    }
}

/// The record of a module, or why it is refused and what that is about.
type Explained = Result<ValidatedModule, Refused<ValidateFault, Place>>;

impl<'a> PutAbout<Asked<'a>> for Explained {
    /// Puts why a module is refused, and what that is about, or `ok`.
    fn put_about(&self, _alloc: Global, _asked: &Asked<'a>, out: &mut Lines) {
        match self {
            Ok(_) => out.push_str("ok\n"),
            Err(refused) => {
                let fault = &refused.fault;
                writeln!(out, "fault {fault}");
                match &refused.place {
                    Some(place) => writeln!(out, "{place}"),
                    None => out.push_str("none\n"),
                }
            }
        }
    }
}

/// The main module of an encoder. After the word `explain`: why it is refused, and what that is about.
pub(crate) fn put_main(
    alloc: Global,
    encoder: &ComponentEncoder,
    asked: &Asked<'_>,
    out: &mut Lines,
) {
    let renames = encoder.module_import_map();
    encoder.well_formedness();
    if asked.row.argument(0) == "explain" {
        let answer = validate_module_explained(alloc, encoder, encoder.module(), renames);
        put_last_about(alloc, asked, answer, out);
    } else {
        let answer = validate_module(alloc, encoder, encoder.module(), renames);
        put_last_about(alloc, asked, answer, out);
    }
}

/// One of an encoder's adapters, of which these functions are required.
#[derive(Clone, Copy)]
struct AdapterModule<'a> {
    encoder: &'a ComponentEncoder,
    adapter: &'a Adapter,
    required: &'a Map<String, FuncType>,
}

impl AdapterModule<'_> {
    /// Validates the adapter by interfaces that are made for a number of modules.
    fn put_among(
        &self,
        alloc: Global,
        interfaces: &WorldInterfaces<'_>,
        asked: &Asked<'_>,
        out: &mut Lines,
    ) {
        let adapter = self.adapter;
        self.encoder.well_formedness();
        if asked.row.argument(3) == "explain" {
            let answer = interfaces.validate_adapter_module_explained(
                alloc,
                &adapter.wasm,
                self.required,
                &adapter.required_exports,
                adapter.library_info.as_ref(),
            );
            put_last_about(alloc, asked, answer, out);
        } else {
            let answer = interfaces.validate_adapter_module(
                alloc,
                &adapter.wasm,
                self.required,
                &adapter.required_exports,
                adapter.library_info.as_ref(),
            );
            put_last_about(alloc, asked, answer, out);
        }
    }
}

/// `validate_adapter_module NAME ..`: the adapter with this name, for the functions that the main module imports from
/// it. After `among N`, interfaces are made for N modules; otherwise for one.
pub(crate) fn put_adapter(
    alloc: Global,
    encoder: &ComponentEncoder,
    row: &Row<'_>,
    out: &mut Lines,
) -> Result<(), Stop> {
    let name = row.argument(0);
    let Some(adapter) = encoder.adapters().get(name) else {
        return Err(bad_row(out, "no such adapter", name));
    };
    let required = required_of(alloc, encoder, name, out)?;
    let modules = if row.argument(1) == "among" {
        number_of(out, "no number", row.argument(2))?
    } else {
        1
    };
    let interfaces = WorldInterfaces::new(alloc, encoder, modules as usize)?;
    let checked = AdapterModule {
        encoder,
        adapter,
        required: &required,
    };
    checked.put_among(alloc, &interfaces, &Asked { row }, out);
    Ok(())
}

/// The functions that the main module imports from an adapter.
fn required_of(
    alloc: Global,
    encoder: &ComponentEncoder,
    name: &str,
    out: &mut Lines,
) -> Result<Map<String, FuncType>, Stop> {
    encoder.well_formedness();
    let renames = encoder.module_import_map();
    let main = made(
        validate_module(alloc, encoder, encoder.module(), renames),
        out,
    )?;
    Ok(main.imports.required_from_adapter(alloc, name)?)
}

/// The text of each fault of imports, in the order of `ValidateFault`.
pub(crate) fn put_validate_faults(alloc: Global, out: &mut Lines) {
    put_last_fault(alloc, ValidateFault::Memory, out);
    put_last_fault(alloc, ValidateFault::Read(ReadFault::NotWasm), out);
    put_last_fault(alloc, ValidateFault::NotAModule, out);
    put_last_fault(alloc, ValidateFault::NotAFunction, out);
    put_last_fault(alloc, ValidateFault::SignatureMismatch, out);
    put_last_fault(alloc, ValidateFault::NoRootImport, out);
    put_last_fault(alloc, ValidateFault::RootNotFunction, out);
    put_last_fault(alloc, ValidateFault::BadSyntax, out);
    put_last_fault(alloc, ValidateFault::UnknownInterface, out);
    put_last_fault(alloc, ValidateFault::UnknownIntrinsic, out);
    put_last_fault(alloc, ValidateFault::MissingFunction, out);
    put_last_fault(alloc, ValidateFault::NoSuchExport, out);
    put_last_fault(alloc, ValidateFault::WholeDiffers, out);
    put_last_fault(alloc, ValidateFault::Mixed, out);
    put_last_fault(alloc, ValidateFault::SeveralMemoryImports, out);
    put_last_fault(alloc, ValidateFault::DuplicateImport, out);
    put_last_fault(alloc, ValidateFault::AdapterTypesDiffer, out);
    put_last_fault(alloc, ValidateFault::SeveralMemoryExports, out);
    put_last_fault(alloc, ValidateFault::MissingCallback, out);
    put_last_fault(alloc, ValidateFault::MissingInterfaceExport, out);
    put_last_fault(alloc, ValidateFault::MissingWorldExport, out);
    put_last_fault(alloc, ValidateFault::AdapterExportType, out);
    put_last_fault(alloc, ValidateFault::TypedReference, out);
}
