//! The lines that are printed under the text of a fault.

ghost use Rattle.std.specs.Prelude.{◌≡◌, ◌≢◌, ◌++◌, [], Some, IfOk, IsErr, codes, string_bytes};
ghost use Rattle.std.specs.Option.{option_map};
ghost use Rattle.wc_validate.specs.Explain.{an_export, an_import, difference_view, missing_export, missing_function, place_view, subject_view};
ghost use Rattle.wc_gc.specs.TrimPlace.{place_text as trim_place_text};
ghost use Rattle.wc_read.specs.Place.{read_place_text};
ghost use Rattle.wc_validate.specs.Texts.{difference_text};
ghost use Rattle.wcplan_inputs.specs.Fault.{program_fault_text};
ghost use Rattle.wcplan_inputs.specs.Details.{adapters_line, detail_line, fault_lines, function_line, importer_line, likeness_line, likeness_text, named_part, nearest_line, nearest_text, part_line, part_lines, place_lines, plan_fault_lines, plan_place_lines, read_lines, subject_line, types_line, world_fault_lines};

use crate::explained::Explained;
use crate::explained_part::{ExplainedPart, PartPath};
use crate::fault::ProgramFault;
use std::alloc::{AllocError, Global};
use wc_gc::TrimPlace;
use wc_json::Likeness;
use wc_plan::PlanPlace;
use wc_read::ReadPlace;
use wc_texts::{escaped, quoted};
use wc_validate::{Place, Subject, TypeDifference};
use wc_world::ModulePlace;

impl ProgramFault<'_> {
    /// The lines that the program prints under the fault's text. Each follows a line feed and two blanks; no line
    /// feed follows the last. If the fault has no lines, the result is empty. Near names are names that differ only
    /// in the version or in the case of letters. For worlds that are not text or not JSON, the line says what the
    /// file looks like, if that is known, and which command prints its worlds as JSON. For an unknown adapter, or a
    /// key that is for no import, it is `did you mean NAME?`, if NAME is near. For a main module that can't be read, it
    /// is the offset at which its bytes are malformed, such as `byte 57, in the import section`. For a key that no
    /// module exports, lines say what each module lacks, such as `main lacks "NAME"`. For worlds that are not
    /// well-formed, the line is `PATH "NAME"` or `PATH`: a world, interface, type or package, by its path in the JSON
    /// text and its name, if it has one. For a component without a world, lines come in this order:
    ///
    /// - the offset at which reading a module stopped, such as `byte 57, in the import section`;
    /// - a section of an adapter, or the body of a function, for a fault of trimming;
    /// - otherwise the import or the export, as `import "MODULE" "NAME"`, `export "NAME"`, `missing "INTERFACE"
    ///   "NAME"` or `missing export "NAME"`;
    /// - if two core types differ, `wanted TYPE, found TYPE`;
    /// - if a name is unknown and another is near, `did you mean NAME?`;
    /// - if the main module imports from an unknown module, `adapters:` and their names, or that there are none.
    ///
    /// For a component's world without a plan, it is `function "NAME"`, and then `imported by main` or `imported by
    /// adapter "NAME"`. Texts from outside are escaped (`wc_texts::escaped`), with quotes in names between quotes
    /// (`wc_texts::quoted`).
    ///
    /// # Errors
    ///
    /// `AllocError`: the fault has lines, and an allocation failed.
    pub fn details(&self, alloc: Global) -> Result<String, AllocError>
        ensures text { IfOk result (λ text. string_bytes text ≡ fault_lines self.now) }
        ensures lines { IsErr result → fault_lines self.now ≢ [] }
    {
        match self {
            ProgramFault::NotText(likeness) => likeness_line(alloc, *likeness),
            ProgramFault::NotJson(_, likeness) => likeness_line(alloc, *likeness),
            ProgramFault::NoAdapter(_, _, nearest) => nearest_line(alloc, nearest),
            ProgramFault::NoImport(_, _, nearest) => nearest_line(alloc, nearest),
            ProgramFault::Resolve(refused) => resolve_lines(alloc, &refused.place),
            ProgramFault::Dedupe(refused) => read_lines(alloc, refused.place),
            ProgramFault::Exporter(fault) => fault.lines(alloc),
            ProgramFault::World(refused) => world_lines(alloc, &refused.place),
            ProgramFault::Plan(refused) => plan_lines(alloc, &refused.place),
            _ => Ok(String::new(alloc)),
        }
    }

    /// The text of the fault, and its lines under it.
    ///
    /// # Errors
    ///
    /// `AllocError`: an allocation failed.
    pub fn text_and_details(&self, alloc: Global) -> Result<String, AllocError>
        ensures { IfOk result (λ text. string_bytes text
            ≡ program_fault_text self.now ++ fault_lines self.now) }
    {
        let text = self.text(alloc)?;
        let lines = self.details(alloc)?;
        format!(in alloc; "{text}{lines}")
    }
}

/// The line on the format of a file of worlds that is not text or not JSON, if it is recognized.
fn likeness_line(alloc: Global, likeness: Option<Likeness>) -> Result<String, AllocError>
    ensures text { IfOk result (λ text. string_bytes text ≡ likeness_line likeness) }
    ensures lines { IsErr result → likeness_line likeness ≢ [] }
{
    match likeness {
        Some(likeness) => line_of(alloc, likeness_text(likeness)),
        None => Ok(String::new(alloc)),
    }
}

/// Names the format that a file of worlds seems to have instead of JSON, and the command that prints it as JSON.
fn likeness_text(likeness: Likeness) -> &'static str
    ensures { result.now ≡ likeness_text likeness }
{
    match likeness {
        Likeness::WebAssembly => {
            "it is WebAssembly: `wasm-tools component wit --json FILE` prints its worlds as JSON"
        }
        Likeness::ByteOrderMark => "it begins with a byte order mark, which JSON has not",
        Likeness::Empty => "it is empty",
        Likeness::Wit => "it is WIT: `wasm-tools component wit --json FILE` prints it as JSON",
    }
}

/// A line under the text of a fault.
fn line_of(alloc: Global, text: &str) -> Result<String, AllocError>
    ensures { IfOk result (λ line. string_bytes line ≡ codes "\n  " ++ text.now) }
{
    format!(in alloc; "\n  {text}")
}

/// The lines of a fault of worlds that are not well-formed.
fn resolve_lines(alloc: Global, part: &Option<ExplainedPart>) -> Result<String, AllocError>
    ensures text { IfOk result (λ text. string_bytes text ≡ part_lines part.now) }
    ensures lines { IsErr result → part_lines part.now ≢ [] }
{
    match part {
        Some(part) => part_line(alloc, part),
        None => Ok(String::new(alloc)),
    }
}

/// The line of a world, an interface, a type or a package.
fn part_line(alloc: Global, explained: &ExplainedPart) -> Result<String, AllocError>
    ensures { IfOk result (λ text. string_bytes text ≡ part_line explained.now) }
{
    let path = PartPath(explained.part);
    match &explained.name {
        Some(name) => named_line(alloc, path, name),
        None => format!(in alloc; "\n  {path}"),
    }
}

/// The line of one that has a name.
fn named_line(alloc: Global, path: PartPath, name: &str) -> Result<String, AllocError>
    ensures { IfOk result (λ text. string_bytes text
        ≡ codes "\n  " ++ named_part path.0 (Some name.now)) }
{
    let name = quoted(alloc, name)?;
    format!(in alloc; "\n  {path} {name}")
}

/// The line of where reading a module stopped, if it did.
fn read_lines(alloc: Global, place: Option<ReadPlace>) -> Result<String, AllocError>
    ensures text { IfOk result (λ text. string_bytes text ≡ read_lines place) }
    ensures lines { IsErr result → read_lines place ≢ [] }
{
    match place {
        Some(place) => bytes_line(alloc, place),
        None => Ok(String::new(alloc)),
    }
}

/// The lines of a fault of a component's world.
fn world_lines(alloc: Global, explained: &Option<Explained>) -> Result<String, AllocError>
    ensures text { IfOk result (λ text. string_bytes text ≡ world_fault_lines explained.now) }
    ensures lines { IsErr result → world_fault_lines explained.now ≢ [] }
{
    match explained {
        Some(explained) => explained_lines(alloc, explained),
        None => Ok(String::new(alloc)),
    }
}

/// The lines with the details of a fault.
#[tactic(auto, using(crate::proofs::DetailsLemmas::placed, crate::proofs::DetailsLemmas::trimmed))]
fn explained_lines(alloc: Global, explained: &Explained) -> Result<String, AllocError>
    ensures text { IfOk result (λ text. string_bytes text
        ≡ world_fault_lines (Some explained.now)) }
    ensures lines { IsErr result → world_fault_lines (Some explained.now) ≢ [] }
{
    match &explained.place.place {
        ModulePlace::Validation(place) => {
            place_lines(alloc, place, &explained.nearest, &explained.adapters)
        }
        ModulePlace::Trim(place) => trim_line(alloc, place),
        ModulePlace::PageSizes { .. } => Ok(String::new(alloc)),
    }
}

/// The lines of an import or an export.
fn place_lines(
    alloc: Global,
    place: &Place,
    nearest: &Option<String>,
    adapters: &Option<String>,
) -> Result<String, AllocError>
    ensures { IfOk result (λ text. string_bytes text ≡ place_lines (place_view place.now)
        (option_map string_bytes nearest.now) (option_map string_bytes adapters.now)) }
{
    let subject = subject_line(alloc, &place.subject)?;
    let types = types_line(alloc, &place.types)?;
    let nearest = nearest_line(alloc, nearest)?;
    let adapters = adapters_line(alloc, adapters)?;
    format!(in alloc; "{subject}{types}{nearest}{adapters}")
}

/// The line of a section or of the body of a function.
fn trim_line(alloc: Global, place: &TrimPlace) -> Result<String, AllocError>
    ensures { IfOk result (λ text. string_bytes text ≡ detail_line (trim_place_text place.now)) }
{
    let text = format!(in alloc; "{place}")?;
    detail_line(alloc, &text)
}

/// The line of an import or an export.
fn subject_line(alloc: Global, subject: &Subject) -> Result<String, AllocError>
    ensures { IfOk result (λ text. string_bytes text ≡ subject_line (subject_view subject.now)) }
{
    match subject {
        Subject::Import {
            module_name,
            name,
            ..
        } => import_line(alloc, module_name, name),
        Subject::Export(name) => export_line(alloc, name),
        Subject::MissingFunction { module_name, name } => missing_line(alloc, module_name, name),
        Subject::MissingExport(name) => missing_export_line(alloc, name),
        Subject::Bytes(place) => bytes_line(alloc, *place),
    }
}

/// The line of where reading a module stopped.
fn bytes_line(alloc: Global, place: ReadPlace) -> Result<String, AllocError>
    ensures { IfOk result (λ text. string_bytes text ≡ detail_line (read_place_text place)) }
{
    let text = format!(in alloc; "{place}")?;
    detail_line(alloc, &text)
}

/// The line of an import.
fn import_line(alloc: Global, module_name: &str, name: &str) -> Result<String, AllocError>
    ensures { IfOk result (λ text. string_bytes text
        ≡ subject_line (an_import module_name.now name.now 0)) }
{
    let module_name = quoted(alloc, module_name)?;
    let name = quoted(alloc, name)?;
    format!(in alloc; "\n  import {module_name} {name}")
}

/// The line of an export.
fn export_line(alloc: Global, name: &str) -> Result<String, AllocError>
    ensures { IfOk result (λ text. string_bytes text ≡ subject_line (an_export name.now)) }
{
    let name = quoted(alloc, name)?;
    format!(in alloc; "\n  export {name}")
}

/// The line of a function of an interface that is missing.
fn missing_line(alloc: Global, module_name: &str, name: &str) -> Result<String, AllocError>
    ensures { IfOk result (λ text. string_bytes text
        ≡ subject_line (missing_function module_name.now name.now)) }
{
    let module_name = quoted(alloc, module_name)?;
    let name = quoted(alloc, name)?;
    format!(in alloc; "\n  missing {module_name} {name}")
}

/// The line of an export that is missing.
fn missing_export_line(alloc: Global, name: &str) -> Result<String, AllocError>
    ensures { IfOk result (λ text. string_bytes text ≡ subject_line (missing_export name.now)) }
{
    let name = quoted(alloc, name)?;
    format!(in alloc; "\n  missing export {name}")
}

/// The line of two types.
fn difference_line(alloc: Global, types: &TypeDifference) -> Result<String, AllocError>
    ensures { IfOk result (λ text. string_bytes text
        ≡ detail_line (difference_text (difference_view types.now))) }
{
    let text = format!(in alloc; "{types}")?;
    detail_line(alloc, &text)
}

/// The line of types that differ, if any.
fn types_line(alloc: Global, types: &Option<TypeDifference>) -> Result<String, AllocError>
    ensures { IfOk result (λ text. string_bytes text
        ≡ types_line (option_map difference_view types.now)) }
{
    match types {
        Some(types) => difference_line(alloc, types),
        None => Ok(String::new(alloc)),
    }
}

/// The line of the near name for an unknown name, if one is near.
fn nearest_line(alloc: Global, nearest: &Option<String>) -> Result<String, AllocError>
    ensures text { IfOk result (λ text. string_bytes text
        ≡ nearest_line (option_map string_bytes nearest.now)) }
    ensures lines { IsErr result → nearest_line (option_map string_bytes nearest.now) ≢ [] }
{
    match nearest {
        Some(name) => near_line(alloc, name),
        None => Ok(String::new(alloc)),
    }
}

/// The line of the list of adapters, if present.
fn adapters_line(alloc: Global, adapters: &Option<String>) -> Result<String, AllocError>
    ensures { IfOk result (λ text. string_bytes text
        ≡ adapters_line (option_map string_bytes adapters.now)) }
{
    match adapters {
        Some(text) => detail_line(alloc, text),
        None => Ok(String::new(alloc)),
    }
}

/// The lines of a fault of a plan.
fn plan_lines(alloc: Global, place: &Option<PlanPlace>) -> Result<String, AllocError>
    ensures text { IfOk result (λ text. string_bytes text ≡ plan_fault_lines place.now) }
    ensures lines { IsErr result → plan_fault_lines place.now ≢ [] }
{
    match place {
        Some(place) => plan_place_lines(alloc, place),
        None => Ok(String::new(alloc)),
    }
}

/// The lines of a function that a module imports.
fn plan_place_lines(alloc: Global, place: &PlanPlace) -> Result<String, AllocError>
    ensures { IfOk result (λ text. string_bytes text ≡ plan_place_lines place.now) }
{
    let function = function_line(alloc, &place.name)?;
    let importer = importer_line(alloc, &place.adapter)?;
    format!(in alloc; "{function}{importer}")
}

/// The line of a function.
fn function_line(alloc: Global, name: &str) -> Result<String, AllocError>
    ensures { IfOk result (λ text. string_bytes text ≡ function_line name.now) }
{
    let name = quoted(alloc, name)?;
    format!(in alloc; "\n  function {name}")
}

/// The line of the module that imports a function: the main module, or the adapter of a name.
fn importer_line(alloc: Global, adapter: &Option<String>) -> Result<String, AllocError>
    ensures { IfOk result (λ text. string_bytes text
        ≡ importer_line (option_map string_bytes adapter.now)) }
{
    match adapter {
        Some(name) => adapter_line(alloc, name),
        None => String::from_str(alloc, "\n  imported by main"),
    }
}

/// The line of an adapter that imports a function.
fn adapter_line(alloc: Global, name: &str) -> Result<String, AllocError>
    ensures { IfOk result (λ text. string_bytes text ≡ importer_line (Some name.now)) }
{
    let name = quoted(alloc, name)?;
    format!(in alloc; "\n  imported by adapter {name}")
}

/// The line of a near name.
fn near_line(alloc: Global, name: &str) -> Result<String, AllocError>
    ensures { IfOk result (λ text. string_bytes text ≡ detail_line (nearest_text name.now)) }
{
    let text = format!(in alloc; "did you mean {name}?")?;
    detail_line(alloc, &text)
}

/// A line under the text of a fault, escaped.
fn detail_line(alloc: Global, text: &str) -> Result<String, AllocError>
    ensures { IfOk result (λ line. string_bytes line ≡ detail_line text.now) }
{
    let text = escaped(alloc, text)?;
    format!(in alloc; "\n  {text}")
}
