//! Faults of the program: the reasons why a command could not be done.

ghost use Rattle.std.specs.Prelude.{◌≡◌, IfNone, IfOk, IfSome, map, string_bytes};
ghost use Rattle.std.specs.Option.{option_map};
ghost use Rattle.wc_read.specs.Imports.{import_value};
ghost use Rattle.wc_import_paths.specs.Patterns.{pattern_view};
ghost use Rattle.wcwhy.specs.Fault.{IsAdapterFault, IsNamedFault, IsSourceFault, NeedsText, adapter_text, core_text, given_word, given_text, names_hint, near_package_text, near_text, no_adapter_text, no_function_text, no_module_text, no_names_text, no_such_module_text, no_text_text, of_adapter, of_source, package_pattern_text, pattern_text, repeated_adapter_text, source_text, unclear_text, unknown_text, unread_text, unwritten_text, why_fault_text};

use crate::near_exports::near_for;
use crate::patterns::{named_under, near_import, near_package, near_pattern};
use std::alloc::{AllocError, AllocFailed, Global};
use wc_component_file::FileFault;
use wc_gc::{GcFault, TrimPlace};
use wc_import_paths::ImportPattern;
use wc_program::{FileProblem, problem_text};
use wc_read::Import;
use wc_texts::{OUT_OF_MEMORY, Refused, escaped, text_of};
use wc_why::package_text;
use wc_why_text::word;

/// Why the program could not do what its arguments say. `run_command` says which of several causes is named; `Memory`
/// may come in place of any.
#[derive(Debug, Drop)]
pub enum WhyFault<'a> {
    /// An allocation failed.
    Memory,
    /// The file of this path could not be read, and why: never `Memory`.
    CannotRead(&'a str, FileProblem),
    /// Two adapters have this name.
    RepeatedAdapter(&'a str),
    /// No adapter has this name, and an export is asked of it. It carries what adapters there are, as a text.
    NoAdapter(&'a str, String),
    /// The module can't be followed. It carries the reason, never `Memory`, and the place. For a missing export it also
    /// carries the first export that differs from it only in its version or in the case of letters, as in the fault's
    /// text.
    Source(GcFault, Option<TrimPlace>, Option<String>),
    /// The adapter of this name can't be followed. It carries what `Source` does.
    Adapter(String, GcFault, Option<TrimPlace>, Option<String>),
    /// An option asks for imports, and the module has none of them. It carries the pattern of the option, and a near
    /// name for the fault's text, if one exists. For a near name, versions and the case of letters don't count. It is
    /// the module of the first import that the option would then ask for by the module; otherwise the package, with its
    /// version, of the first import that it would ask for by the package. If the option has a name, the name of that
    /// import follows.
    NoImport(ImportPattern<'a>, Option<String>),
    /// A function is asked for that the module doesn't have, by this index or name. It carries the name, as it is shown, that may be
    /// meant, as it is in the fault's text.
    NoFunction(&'a str, Option<String>),
    /// A function is asked for by this name, and the module of this path has no names of functions.
    NoNames(&'a str, &'a str),
    /// The file is a component, and an adapter is given, or an export of one.
    Component,
    /// A core module is chosen, and the file is no component.
    NoComponent,
    /// The file is no component that can be read. It carries why, never `Memory`, and the byte of the file where the
    /// section begins that is the cause.
    File(FileFault, Option<usize>),
    /// The component has no core module. It carries how many components directly inside it have some.
    NoModule(usize),
    /// The component has no core module of this index. It carries how many it has.
    NoSuchModule {
        asked: usize,
        count: usize,
    },
    /// It can't be told which core module is which. It carries what core modules there are, each in a line after two
    /// blanks.
    Unclear(String),
    /// The core module of this index can't be followed. It carries the reason, never `Memory`, and the place, whose
    /// bytes are counted in the component's file.
    Core {
        module: usize,
        fault: GcFault,
        place: Option<TrimPlace>,
    },
    /// The file of this path could not be written, and why.
    CannotWrite(&'a str, FileProblem),
    /// Something is imported that no entry allows. It carries from where, as the whole text of the fault.
    NotAllowed(String),
    /// The file of this path, which says what is allowed, is not UTF-8.
    AllowNotText(&'a str),
    /// The lines, or the graph, could not be printed.
    Output,
}

impl WhyFault<'_> {
    /// The text of the fault, which the program prints in a line. Texts from outside in it are escaped
    /// (`wc_texts::escaped`).
    ///
    /// # Errors
    ///
    /// `AllocError`: an allocation failed.
    pub fn text(&self, alloc: Global) -> Result<String, AllocError>
        ensures { IfOk result (λ text. string_bytes text ≡ why_fault_text self.now) }
    {
        match self {
            WhyFault::Memory => String::from_str(alloc, OUT_OF_MEMORY),
            WhyFault::CannotRead(path, problem) => unread_text(alloc, path, *problem),
            WhyFault::RepeatedAdapter(name) => repeated_adapter_text(alloc, name),
            WhyFault::NoAdapter(name, listing) => no_adapter_text(alloc, name, listing),
            WhyFault::Source(fault, place, near) => source_text(alloc, fault, place, near),
            WhyFault::Adapter(name, fault, place, near) => {
                let text = source_text(alloc, fault, place, near)?;
                adapter_text(alloc, name, &text)
            }
            WhyFault::NoImport(pattern, near) => unknown_text(alloc, pattern, near),
            WhyFault::NoFunction(name, near) => no_function_text(alloc, name, near),
            WhyFault::NoNames(name, path) => no_names_text(alloc, name, path),
            WhyFault::Component => String::from_str(alloc, NO_ADAPTER_OPTION),
            WhyFault::NoComponent => String::from_str(alloc, NO_CORE_OPTION),
            WhyFault::File(fault, _) => text_of(alloc, fault),
            WhyFault::NoModule(inside) => no_module_text(alloc, *inside),
            WhyFault::NoSuchModule { asked, count } => no_such_module_text(alloc, *asked, *count),
            WhyFault::Unclear(listing) => unclear_text(alloc, listing),
            WhyFault::Core {
                module,
                fault,
                place,
            } => {
                let text = source_text(alloc, fault, place, &None)?;
                core_text(alloc, *module, &text)
            }
            WhyFault::CannotWrite(path, problem) => unwritten_text(alloc, path, *problem),
            WhyFault::NotAllowed(text) => String::from_str(alloc, text),
            WhyFault::AllowNotText(path) => no_text_text(alloc, path),
            WhyFault::Output => String::from_str(alloc, UNPRINTED),
        }
    }

    /// The text of the fault, where it is always the same.
    pub(crate) fn fixed_text(&self) -> Option<&'static str>
        ensures whole { IfSome result (λ text. text.now ≡ why_fault_text self.now) }
        ensures none { IfNone result (NeedsText self.now) }
    {
        match self {
            WhyFault::Memory => Some(OUT_OF_MEMORY),
            WhyFault::Output => Some(UNPRINTED),
            _ => None,
        }
    }
}

impl From<AllocError> for WhyFault<'_> {
    ghost use Rattle.wcwhy.specs.declared.fault.WhyFault.TheVariants.{Memory};

    ghost from_gives = { λ _ e. e ≡ Memory };

    fn from(_e: AllocError) -> Self {
        WhyFault::Memory
    }
}

impl<T: Drop> From<AllocFailed<T>> for WhyFault<'_> {
    ghost use Rattle.wcwhy.specs.declared.fault.WhyFault.TheVariants.{Memory};

    ghost from_gives = { λ _ e. e ≡ Memory };

    fn from(_e: AllocFailed<T>) -> Self {
        WhyFault::Memory
    }
}

/// The text where what was to be printed could not be.
const UNPRINTED: &str = "cannot print";

/// The text of a component to which an adapter is given.
const NO_ADAPTER_OPTION: &str = "IN is a component, which has its adapters: no --adapt";

/// The text of a file of which a core module is chosen, and which is no component.
const NO_CORE_OPTION: &str = "--core: IN is no component";

/// The fault for a file that could not be read: its path, and why.
fn unread_text(alloc: Global, path: &str, problem: FileProblem) -> Result<String, AllocError>
    ensures { IfOk result (λ text. string_bytes text ≡ unread_text path.now problem) }
{
    let path = escaped(alloc, path)?;
    let problem = problem_text(problem);
    format!(in alloc; "cannot read {path}{problem}")
}

/// The fault for a file that could not be written: its path, and why.
fn unwritten_text(alloc: Global, path: &str, problem: FileProblem) -> Result<String, AllocError>
    ensures { IfOk result (λ text. string_bytes text ≡ unwritten_text path.now problem) }
{
    let path = escaped(alloc, path)?;
    let problem = problem_text(problem);
    format!(in alloc; "cannot write {path}{problem}")
}

/// The fault for a file that is no text: its path.
fn no_text_text(alloc: Global, path: &str) -> Result<String, AllocError>
    ensures { IfOk result (λ text. string_bytes text ≡ no_text_text path.now) }
{
    let path = escaped(alloc, path)?;
    format!(in alloc; "{path} is not UTF-8")
}

/// The fault for a component without a core module: how many components inside have some.
fn no_module_text(alloc: Global, inside: usize) -> Result<String, AllocError>
    ensures { IfOk result (λ text. string_bytes text ≡ no_module_text inside) }
{
    format!(in alloc; "the component has no core module; components inside: {inside}")
}

/// The fault for a core module that is not there, by its index: how many there are.
fn no_such_module_text(alloc: Global, asked: usize, count: usize) -> Result<String, AllocError>
    ensures { IfOk result (λ text. string_bytes text ≡ no_such_module_text asked count) }
{
    format!(in alloc; "no core module {asked}; the component has {count}")
}

/// The fault for core modules of which it can't be told which is which, and under it what there are.
fn unclear_text(alloc: Global, listing: &str) -> Result<String, AllocError>
    ensures { IfOk result (λ text. string_bytes text ≡ unclear_text listing.now) }
{
    format!(in alloc;
        "which core module is which can't be told; --core N picks the main module{listing}"
    )
}

/// The text of why the core module of an index can't be followed.
fn core_text(alloc: Global, index: usize, text: &str) -> Result<String, AllocError>
    ensures { IfOk result (λ t. string_bytes t ≡ core_text index text.now) }
{
    format!(in alloc; "core module {index}: {text}")
}

/// The fault for a name that two adapters have.
fn repeated_adapter_text(alloc: Global, name: &str) -> Result<String, AllocError>
    ensures { IfOk result (λ text. string_bytes text ≡ repeated_adapter_text name.now) }
{
    let name = escaped(alloc, name)?;
    format!(in alloc; "adapter `{name}` twice")
}

/// The fault for a name that no adapter has, with what adapters there are.
fn no_adapter_text(alloc: Global, name: &str, listing: &str) -> Result<String, AllocError>
    ensures { IfOk result (λ text. string_bytes text ≡ no_adapter_text name.now listing.now) }
{
    let text = format!(in alloc; "no adapter `{name}`; adapters:{listing}")?;
    escaped(alloc, &text)
}

/// The text of why the adapter of a name can't be followed.
fn adapter_text(alloc: Global, name: &str, text: &str) -> Result<String, AllocError>
    ensures { IfOk result (λ t. string_bytes t ≡ adapter_text name.now text.now) }
{
    let name = escaped(alloc, name)?;
    format!(in alloc; "Adapter `{name}`: {text}")
}

/// The text that says why a module can't be followed, in which characters on which a terminal would act are escaped.
/// Under it is the place of the fault, if it has one; otherwise the near export, if one exists.
fn source_text(
    alloc: Global,
    fault: &GcFault,
    place: &Option<TrimPlace>,
    near: &Option<String>,
) -> Result<String, AllocError>
    ensures { IfOk result (λ text. string_bytes text
        ≡ source_text fault.now place.now (option_map string_bytes near.now)) }
{
    let text = text_of(alloc, fault)?;
    let text = escaped(alloc, &text)?;
    match place {
        Some(place) => format!(in alloc; "{text}\n  {place}"),
        None => match near {
            Some(near) => format!(in alloc; "{text}\n  did you mean {near}?"),
            None => Ok(text),
        },
    }
}

/// The fault for a module that has none of the imports that an option asks for, and under it what is there in their
/// place, if something is.
fn unknown_text(
    alloc: Global,
    pattern: &ImportPattern<'_>,
    near: &Option<String>,
) -> Result<String, AllocError>
    ensures { IfOk result (λ text. string_bytes text
        ≡ unknown_text (pattern_view pattern.now) (option_map string_bytes near.now)) }
{
    let asked = pattern_text(alloc, pattern)?;
    match near {
        Some(near) => format!(in alloc; "no import {asked}\n  did you mean {near}?"),
        None => format!(in alloc; "no import {asked}"),
    }
}

/// The fault for a function that the module doesn't have, and under it the name that may be meant, if there is one.
fn no_function_text(alloc: Global, name: &str, near: &Option<String>) -> Result<String, AllocError>
    ensures { IfOk result (λ text. string_bytes text
        ≡ no_function_text name.now (option_map string_bytes near.now)) }
{
    let name = given_text(alloc, name)?;
    match near {
        Some(near) => format!(in alloc; "no function {name}\n  did you mean {near}?"),
        None => format!(in alloc; "no function {name}"),
    }
}

/// The fault for a function that is asked for by its name of a module without names, and under it how to keep them.
fn no_names_text(alloc: Global, name: &str, path: &str) -> Result<String, AllocError>
    ensures { IfOk result (λ text. string_bytes text ≡ no_names_text name.now path.now) }
{
    let text = no_function_text(alloc, name, &None)?;
    let hint = names_hint(alloc, path)?;
    format!(in alloc; "{text}\n  {hint}")
}

/// That the module of this path has no names of functions, and how to keep them.
fn names_hint(alloc: Global, path: &str) -> Result<String, AllocError>
    ensures { IfOk result (λ text. string_bytes text ≡ names_hint path.now) }
{
    let path = escaped(alloc, path)?;
    format!(in alloc; "no function names in {path}: link with -g, without --strip, strip = false")
}

/// A text that was given, escaped; an empty one as `''`, so that it is seen.
fn given_text(alloc: Global, text: &str) -> Result<String, AllocError>
    ensures { IfOk result (λ t. string_bytes t ≡ given_text text.now) }
{
    if text == "" {
        String::from_str(alloc, "''")
    } else {
        escaped(alloc, text)
    }
}

/// The text of an option's pattern: the key, and the name, if it has one.
fn pattern_text(alloc: Global, pattern: &ImportPattern<'_>) -> Result<String, AllocError>
    ensures { IfOk result (λ text. string_bytes text ≡ pattern_text (pattern_view pattern.now)) }
{
    let key = given_word(alloc, pattern.key)?;
    match pattern.name {
        Some(name) => {
            let name = given_word(alloc, name)?;
            format!(in alloc; "{key} {name}")
        }
        None => Ok(key),
    }
}

/// The nearest text to an option's pattern: the module, or the module and the name, of the first of these imports that
/// the option would ask for, if versions and the case of letters did not count; or else the package for the module.
pub(crate) fn near_text(
    alloc: Global,
    pattern: &ImportPattern<'_>,
    imports: &[Import<'_>],
) -> Result<Option<String>, AllocError>
    ensures { IfOk result (λ r. option_map string_bytes r ≡ near_text
        (map import_value imports.now) (pattern_view pattern.now)) }
{
    match near_import(pattern, imports) {
        Some(import) => {
            let near = near_pattern(pattern, import);
            Ok(Some(pattern_text(alloc, &near)?))
        }
        None => near_package_text(alloc, pattern, imports),
    }
}

/// The package, or the package and the name, of the first of these imports for whose package an option would ask, if
/// versions and the case of letters did not count.
fn near_package_text(
    alloc: Global,
    pattern: &ImportPattern<'_>,
    imports: &[Import<'_>],
) -> Result<Option<String>, AllocError>
    ensures { IfOk result (λ r. option_map string_bytes r ≡ near_package_text
        (map import_value imports.now) (pattern_view pattern.now)) }
{
    match near_package(pattern, imports) {
        Some(import) => package_pattern_text(alloc, pattern, import),
        None => Ok(None),
    }
}

/// The package of an import with its version, and its name where an option has one.
fn package_pattern_text(
    alloc: Global,
    pattern: &ImportPattern<'_>,
    import: &Import<'_>,
) -> Result<Option<String>, AllocError>
    ensures { IfOk result (λ r. option_map string_bytes r ≡ package_pattern_text
        (pattern_view pattern.now) (import_value import.now)) }
{
    match package_text(alloc, import.module)? {
        Some(package) => {
            let near = named_under(pattern, &package, import.name);
            Ok(Some(pattern_text(alloc, &near)?))
        }
        None => Ok(None),
    }
}

/// A text that was given, as a word; an empty one as `''`, so that it is seen.
pub(crate) fn given_word(alloc: Global, text: &str) -> Result<String, AllocError>
    ensures { IfOk result (λ word. string_bytes word ≡ given_word text.now) }
{
    if text == "" {
        return String::from_str(alloc, "''");
    }
    word(alloc, text)
}

/// The fault for the module with these bytes, which can't be followed.
pub(crate) fn source_fault<'a>(
    alloc: Global,
    bytes: &[u8],
    refused: Refused<GcFault, TrimPlace>,
) -> WhyFault<'a>
    ensures { IsSourceFault bytes.now refused.fault refused.place result }
{
    match near_for(alloc, bytes, &refused.fault) {
        Ok(near) => refused_fault(refused, near),
        Err(AllocError) => WhyFault::Memory,
    }
}

/// The fault for a module that can't be followed, with what is there in place of an export.
fn refused_fault<'a>(refused: Refused<GcFault, TrimPlace>, near: Option<String>) -> WhyFault<'a>
    ensures { result ≡ of_source refused.fault refused.place near }
{
    let Refused { fault, place } = refused;
    match fault {
        GcFault::Memory => WhyFault::Memory,
        _ => WhyFault::Source(fault, place, near),
    }
}

/// The fault for the adapter of this name with these bytes, which can't be followed.
pub(crate) fn adapter_fault<'a>(
    alloc: Global,
    name: &str,
    bytes: &[u8],
    refused: Refused<GcFault, TrimPlace>,
) -> WhyFault<'a>
    ensures { IsAdapterFault name.now bytes.now refused.fault refused.place result }
{
    match near_for(alloc, bytes, &refused.fault) {
        Ok(near) => named_fault(alloc, name, refused, near),
        Err(AllocError) => WhyFault::Memory,
    }
}

/// The fault for the adapter of this name, with what is there in place of an export.
fn named_fault<'a>(
    alloc: Global,
    name: &str,
    refused: Refused<GcFault, TrimPlace>,
    near: Option<String>,
) -> WhyFault<'a>
    ensures { IsNamedFault name.now refused.fault refused.place near result }
{
    match String::from_str(alloc, name) {
        Ok(name) => of_adapter(name, refused, near),
        Err(AllocError) => WhyFault::Memory,
    }
}

/// The fault for an adapter by its name.
fn of_adapter<'a>(
    name: String,
    refused: Refused<GcFault, TrimPlace>,
    near: Option<String>,
) -> WhyFault<'a>
    ensures { result ≡ of_adapter name refused.fault refused.place near }
{
    let Refused { fault, place } = refused;
    match fault {
        GcFault::Memory => WhyFault::Memory,
        _ => WhyFault::Adapter(name, fault, place, near),
    }
}
