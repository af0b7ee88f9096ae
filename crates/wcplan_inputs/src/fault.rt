//! Faults of the program: the reasons why a command could not be done.

ghost use Rattle.std.specs.Prelude.{◌≡◌, ◌++◌, IfNone, IfOk, IfSome, codes, string_bytes};
ghost use Rattle.std.specs.Option.{option_map};
ghost use Rattle.wc_texts.specs.Escape.{escaped};
ghost use Rattle.wc_json.specs.Fault.{json_fault_text};
ghost use Rattle.wc_program.specs.Files.{problem_text};
ghost use Rattle.wc_selection.specs.Fault.{quoted};
ghost use Rattle.wc_maps.specs.Texts.{text_of};
ghost use Rattle.wc_texts.specs.FaultTexts.{carried_text};
ghost use Rattle.wc_texts.specs.Pieces.{IsPut};
ghost use Rattle.wcplan_inputs.specs.Details.{fault_lines};
ghost use Rattle.wcplan_inputs.specs.Fault.{NeedsText, no_adapter_text, no_export_text, no_import_text, no_world_text, page_size_text, program_fault_text, repeated_text, selection_fault_text, world_text};

use crate::explained::Explained;
use crate::explained_part::ExplainedPart;
use crate::exporter_fault::ExporterFault;
use std::alloc::{AllocError, AllocFailed, Global};
use thiserror::Error;
use wc_dedupe::DedupeFault;
use wc_encoder::EncoderFault;
use wc_gc::GcFault;
use wc_json::{JsonFault, Likeness};
use wc_plan::{PlanFault, PlanPlace};
use wc_program::{FileProblem, Text, TextBetween, problem_text};
use wc_read::ReadPlace;
use wc_resolve::ResolveFault;
use wc_selection::RequestFault;
use wc_texts::{FaultText, OUT_OF_MEMORY, Pieces, PutFailed, Refused, escaped, text_of};
use wc_world::WorldFault;

/// Why the worlds don't have the things that the arguments name, or why adapters or their files can't have these
/// names. `run_command` says which of several causes is named; `Memory` may come instead of any.
#[derive(Clone, Copy, Debug, PartialEq, Eq, Error)]
pub enum SelectionFault<'a> {
    /// An allocation failed.
    #[error("out of memory")]
    Memory,
    /// The world or a key does not exist, or several match, or a key is repeated. It carries why, never `Memory`.
    #[error("{0}")]
    Request(RequestFault<'a>),
    /// Two adapters have this name.
    #[error("adapter `{0}` twice")]
    RepeatedAdapter(&'a str),
    /// A key is to be exported by this adapter, but no adapter has its name.
    #[error("no adapter `{0}`")]
    UnknownAdapter(&'a str),
    /// The path of the directory that files are written to is empty.
    #[error("empty path of --out")]
    EmptyDirectory,
    /// The adapter of this name would be written to a file, and no file has this name.
    #[error("adapter `{0}` is no file's name")]
    FileName(&'a str),
    /// This adapter would be written to the file of the main module.
    #[error("adapter `{0}` in the main module's file")]
    MainFile(&'a str),
}

impl FaultText for SelectionFault<'_> {
    ghost use Rattle.wcplan_inputs.specs.Fault.{selection_fault_text};

    ghost text = { selection_fault_text };

    fn put_pieces<P: Pieces>(&self, out: &mut P) -> Result<(), PutFailed> {
        match self {
            SelectionFault::Memory => out.put_piece(OUT_OF_MEMORY),
            SelectionFault::Request(fault) => fault.put_pieces(out),
            SelectionFault::RepeatedAdapter(name) => put_named(out, "adapter `", name, "` twice"),
            SelectionFault::UnknownAdapter(name) => put_named(out, "no adapter `", name, "`"),
            SelectionFault::EmptyDirectory => out.put_piece("empty path of --out"),
            SelectionFault::FileName(name) => {
                put_named(out, "adapter `", name, "` is no file's name")
            }
            SelectionFault::MainFile(name) => {
                put_named(out, "adapter `", name, "` in the main module's file")
            }
        }
    }
}

/// Puts a name, between two texts about it.
fn put_named<P: Pieces>(out: &mut P, before: &str, name: &str, after: &str) -> Result<(), PutFailed>
    ensures { IsPut P.puts P.fails out.old out.new
        (quoted before.now name.now after.now) result }
{
    let text = &Text(name);
    TextBetween {
        before,
        text,
        after,
    }
    .put_pieces(out)
}

impl From<AllocError> for SelectionFault<'_> {
    ghost use Rattle.wcplan_inputs.specs.declared.fault.SelectionFault.TheVariants.{Memory};

    ghost from_gives = { λ _ e. e ≡ Memory };

    fn from(_e: AllocError) -> Self {
        SelectionFault::Memory
    }
}

impl<T: Drop> From<AllocFailed<T>> for SelectionFault<'_> {
    ghost use Rattle.wcplan_inputs.specs.declared.fault.SelectionFault.TheVariants.{Memory};

    ghost from_gives = { λ _ e. e ≡ Memory };

    fn from(_e: AllocFailed<T>) -> Self {
        SelectionFault::Memory
    }
}

impl<'a> From<RequestFault<'a>> for SelectionFault<'a> {
    ghost use Rattle.wcplan_inputs.specs.Fault.{of_request};

    ghost from_gives = { λ f e. e ≡ of_request f };

    fn from(e: RequestFault<'a>) -> SelectionFault<'a> {
        match e {
            RequestFault::Memory => SelectionFault::Memory,
            _ => SelectionFault::Request(e),
        }
    }
}

/// Why the program could not do what its arguments say. `run_command` says which of several causes is named; `Memory`
/// may come instead of any.
#[derive(Debug, Drop)]
pub enum ProgramFault<'a> {
    /// An allocation failed.
    Memory,
    /// The file of this path could not be read, and why.
    CannotRead(&'a str, FileProblem),
    /// The file of the worlds is not text. It carries what the file looks like, if that is known.
    NotText(Option<Likeness>),
    /// The file of the worlds is not JSON, or nests deeper than 128. It carries the offset in bytes of the first
    /// token that JSON can't have there, or of a trailing comma; if the text only ends early, its length; and what
    /// the file looks like, if that is known.
    NotJson(usize, Option<Likeness>),
    /// An object in the file of the worlds has two members with one name. It carries the path of the second; if
    /// several members repeat, of the first such in the order of the text.
    RepeatedMember(String),
    /// The worlds could not be read. It carries why, a value that is wrong.
    Json(JsonFault),
    /// It is ambiguous which world or which key is named, or a key or an adapter is repeated, or files can't have
    /// these names. It carries why, never `Memory`, nor that a world, an adapter or a key is unknown.
    Selection(SelectionFault<'a>),
    /// A key is to be exported by this adapter, but no adapter has its name. It carries the names of the adapters as
    /// a text, and the first of them that differs only in its version or in the case of letters.
    NoAdapter(&'a str, String, Option<String>),
    /// No world has this name; or no name is given, and no world includes all others. It carries the names of the
    /// worlds as a text.
    NoWorld(Option<&'a str>, String),
    /// The world has no export with this key. It carries what exports it has, as a text.
    NoExport(&'a str, String),
    /// The world has no import that this key requests. It carries the world's imports as a text, and the first of
    /// them that differs from the key only in its version or in the case of letters.
    NoImport(&'a str, String, Option<String>),
    /// The worlds are not well-formed. It carries why, never `Memory`, and the part that this is about.
    Resolve(Refused<ResolveFault, ExplainedPart>),
    /// The imports of the main module could not be renamed. It carries why, never `Memory`, and the offset at which
    /// its bytes are malformed.
    Dedupe(Refused<DedupeFault, ReadPlace>),
    /// No module can be found that exports a key. It carries why, never `Memory`.
    Exporter(ExporterFault),
    /// Modules can't be encoded for the world. It carries why, never `Memory`.
    Encoder(EncoderFault),
    /// The component has no world. It carries why, never `Memory` itself, and what this is about, which only a fault of
    /// trimming may lack.
    World(Refused<WorldFault, Explained>),
    /// The component's world has no plan. It carries why, never `Memory`, and the function that this is about.
    Plan(Refused<PlanFault, PlanPlace>),
    /// It can't be said why something is imported. It carries why, never `Memory`.
    Ways(GcFault),
    /// The directory of this path could not be made, and why.
    CannotMake(&'a str, FileProblem),
    /// The file of this path could not be written, and why.
    CannotWrite(String, FileProblem),
    /// The lines could not be printed.
    Output,
}

impl ProgramFault<'_> {
    /// The text of the fault, which the program prints in a line. It is a path after what could not be done with it,
    /// the text of a `SelectionFault`, or the name of a fault, `: `, and the text of the fault that it carries, as
    /// `Display` writes it. Texts from outside are escaped (`wc_texts::escaped`).
    ///
    /// # Errors
    ///
    /// `AllocError`: an allocation failed.
    pub fn text(&self, alloc: Global) -> Result<String, AllocError>
        ensures { IfOk result (λ text. string_bytes text ≡ program_fault_text self.now) }
    {
        match self {
            ProgramFault::Memory => String::from_str(alloc, OUT_OF_MEMORY),
            ProgramFault::CannotRead(path, problem) => {
                path_text(alloc, "cannot read ", path, *problem)
            }
            ProgramFault::NotText(_) => String::from_str(alloc, NOT_TEXT),
            ProgramFault::NotJson(at, _) => format!(in alloc; "Json: not JSON at byte {at}"),
            ProgramFault::RepeatedMember(path) => repeated_text(alloc, path),
            ProgramFault::Json(fault) => json_text(alloc, fault),
            ProgramFault::Selection(fault) => selection_text(alloc, fault),
            ProgramFault::NoAdapter(name, listing, _) => no_adapter_text(alloc, name, listing),
            ProgramFault::NoWorld(name, listing) => no_world_text(alloc, *name, listing),
            ProgramFault::NoExport(key, listing) => no_export_text(alloc, key, listing),
            ProgramFault::NoImport(key, listing, _) => no_import_text(alloc, key, listing),
            ProgramFault::Resolve(refused) => carried_text(alloc, "Resolve", &refused.fault),
            ProgramFault::Dedupe(refused) => carried_text(alloc, "Main module", &refused.fault),
            ProgramFault::Exporter(fault) => fault.text(alloc),
            ProgramFault::Encoder(fault) => carried_text(alloc, "Encoder", fault),
            ProgramFault::World(refused) => world_text(alloc, &refused.fault),
            ProgramFault::Plan(refused) => carried_text(alloc, "Plan", &refused.fault),
            ProgramFault::Ways(fault) => carried_text(alloc, "Ways", fault),
            ProgramFault::CannotMake(path, problem) => {
                path_text(alloc, "cannot make directory ", path, *problem)
            }
            ProgramFault::CannotWrite(path, problem) => {
                path_text(alloc, "cannot write ", path, *problem)
            }
            ProgramFault::Output => String::from_str(alloc, UNPRINTED),
        }
    }

    /// The text of the fault, if it is always the same; such a fault has no lines under it.
    pub fn fixed_text(&self) -> Option<&'static str>
        ensures whole { IfSome result (λ text. text.now
            ≡ program_fault_text self.now ++ fault_lines self.now) }
        ensures none { IfNone result (NeedsText self.now) }
    {
        match self {
            ProgramFault::Memory => Some(OUT_OF_MEMORY),
            ProgramFault::NotText(None) => Some(NOT_TEXT),
            ProgramFault::Output => Some(UNPRINTED),
            ProgramFault::CannotRead(_, _)
            | ProgramFault::NotText(Some(_))
            | ProgramFault::NotJson(_, _)
            | ProgramFault::RepeatedMember(_)
            | ProgramFault::Json(_)
            | ProgramFault::Selection(_)
            | ProgramFault::NoAdapter(_, _, _)
            | ProgramFault::NoWorld(_, _)
            | ProgramFault::NoExport(_, _)
            | ProgramFault::NoImport(_, _, _)
            | ProgramFault::Resolve(_)
            | ProgramFault::Dedupe(_)
            | ProgramFault::Exporter(_)
            | ProgramFault::Encoder(_)
            | ProgramFault::World(_)
            | ProgramFault::Plan(_)
            | ProgramFault::Ways(_)
            | ProgramFault::CannotMake(_, _)
            | ProgramFault::CannotWrite(_, _) => None,
        }
    }
}

/// The text of `NotText`.
const NOT_TEXT: &str = "Json: not UTF-8";

/// The text of the fault that printing failed.
pub const UNPRINTED: &str = "cannot print";

/// The text of a path that could not be used: what could not be done, the path, escaped, and why.
fn path_text(
    alloc: Global,
    undone: &str,
    path: &str,
    problem: FileProblem,
) -> Result<String, AllocError>
    ensures { IfOk result (λ text. string_bytes text
        ≡ undone.now ++ (escaped path.now ++ problem_text problem)) }
{
    let path = escaped(alloc, path)?;
    let problem = problem_text(problem);
    format!(in alloc; "{undone}{path}{problem}")
}

/// The text of a value in the worlds' text that is wrong; its path is escaped already.
fn json_text(alloc: Global, fault: &JsonFault) -> Result<String, AllocError>
    ensures { IfOk result (λ text. string_bytes text
        ≡ codes "Json: " ++ json_fault_text fault.now) }
{
    let problem = text_of(alloc, fault)?;
    format!(in alloc; "Json: {problem}")
}

/// The text of a repeated member: its path, escaped.
fn repeated_text(alloc: Global, place: &str) -> Result<String, AllocError>
    ensures { IfOk result (λ text. string_bytes text ≡ repeated_text place.now) }
{
    let place = escaped(alloc, place)?;
    format!(in alloc; "Json: {place}: repeated member")
}

/// Why a component has no world: the carried fault; or which adapter has pages of another size, and both sizes.
fn world_text(alloc: Global, fault: &WorldFault) -> Result<String, AllocError>
    ensures { IfOk result (λ text. string_bytes text ≡ world_text fault.now) }
{
    match fault {
        WorldFault::PageSize(name, own, main) => page_size_text(alloc, name, *own, *main),
        _ => carried_text(alloc, "World", fault),
    }
}

/// The text of an adapter whose memory has pages of another size than the main module's: both in bytes; escaped.
fn page_size_text(alloc: Global, name: &str, own: u64, main: u64) -> Result<String, AllocError>
    ensures { IfOk result (λ text. string_bytes text
        ≡ escaped (page_size_text name.now own main)) }
{
    let text = sizes_text(alloc, name, own, main)?;
    escaped(alloc, &text)
}

/// The text of such an adapter, as it is.
fn sizes_text(alloc: Global, name: &str, own: u64, main: u64) -> Result<String, AllocError>
    ensures { IfOk result (λ text. string_bytes text ≡ page_size_text name.now own main) }
{
    format!(in alloc; "World: PageSize `{name}`: page size {own}, main module's {main}")
}

/// The text of a fault, escaped.
fn selection_text(alloc: Global, fault: &SelectionFault<'_>) -> Result<String, AllocError>
    ensures { IfOk result (λ text. string_bytes text ≡ escaped (selection_fault_text fault.now)) }
{
    let about = text_of(alloc, fault)?;
    escaped(alloc, &about)
}

/// The text if no world is meant, by its name or without one, with the list of worlds; escaped.
fn no_world_text(alloc: Global, name: Option<&str>, listing: &str) -> Result<String, AllocError>
    ensures { IfOk result (λ text. string_bytes text
        ≡ escaped (no_world_text (option_map text_of name.entry) listing.now)) }
{
    let text = unmeant_text(alloc, name, listing)?;
    escaped(alloc, &text)
}

/// The text if no world is meant, as it is.
fn unmeant_text(alloc: Global, name: Option<&str>, listing: &str) -> Result<String, AllocError>
    ensures { IfOk result (λ text. string_bytes text
        ≡ no_world_text (option_map text_of name.entry) listing.now) }
{
    match name {
        Some(name) => format!(in alloc; "no world `{name}`; worlds:{listing}"),
        None => format!(in alloc; "missing WORLD; worlds:{listing}"),
    }
}

/// The text for a name that no adapter has, with the list of adapters; escaped.
fn no_adapter_text(alloc: Global, name: &str, listing: &str) -> Result<String, AllocError>
    ensures { IfOk result (λ text. string_bytes text
        ≡ escaped (no_adapter_text name.now listing.now)) }
{
    let text = format!(in alloc; "no adapter `{name}`; adapters:{listing}")?;
    escaped(alloc, &text)
}

/// The text for a key that no export has, with the list of exports; escaped.
fn no_export_text(alloc: Global, key: &str, listing: &str) -> Result<String, AllocError>
    ensures { IfOk result (λ text. string_bytes text
        ≡ escaped (no_export_text key.now listing.now)) }
{
    let text = format!(in alloc; "no export `{key}`; exports:{listing}")?;
    escaped(alloc, &text)
}

/// The text for a key that requests no import, with the list of imports; escaped.
fn no_import_text(alloc: Global, key: &str, listing: &str) -> Result<String, AllocError>
    ensures { IfOk result (λ text. string_bytes text
        ≡ escaped (no_import_text key.now listing.now)) }
{
    let text = format!(in alloc; "no import `{key}`; imports:{listing}")?;
    escaped(alloc, &text)
}

/// The name of a fault, `: `, and the text of the fault that it carries, escaped.
fn carried_text<F: FaultText>(alloc: Global, name: &str, fault: &F) -> Result<String, AllocError>
    ensures { IfOk result (λ text. string_bytes text
        ≡ carried_text name.now (escaped (F.text fault.now))) }
{
    let text = text_of(alloc, fault)?;
    let text = escaped(alloc, &text)?;
    format!(in alloc; "{name}: {text}")
}

impl From<AllocError> for ProgramFault<'_> {
    ghost use Rattle.wcplan_inputs.specs.declared.fault.ProgramFault.TheVariants.{Memory};

    ghost from_gives = { λ _ e. e ≡ Memory };

    fn from(_e: AllocError) -> Self {
        ProgramFault::Memory
    }
}

impl<T: Drop> From<AllocFailed<T>> for ProgramFault<'_> {
    ghost use Rattle.wcplan_inputs.specs.declared.fault.ProgramFault.TheVariants.{Memory};

    ghost from_gives = { λ _ e. e ≡ Memory };

    fn from(_e: AllocFailed<T>) -> Self {
        ProgramFault::Memory
    }
}

impl From<JsonFault> for ProgramFault<'_> {
    ghost use Rattle.wcplan_inputs.specs.Fault.{of_json};

    ghost from_gives = { λ f e. e ≡ of_json f };

    fn from(e: JsonFault) -> Self {
        match e {
            JsonFault::Memory => ProgramFault::Memory,
            _ => ProgramFault::Json(e),
        }
    }
}

impl<'a> From<SelectionFault<'a>> for ProgramFault<'a> {
    ghost use Rattle.wcplan_inputs.specs.Fault.{of_selection};

    ghost from_gives = { λ f e. e ≡ of_selection f };

    fn from(e: SelectionFault<'a>) -> ProgramFault<'a> {
        match e {
            SelectionFault::Memory => ProgramFault::Memory,
            _ => ProgramFault::Selection(e),
        }
    }
}

impl<'a> From<RequestFault<'a>> for ProgramFault<'a> {
    ghost use Rattle.wcplan_inputs.specs.Fault.{of_request, of_selection};

    ghost from_gives = { λ f e. e ≡ of_selection (of_request f) };

    fn from(e: RequestFault<'a>) -> ProgramFault<'a> {
        ProgramFault::from(SelectionFault::from(e))
    }
}

impl From<ExporterFault> for ProgramFault<'_> {
    ghost use Rattle.wcplan_inputs.specs.Fault.{of_exporter};

    ghost from_gives = { λ f e. e ≡ of_exporter f };

    fn from(e: ExporterFault) -> Self {
        match e {
            ExporterFault::Memory => ProgramFault::Memory,
            _ => ProgramFault::Exporter(e),
        }
    }
}

impl From<EncoderFault> for ProgramFault<'_> {
    ghost use Rattle.wcplan_inputs.specs.Fault.{of_encoder};

    ghost from_gives = { λ f e. e ≡ of_encoder f };

    fn from(e: EncoderFault) -> Self {
        match e {
            EncoderFault::Memory => ProgramFault::Memory,
            _ => ProgramFault::Encoder(e),
        }
    }
}

impl From<GcFault> for ProgramFault<'_> {
    ghost use Rattle.wcplan_inputs.specs.Fault.{of_gc};

    ghost from_gives = { λ f e. e ≡ of_gc f };

    fn from(e: GcFault) -> Self {
        match e {
            GcFault::Memory => ProgramFault::Memory,
            _ => ProgramFault::Ways(e),
        }
    }
}
