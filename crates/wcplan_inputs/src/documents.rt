//! Files that are read: their bytes, and the worlds in one.

ghost use Rattle.std.specs.Prelude.{◌≡◌, IfErr, IfOk, None, Some};
ghost use Rattle.std.specs.Option.{option_map};
ghost use Rattle.json.specs.Json.{document};
ghost use Rattle.wc_json.specs.Document.{IsDocument, document_view};
ghost use Rattle.wc_maps.specs.Texts.{text_of};
ghost use Rattle.wc_program.specs.Files.{FailsToRead};
ghost use Rattle.wcplan_inputs.specs.Arguments.{command_view};
ghost use Rattle.wcplan_inputs.specs.Inputs.{IsInputCause, AreWorldsIn, HoldsInput, IsNotJson, IsReadFault, IsRepeatedMember, IsTextCause, input_path};
ghost use Rattle.wcplan_inputs.specs.ModuleKeys.{IsMeant};
ghost use Rattle.wcplan_inputs.specs.Private.Causes.{AreWorldsOf, IsMeaningCause, IsUnknownWorld, IsUnselected, IsWorldsCause};

use crate::arguments::Command;
use crate::explained_part::resolve_fault;
use crate::fault::ProgramFault;
use crate::listing::world_listing;
use std::alloc::{AllocError, Global};
use wc_encoder::Metadata;
use wc_json::{Document, JsonFault, document_from_json, json_end, looks_like, repeated_member};
use wc_maps::Seed;
use wc_options::is_standard;
use wc_program::{FileProblem, FileStore};
use wc_resolve::{Resolve, WorldId};
use wc_selection::{RequestFault, select_world, whole_world};

/// The worlds of a command, from their file, and the one that it means. `seed`: the seed of their maps.
pub(crate) fn read_worlds<'a, F: FileStore>(
    alloc: Global,
    seed: Seed,
    command: &Command<'a>,
    files: &F,
) -> Result<Metadata, ProgramFault<'a>>
    ensures worlds { IfOk result (λ m. AreWorldsIn (command_view command.now) (F.held files.now)
        m.resolve m.world.0) }
    ensures fault { IfErr result (IsInputCause (command_view command.now) (F.held files.now)
        (FailsToRead F.read_fails files.now)) }
{
    let bytes = read_file(command.worlds, files)?;
    match str::from_utf8(&bytes) {
        Ok(text) => worlds_in(alloc, seed, command, text),
        Err(_) => Err(ProgramFault::NotText(looks_like(&bytes))),
    }
}

/// The worlds in a text, and the one that a command means. `seed`: the seed of their maps.
fn worlds_in<'a>(
    alloc: Global,
    seed: Seed,
    command: &Command<'a>,
    text: &str,
) -> Result<Metadata, ProgramFault<'a>>
    ensures worlds { IfOk result (λ m. AreWorldsOf (command_view command.now)
        (document text.now) m.resolve m.world.0) }
    ensures fault { IfErr result (IsWorldsCause (command_view command.now) text.now) }
{
    let document = document_in(alloc, seed, text)?;
    let world = meant_world(alloc, &document, command.world)?;
    match Resolve::build_explained(alloc, document.parts) {
        Ok(resolve) => Ok(Metadata { resolve, world }),
        Err(refused) => Err(resolve_fault(alloc, refused)),
    }
}

/// The world of this name; without one the one of which all others are parts.
fn meant_world<'a>(
    alloc: Global,
    document: &Document,
    name: Option<&'a str>,
) -> Result<WorldId, ProgramFault<'a>>
    ensures meant { IfOk result (λ id. IsMeant (document_view document.now)
        (option_map text_of name.entry) id.0) }
    ensures fault { IfErr result (IsMeaningCause (document_view document.now)
        (option_map text_of name.entry)) }
{
    match name {
        Some(name) => named_world(alloc, document, name),
        None => unnamed_world(alloc, document),
    }
}

/// The world of which all others are parts.
fn unnamed_world<'a>(alloc: Global, document: &Document) -> Result<WorldId, ProgramFault<'a>>
    ensures meant { IfOk result (λ id. IsMeant (document_view document.now) None id.0) }
    ensures fault { IfErr result (IsMeaningCause (document_view document.now) None) }
{
    match whole_world(document) {
        Some(world) => Ok(world),
        None => Err(no_world(alloc, document, None)),
    }
}

/// The world of this name.
fn named_world<'a>(
    alloc: Global,
    document: &Document,
    name: &'a str,
) -> Result<WorldId, ProgramFault<'a>>
    ensures meant { IfOk result (λ id. IsMeant (document_view document.now)
        (Some name.entry.now) id.0) }
    ensures fault { IfErr result (IsMeaningCause (document_view document.now)
        (Some name.entry.now)) }
{
    match select_world(alloc, document, name) {
        Ok(world) => Ok(world),
        Err(fault) => Err(unselected(alloc, document, name, fault)),
    }
}

/// The fault of the program where no world is selected; where none has the name, that of `no_world`.
fn unselected<'a>(
    alloc: Global,
    document: &Document,
    name: &'a str,
    fault: RequestFault<'a>,
) -> ProgramFault<'a>
    ensures { IsUnselected (document_view document.now) name.entry.now fault.entry result }
{
    match fault {
        RequestFault::UnknownWorld(_) => no_world(alloc, document, Some(name)),
        RequestFault::Memory
        | RequestFault::PackageRange
        | RequestFault::SeveralWorlds(_)
        | RequestFault::UnknownKey(_)
        | RequestFault::SeveralKeys(_)
        | RequestFault::RepeatedKey(_) => ProgramFault::from(fault),
    }
}

/// The fault where no world is meant, with what worlds there are.
fn no_world<'a>(alloc: Global, document: &Document, name: Option<&'a str>) -> ProgramFault<'a>
    ensures { IsUnknownWorld (document_view document.now) (option_map text_of name.entry) result }
{
    match world_listing(alloc, document) {
        Ok(listing) => ProgramFault::NoWorld(name, listing),
        Err(AllocError) => ProgramFault::Memory,
    }
}

/// The worlds in a text. `seed`: the seed of their maps.
fn document_in<'a>(alloc: Global, seed: Seed, text: &str) -> Result<Document, ProgramFault<'a>>
    ensures document { IfOk result (λ d. IsDocument (document text.now) d) }
    ensures fault { IfErr result (IsTextCause text.now) }
{
    match document_from_json(alloc, seed, text) {
        Ok(document) => Ok(document),
        Err(JsonFault::Memory) => Err(ProgramFault::Memory),
        Err(JsonFault::NotJson) => Err(not_json(alloc, text)),
        Err(JsonFault::RepeatedMember) => Err(repeated(alloc, seed, text)),
        Err(JsonFault::Wrong { path, problem }) => {
            Err(ProgramFault::Json(JsonFault::Wrong { path, problem }))
        }
    }
}

/// The fault of a text that is not JSON.
fn not_json<'a>(alloc: Global, text: &str) -> ProgramFault<'a>
    ensures { IsNotJson text.now result }
{
    match json_end(alloc, text) {
        Ok(at) => ProgramFault::NotJson(at, looks_like(text.as_bytes())),
        Err(AllocError) => ProgramFault::Memory,
    }
}

/// The fault of a text in which an object has a member twice. `seed`: the seed of the sets of names.
fn repeated<'a>(alloc: Global, seed: Seed, text: &str) -> ProgramFault<'a>
    ensures { IsRepeatedMember text.now result }
{
    match repeated_member(alloc, seed, text) {
        Ok(path) => ProgramFault::RepeatedMember(path),
        Err(AllocError) => ProgramFault::Memory,
    }
}

/// The bytes of the file of this path; those of standard input, if the path is `-`.
pub(crate) fn read_file<'a, F: FileStore>(
    path: &'a str,
    files: &F,
) -> Result<Vec<u8>, ProgramFault<'a>>
    ensures read { IfOk result (λ v. HoldsInput (F.held files.now) path.now v.items) }
    ensures fault { IfErr result (IsReadFault path.now (FailsToRead F.read_fails files.now)) }
{
    match wc_program::read_file(files, input_path(path)) {
        Ok(bytes) => Ok(bytes),
        Err(FileProblem::Memory) => Err(ProgramFault::Memory),
        Err(problem) => Err(ProgramFault::CannotRead(path, problem)),
    }
}

/// The path of the file that is read: `-` stands for standard input.
fn input_path(path: &str) -> &str
    ensures { result.now ≡ input_path path.now }
{
    if is_standard(path) {
        "/dev/stdin"
    } else {
        path
    }
}
