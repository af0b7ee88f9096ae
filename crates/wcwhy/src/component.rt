//! The text that is printed of a component's file, by its core modules.

ghost use Rattle.std.specs.Prelude.{◌≡◌, ◌<◌, ◌↔◌, ◌++◌, ◌∷◌, [], ℕ, IfErr, IfNone, IfOk, IfSome, IsTrue, OnOk, length, map};
ghost use Rattle.std.specs.Option.{option_map, option_to_list};
ghost use Rattle.wc_component_file.specs.Files.{SpellsFile, core_module_view, file_view};
ghost use Rattle.wc_component_file.specs.Roles.{AreRoles, IsRolesRefusal};
ghost use Rattle.wc_component_file.specs.Told.{role_view};
ghost use Rattle.wc_gc.specs.declared.trim_place.TrimPlace.TheVariants.{Bytes};
ghost use Rattle.wc_module_ways.specs.CoreModules.{core_given};
ghost use Rattle.wc_module_ways.specs.Refusals.{moved};
ghost use Rattle.wc_module_ways.specs.declared.core_module.CoreKind.TheVariants.{Other};
ghost use Rattle.wc_program.specs.Screen.{Becomes, output_ends};
ghost use Rattle.wcwhy.specs.Arguments.{command_view};
ghost use Rattle.wcwhy.specs.Component.{AreParts, IsComponentCause, IsComponentText, IsFileText, core_name, input_with, part_with, parts_of};
ghost use Rattle.wcwhy.specs.ModuleWays.{ArePrinted, IsModulesCause};
ghost use Rattle.wcwhy.specs.Private.Component.{IsMainAt, IsFileFault, IsFilePrintCause, IsIndexedCause, IsModulesText, IsReadFaultOf, IsUnclearFault, IsUnreadFault, is_main, of_file, of_index, of_main, of_missing, part_view};
ghost use Rattle.wcwhy.specs.Private.Execution.{PrintsSome};
ghost use Rattle.wcwhy.specs.Private.Inputs.{allow_in};
ghost use Rattle.wcwhy.specs.Private.Warnings.{said_view};

use crate::arguments::Command;
use crate::fault::WhyFault;
use crate::inputs::Request;
use crate::module_ways::{core_fault, print_given};
use crate::warnings::{Said, with_inside};
use std::alloc::{AllocError, Global};
use wc_component_file::{
    ComponentFile, CoreModule, FileFault, FileRefusal, Role, RolesRefusal, modules_listing,
    read_component, roles_of,
};
use wc_gc::{GcFault, TrimPlace};
use wc_module_ways::{CoreInput, CoreKind, ModulesInput};
use wc_program::Output;
use wc_read::{ReadFault, ReadPlace};

/// Prints the paths through the core modules of the component's file with these bytes to the imports that a command
/// asks for. The result is what is said besides.
pub(crate) fn print_component<'a, O: Output>(
    alloc: Global,
    request: &Request<'_, 'a>,
    bytes: &[u8],
    out: &mut O,
) -> Result<Said, WhyFault<'a>>
    ensures done { IfOk result (λ said. PrintsSome (IsComponentText
        (command_view request.now.command.now) bytes.now (allow_in request.now) (said_view said))
        (Becomes (output_ends O.written O.sent O.is_failed) out.old out.new)) }
    ensures fault { IfErr result (IsComponentCause (command_view request.now.command.now) bytes.now
        (Becomes (output_ends O.written O.sent O.is_failed) out.old out.new)) }
{
    match component_file(alloc, bytes) {
        Ok(file) => print_file(alloc, request, &file, out),
        Err(fault) => Err(fault),
    }
}

/// The component's file with these bytes.
pub(crate) fn component_file<'a, 'r>(
    alloc: Global,
    bytes: &'r [u8],
) -> Result<ComponentFile<'r>, WhyFault<'a>>
    ensures found { IfOk result (λ f. SpellsFile bytes.now (file_view f)) }
    ensures fault { IfErr result (IsUnreadFault bytes.now) }
{
    match read_component(alloc, bytes) {
        Ok(file) => Ok(file),
        Err(refusal) => Err(file_fault(refusal)),
    }
}

/// The fault for a component's file that can't be read.
fn file_fault<'a>(refusal: FileRefusal) -> WhyFault<'a>
    ensures { result ≡ of_file refusal.fault refusal.byte }
{
    let FileRefusal { fault, byte } = refusal;
    match fault {
        FileFault::Memory => WhyFault::Memory,
        FileFault::Version(_) | FileFault::Read(_) => WhyFault::File(fault, byte),
    }
}

/// Prints the paths through the core modules of a component's file.
fn print_file<'a, O: Output>(
    alloc: Global,
    request: &Request<'_, 'a>,
    file: &ComponentFile<'_>,
    out: &mut O,
) -> Result<Said, WhyFault<'a>>
    ensures done { IfOk result (λ said. PrintsSome (IsFileText
        (command_view request.now.command.now) (file_view file.now) (allow_in request.now)
        (said_view said))
        (Becomes (output_ends O.written O.sent O.is_failed) out.old out.new)) }
    ensures fault { IfErr result (IsFilePrintCause (command_view request.now.command.now)
        (file_view file.now)
        (Becomes (output_ends O.written O.sent O.is_failed) out.old out.new)) }
{
    match roles_of(alloc, request.seed, file, request.command.core) {
        Ok(roles) => print_told(alloc, request, file, &roles, out),
        Err(refusal) => Err(roles_fault(alloc, request.command, file, refusal)),
    }
}

/// The fault for a component's file of which it can't be told which core module is which, or of which one can't be
/// read.
fn roles_fault<'a>(
    alloc: Global,
    command: &Command<'_>,
    file: &ComponentFile<'_>,
    refusal: RolesRefusal,
) -> WhyFault<'a>
    requires { IsRolesRefusal (file_view file.now) command.now.core refusal }
    ensures { IsFileFault (command_view command.now) (file_view file.now) result }
{
    match refusal {
        RolesRefusal::Memory => WhyFault::Memory,
        RolesRefusal::NoModule => WhyFault::NoModule(file.inside),
        RolesRefusal::NoSuchModule => missing_module(file, command.core.unwrap_or(0)),
        RolesRefusal::Unread {
            module: index,
            fault,
            place,
        } => unread(file, index, fault, place),
        RolesRefusal::Unclear => unclear(alloc, file),
    }
}

/// The fault for a component that has no core module of this index.
pub(crate) fn missing_module<'a>(file: &ComponentFile<'_>, asked: usize) -> WhyFault<'a>
    ensures { result ≡ of_missing (file_view file.now) asked }
{
    if file.modules.is_empty() {
        return WhyFault::NoModule(file.inside);
    }
    WhyFault::NoSuchModule {
        asked,
        count: file.modules.len(),
    }
}

/// The fault for the core module of this index, whose bytes stop at this place of it to be a module.
fn unread<'a>(
    file: &ComponentFile<'_>,
    index: usize,
    fault: ReadFault,
    place: Option<ReadPlace>,
) -> WhyFault<'a>
    requires { index < length file.now.modules.items }
    ensures { IsReadFaultOf (file_view file.now) index fault place result }
{
    let offset = file.modules[index].offset;
    core_fault(index, GcFault::Read(fault), moved(offset, place))
}

/// A place in a module that begins at this byte of a file, as a place in the file.
fn moved(offset: usize, place: Option<ReadPlace>) -> Option<TrimPlace>
    ensures { result ≡ moved offset (option_map Bytes place) }
{
    match place {
        Some(place) => Some(TrimPlace::Bytes(ReadPlace {
            offset: offset.saturating_add(place.offset),
            section: place.section,
        })),
        None => None,
    }
}

/// The fault for a component of which it can't be told which core module is which, with what there are.
fn unclear<'a>(alloc: Global, file: &ComponentFile<'_>) -> WhyFault<'a>
    ensures { IsUnclearFault (file_view file.now) result }
{
    match modules_listing(alloc, file) {
        Ok(listing) => WhyFault::Unclear(listing),
        Err(AllocError) => WhyFault::Memory,
    }
}

/// Prints the paths through the core modules of a component's file, which have these roles.
fn print_told<'a, O: Output>(
    alloc: Global,
    request: &Request<'_, 'a>,
    file: &ComponentFile<'_>,
    roles: &[Role<'_>],
    out: &mut O,
) -> Result<Said, WhyFault<'a>>
    requires { AreRoles (file_view file.now) request.now.command.now.core
        (map role_view roles.now) }
    ensures done { IfOk result (λ said. PrintsSome (IsFileText
        (command_view request.now.command.now) (file_view file.now) (allow_in request.now)
        (said_view said))
        (Becomes (output_ends O.written O.sent O.is_failed) out.old out.new)) }
    ensures fault { IfErr result (IsFilePrintCause (command_view request.now.command.now)
        (file_view file.now)
        (Becomes (output_ends O.written O.sent O.is_failed) out.old out.new)) }
{
    match print_roles(alloc, request, file, roles, out) {
        Ok(said) => Ok(with_inside(alloc, file.inside, said)?),
        Err(fault) => Err(fault),
    }
}

/// Prints the paths through the core modules of a component's file, which have these roles. The result is what is said
/// besides, but of components inside it.
fn print_roles<'a, O: Output>(
    alloc: Global,
    request: &Request<'_, 'a>,
    file: &ComponentFile<'_>,
    roles: &[Role<'_>],
    out: &mut O,
) -> Result<Said, WhyFault<'a>>
    requires { AreRoles (file_view file.now) request.now.command.now.core
        (map role_view roles.now) }
    ensures done { IfOk result (λ said. PrintsSome (IsModulesText
        (command_view request.now.command.now) (file_view file.now) (allow_in request.now)
        (said_view said))
        (Becomes (output_ends O.written O.sent O.is_failed) out.old out.new)) }
    ensures fault { IfErr result (IsFilePrintCause (command_view request.now.command.now)
        (file_view file.now)
        (Becomes (output_ends O.written O.sent O.is_failed) out.old out.new)) }
{
    match main_index(roles) {
        Some(index) => match core_parts(alloc, file, roles) {
            Ok(parts) => print_parts(alloc, request, (index, file.modules[index]), &parts, out),
            Err(AllocError) => Err(WhyFault::Memory),
        },
        None => Err(WhyFault::NoModule(file.inside)),
    }
}

/// Prints the paths through the main module, which has this index, and these parts.
fn print_parts<'a, O: Output>(
    alloc: Global,
    request: &Request<'_, 'a>,
    main: (usize, CoreModule<'_>),
    parts: &[CorePart<'_>],
    out: &mut O,
) -> Result<Said, WhyFault<'a>>
    ensures done { IfOk result (λ said. PrintsSome (ArePrinted
        (command_view request.now.command.now) (input_with
        (command_view request.now.command.now) (core_module_view main.entry.1)
        (map part_view parts.now)) (allow_in request.now) (said_view said))
        (Becomes (output_ends O.written O.sent O.is_failed) out.old out.new)) }
    ensures fault { IfErr result (IsIndexedCause (command_view request.now.command.now) (input_with
        (command_view request.now.command.now) (core_module_view main.entry.1)
        (map part_view parts.now)) main.entry.0
        (Becomes (output_ends O.written O.sent O.is_failed) out.old out.new)) }
{
    match core_inputs(alloc, parts) {
        Ok(core) => print_indexed(alloc, request, main, &core, out),
        Err(AllocError) => Err(WhyFault::Memory),
    }
}

/// Prints the paths through the main module, which has this index, and these core modules.
fn print_indexed<'a, O: Output>(
    alloc: Global,
    request: &Request<'_, 'a>,
    main: (usize, CoreModule<'_>),
    core: &[CoreInput<'_>],
    out: &mut O,
) -> Result<Said, WhyFault<'a>>
    ensures done { IfOk result (λ said. PrintsSome (ArePrinted
        (command_view request.now.command.now) (input_with
        (command_view request.now.command.now) (core_module_view main.entry.1)
        (map core_given core.now)) (allow_in request.now) (said_view said))
        (Becomes (output_ends O.written O.sent O.is_failed) out.old out.new)) }
    ensures fault { IfErr result (IsIndexedCause (command_view request.now.command.now) (input_with
        (command_view request.now.command.now) (core_module_view main.entry.1)
        (map core_given core.now)) main.entry.0
        (Becomes (output_ends O.written O.sent O.is_failed) out.old out.new)) }
{
    match print_inputs(alloc, request, main.1, core, out) {
        Ok(said) => Ok(said),
        Err(fault) => Err(of_index(main.0, fault)),
    }
}

/// Prints the paths through this main module, and these core modules.
fn print_inputs<'x, 'a, O: Output>(
    alloc: Global,
    request: &'x Request<'x, 'a>,
    main: CoreModule<'x>,
    core: &'x [CoreInput<'x>],
    out: &mut O,
) -> Result<Said, WhyFault<'a>>
    ensures done { IfOk result (λ said. PrintsSome (ArePrinted
        (command_view request.now.command.now) (input_with
        (command_view request.now.command.now) (core_module_view main.entry)
        (map core_given core.now)) (allow_in request.now) (said_view said))
        (Becomes (output_ends O.written O.sent O.is_failed) out.old out.new)) }
    ensures fault { IfErr result (IsModulesCause (command_view request.now.command.now) (input_with
        (command_view request.now.command.now) (core_module_view main.entry)
        (map core_given core.now))
        (Becomes (output_ends O.written O.sent O.is_failed) out.old out.new)) }
{
    let adapters = Vec::new(alloc);
    let adapter_exports = Vec::new(alloc);
    let given = ModulesInput {
        main: main.bytes,
        main_offset: main.offset,
        exports: &request.command.exports,
        adapters: &adapters,
        core,
        adapter_exports: &adapter_exports,
        is_whole: !request.command.functions.is_empty(),
    };
    print_given(alloc, request, &given, out)
}

/// A fault of the modules of a component's file, whose main module has this index: it is named by that where it can't
/// be followed, but for an export that is not there.
fn of_index<'a>(main: usize, fault: WhyFault<'a>) -> WhyFault<'a>
    ensures { result ≡ of_index main fault.entry }
{
    match fault {
        WhyFault::Source(fault, place, near) => of_main(main, fault, place, near),
        fault => fault,
    }
}

/// The fault for the main module, which has this index: that it lacks an export, or that it can't be followed.
fn of_main<'a>(
    main: usize,
    fault: GcFault,
    place: Option<TrimPlace>,
    near: Option<String>,
) -> WhyFault<'a>
    ensures { result ≡ of_main main fault place near }
{
    match fault {
        GcFault::MissingExport(name) => {
            WhyFault::Source(GcFault::MissingExport(name), place, near)
        }
        fault => core_fault(main, fault, place),
    }
}

/// The index of the main module.
fn main_index(roles: &[Role<'_>]) -> Option<usize>
    ensures found { IfSome result (IsMainAt (map role_view roles.now)) }
    ensures none { IfNone result ((k : ℕ) → ¬ IsMainAt (map role_view roles.now) k) }
{
    for index in 0..roles.len() {
        if is_main_at(roles, index) {
            return Some(index);
        }
    }
    None
}

/// Whether the module of an index is the main one.
fn is_main_at(roles: &[Role<'_>], index: usize) -> bool
    ensures { IsTrue result ↔ IsMainAt (map role_view roles.now) index }
{
    match roles.get(index) {
        Some(role) => is_main(*role),
        None => false,
    }
}

/// Whether a module is the main one.
fn is_main(role: Role<'_>) -> bool
    ensures { result ≡ is_main (role_view role.entry) }
{
    matches!(role, Role::Main)
}

/// A core module that is a part of a component besides the main module.
#[derive(Drop)]
struct CorePart<'r> {
    /// Its index among the core modules.
    index: usize,
    /// Its name as a part.
    name: String,
    /// Its kind.
    kind: CoreKind,
    /// The module.
    module: CoreModule<'r>,
}

/// The core modules that are parts besides the main module, in order.
fn core_parts<'r>(
    alloc: Global,
    file: &ComponentFile<'r>,
    roles: &[Role<'_>],
) -> Result<Vec<CorePart<'r>>, AllocError>
    requires { length roles.now ≡ length file.now.modules.items }
    ensures { IfOk result (λ v. AreParts (file_view file.now) (map role_view roles.now)
        (map part_view v.items)) }
{
    let mut parts = Vec::new(alloc);
    for index in 0..roles.len() {
        push_part(
            alloc,
            (index, file.modules[index]),
            roles[index],
            &mut parts,
        )?;
    }
    Ok(parts)
}

/// Appends the core module of an index, if it is a part besides the main module.
fn push_part<'r>(
    alloc: Global,
    indexed: (usize, CoreModule<'r>),
    role: Role<'_>,
    parts: &mut Vec<CorePart<'r>>,
) -> Result<(), AllocError>
    ensures { OnOk result (map part_view parts.new.items ≡ map part_view parts.old.items
        ++ parts_of indexed.entry.0 (core_module_view indexed.entry.1) (role_view role.entry)) }
{
    match part_of(alloc, indexed, role)? {
        Some(part) => {
            parts.push(part)?;
            Ok(())
        }
        None => Ok(()),
    }
}

/// The core module of an index, if it is a part besides the main module.
fn part_of<'r>(
    alloc: Global,
    indexed: (usize, CoreModule<'r>),
    role: Role<'_>,
) -> Result<Option<CorePart<'r>>, AllocError>
    ensures { IfOk result (λ o. option_to_list (option_map part_view o)
        ≡ parts_of indexed.entry.0 (core_module_view indexed.entry.1) (role_view role.entry)) }
{
    match role {
        Role::Adapter(name) => named_part(alloc, indexed, CoreKind::Adapter, name),
        Role::Library(name) => named_part(alloc, indexed, CoreKind::Library, name),
        Role::Other => other_part(alloc, indexed),
        Role::Main | Role::Shim | Role::Fixup => Ok(None),
    }
}

/// The core module of an index as a part of this kind and name.
fn named_part<'r>(
    alloc: Global,
    indexed: (usize, CoreModule<'r>),
    kind: CoreKind,
    name: &str,
) -> Result<Option<CorePart<'r>>, AllocError>
    ensures { IfOk result (λ o. option_to_list (option_map part_view o)
        ≡ part_with indexed.entry.0 (core_module_view indexed.entry.1) name.now kind ∷ []) }
{
    let (index, module) = indexed;
    let name = String::from_str(alloc, name)?;
    Ok(Some(CorePart {
        index,
        name,
        kind,
        module,
    }))
}

/// The core module of an index as a part that serves no name and has none.
fn other_part<'r>(
    alloc: Global,
    indexed: (usize, CoreModule<'r>),
) -> Result<Option<CorePart<'r>>, AllocError>
    ensures { IfOk result (λ o. option_to_list (option_map part_view o)
        ≡ part_with indexed.entry.0 (core_module_view indexed.entry.1)
        (core_name indexed.entry.0) Other ∷ []) }
{
    let index = indexed.0;
    let name = format!(in alloc; "core-{index}")?;
    named_part(alloc, indexed, CoreKind::Other, &name)
}

/// These parts, as modules are given.
fn core_inputs<'p>(
    alloc: Global,
    parts: &'p [CorePart<'_>],
) -> Result<Vec<CoreInput<'p>>, AllocError>
    ensures { IfOk result (λ v. map core_given v.items ≡ map part_view parts.now) }
{
    let mut inputs = Vec::new(alloc);
    for part in parts {
        inputs.push(CoreInput {
            name: &part.name,
            kind: part.kind,
            bytes: part.module.bytes,
            offset: part.module.offset,
            index: part.index,
        })?;
    }
    Ok(inputs)
}
