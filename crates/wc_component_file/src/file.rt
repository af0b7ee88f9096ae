//! The file of a component.

ghost use Rattle.std.specs.Prelude.{◌≡◌, ◌≢◌, ◌↔◌, IsTrue, IfOk, IfErr, [], map};
ghost use Rattle.wc_component_file.specs.Headers.{BeginsAsComponent};
ghost use Rattle.wc_component_file.specs.Files.{SpellsFile, core_module_view, file_view, modules_of};
ghost use Rattle.wc_component_file.specs.Frames.{frame_values};
ghost use Rattle.wc_component_file.specs.Private.Names.{AreNamed, IsNamed, name_pairs};
ghost use Rattle.wc_component_file.specs.Refusals.{IsFileRefusal};
ghost use Rattle.wc_component_file.specs.declared.fault.FileFault.TheVariants.{Memory};
ghost use Rattle.wc_read.specs.Fault.{SpellsNothing};

use crate::fault::FileRefusal;
use crate::frames::{CORE_MODULE_ID, Frame, frames};
use crate::headers::header_of;
use crate::inside::count_inside;
use crate::names::{ModuleName, module_names};
use std::alloc::{AllocError, Global};

/// A core module in a component's file.
#[derive(Clone, Copy, Debug, PartialEq, Eq)]
pub struct CoreModule<'a> {
    /// Where its first byte lies in the file.
    pub offset: usize,
    /// All of its bytes.
    pub bytes: &'a [u8],
    /// Its name, where the file gives one.
    pub name: Option<&'a str>,
}

/// A component's file.
#[derive(Debug, PartialEq, Eq, Drop)]
pub struct ComponentFile<'a> {
    /// Its core modules, in order. Those of components inside it are not among them.
    pub modules: Vec<CoreModule<'a>>,
    /// How many components directly inside it have core modules, at any depth.
    pub inside: usize,
}

/// Whether the bytes begin as a component does, of any version.
pub fn is_component(bytes: &[u8]) -> bool
    ensures { IsTrue result ↔ BeginsAsComponent bytes.now }
{
    header_of(bytes).is_some()
}

/// Reads a component's file: cuts it into sections (Component Model, binary format), and takes those that are core
/// modules, with the names that `component-name` sections give.
///
/// A fault in names refuses nothing. It ends the names of its section; names before it stay. Of several names of a core
/// module the last counts. Components inside are looked through for core modules alone; one of whose bytes spell no
/// component, at any depth, has none.
///
/// # Errors
///
/// - `Read(NotWasm)`: the bytes do not begin as a component does.
/// - `Version`: they begin as a component of another version than 13.
/// - `Read(Truncated)`: they end inside a section.
/// - `Read(BadNumber)`: the size of a section is not a u32 in LEB128.
/// - `Read(UnknownSection)`: the id of a section is above 12.
/// - `Memory`: an allocation failed.
pub fn read_component(alloc: Global, bytes: &[u8]) -> Result<ComponentFile<'_>, FileRefusal>
    // What is read is spelled so, by all of the bytes.
    ensures found { IfOk result (λ f. SpellsFile bytes.now (file_view f)) }
    // Unless memory runs out, what is spelled is read.
    ensures refused { IfErr result (λ r. r.fault ≢ Memory → SpellsNothing SpellsFile bytes.now) }
    ensures place { IfErr result (IsFileRefusal bytes.now) }
{
    let frames = frames(alloc, bytes)?;
    let names = module_names(alloc, &frames)?;
    let mut modules = core_modules(alloc, &frames)?;
    name_modules(&mut modules, &names);
    let inside = count_inside(alloc, &frames)?;
    Ok(ComponentFile { modules, inside })
}

/// The core modules among sections, without their names.
fn core_modules<'a>(alloc: Global, frames: &[Frame<'a>]) -> Result<Vec<CoreModule<'a>>, AllocError>
    ensures { IfOk result (λ v. map core_module_view v.items
        ≡ modules_of [] (frame_values frames.now)) }
{
    let mut modules = Vec::new(alloc);
    for frame in frames {
        if frame.section.id == CORE_MODULE_ID {
            modules.push(CoreModule {
                offset: frame.offset,
                bytes: frame.section.content,
                name: None,
            })?;
        }
    }
    Ok(modules)
}

/// Gives core modules their names, of which the last counts.
fn name_modules<'a>(modules: &mut [CoreModule<'a>], names: &[ModuleName<'a>])
    ensures { AreNamed modules.old modules.new (name_pairs names.now) }
{
    for named in names {
        name_module(modules, *named);
    }
}

/// Gives the core module of an index its name.
fn name_module<'a>(modules: &mut [CoreModule<'a>], named: ModuleName<'a>)
    ensures { IsNamed modules.old modules.new (named.entry.index, named.entry.name.now) }
{
    let index = named.index as usize;
    if index < modules.len() {
        modules[index].name = Some(named.name);
    }
}
