//! Names of functions and of globals, out of name sections.

ghost use Rattle.std.specs.Prelude.{◌≡◌, ◌↔◌, ℕ, IfOk, IfErr, IsErrOf, nat_eq};
ghost use Rattle.std.specs.List.{list_any};
ghost use Rattle.std.specs.Map.{keys_of};
ghost use Rattle.wc_read.specs.Fault.{IfRefused, SpellsNothing};
ghost use Rattle.wc_read.specs.Names.{GlobalNameValue, NamesUnder, AllNamesUnder, name_entries};
ghost use Rattle.wc_read.specs.Reading.Names.{global_name_value, global_name_at, PairsOf, AreNamesUnder, AreGlobalNames, AreFunctionNames, AreFunctionNamesAt, AreNamesAt, named_pairs};
ghost use Rattle.wc_read.specs.Sections.{section_values, SpellsFrames, IsComponent};

use crate::custom::content_after_name;
use crate::fault::ReadFault;
use crate::framing::frames;
use crate::reader::{Reader, Spelled};
use crate::sections::Section;
use std::alloc::{AllocError, Global};
use wc_maps::OrderedMap;

/// The subsection of names of functions.
const FUNCTION_NAMES: u8 = 1;

/// The subsection of global names.
const GLOBAL_NAMES: u8 = 7;

/// The index of a global, or of a function, and its name.
#[derive(Clone, Copy)]
struct GlobalName<'a> {
    index: u32,
    name: &'a str,
}

/// The pairs of a subsection up to a fault, and whether there was none.
#[derive(Drop)]
struct Pairs<'a> {
    names: Vec<GlobalName<'a>>,
    complete: bool,
}

impl<'a> Spelled<'a> for GlobalName<'a> {
    ghost Value = { GlobalNameValue };

    ghost view = { λ n. global_name_value n };

    ghost read = { global_name_at };

    #[tactic(auto, unfolding(crate::specs::Reading::Names::global_name_at))]
    fn read_from(_alloc: Global, reader: &mut Reader<'a>) -> Result<GlobalName<'a>, ReadFault> {
        let index = reader.u32()?;
        let name = reader.name()?;
        Ok(GlobalName { index, name })
    }
}

/// The names of globals by their indices, as the subsections of global names give them (WebAssembly core
/// specification, 7.4.1, and the proposal of extended name sections). Indices are in the order of their first
/// pairs; of several names for one index the last is.
///
/// A fault refuses nothing. It ends the names of its section; pairs before it stay.
pub fn global_names<'a>(
    alloc: Global,
    sections: &[Section<'a>],
) -> Result<OrderedMap<u32, &'a str>, ReadFault>
    ensures found { IfOk result (λ m. AreGlobalNames (section_values sections.now)
        (name_entries m)) }
    ensures memory { IfErr result (λ e. e ≡ ReadFault.Memory) }
{
    names_under(alloc, sections, GLOBAL_NAMES)
}

/// The names of a module's functions by their indices, as the subsections of function names give them (WebAssembly core
/// specification, 7.4.1): of the functions that have one there. Indices are in the order of their first pairs; of
/// several names for one index the last is. An index may be past the last function.
///
/// A fault in a name section refuses nothing. It ends the names of its section; pairs before it stay. Other sections
/// are skipped by their sizes.
///
/// # Errors
///
/// - `Component`: the bytes begin with the header of a component.
/// - `NotWasm`: the bytes begin with the header of neither a module nor a component.
/// - `Truncated`: the bytes end inside a section.
/// - `BadNumber`: the size of a section is not a u32 in LEB128.
/// - `Memory`: an allocation failed.
pub fn function_names(alloc: Global, bytes: &[u8]) -> Result<OrderedMap<u32, &str>, ReadFault>
    ensures found { IfOk result (λ m. AreFunctionNames bytes.now (name_entries m)) }
    // Unless memory runs out, there are names of all bytes that spell sections.
    ensures refused { IfRefused result (SpellsNothing SpellsFrames bytes.now) }
    ensures component { IsErrOf result ReadFault.Component ↔ IsComponent bytes.now }
{
    let frames = frames(alloc, bytes)?;
    names_under(alloc, &frames.sections, FUNCTION_NAMES)
}

/// The names of the wanted functions: the names in `function_names` whose index is wanted, in their order there. The
/// wanted indices come in any order, repeated or not, and may be past the last function. The name sections are read
/// once, without a map of all names.
///
/// # Errors
///
/// The faults of `function_names`.
pub fn function_names_at<'a>(
    alloc: Global,
    bytes: &'a [u8],
    wanted: &[u32],
) -> Result<OrderedMap<u32, &'a str>, ReadFault>
    ensures found { IfOk result (λ m. AreFunctionNamesAt bytes.now wanted.now (name_entries m)) }
    // Unless memory runs out, there are names of all bytes that spell sections.
    ensures refused { IfRefused result (SpellsNothing SpellsFrames bytes.now) }
    ensures component { IsErrOf result ReadFault.Component ↔ IsComponent bytes.now }
{
    let cut = frames(alloc, bytes)?;
    let wanted = indices_of(alloc, wanted)?;
    names_at(alloc, &cut.sections, &wanted)
}

/// These indices, each once, ready to look for.
fn indices_of(alloc: Global, indices: &[u32]) -> Result<OrderedMap<u32, ()>, AllocError>
    ensures { IfOk result (λ m. (i : ℕ) →
        list_any (nat_eq i) (keys_of m.entries) ≡ list_any (nat_eq i) indices.now) }
{
    let mut set = OrderedMap::new(alloc);
    for index in indices {
        set.insert(*index, ())?;
    }
    Ok(set)
}

/// Whether an index is among these.
fn has_index(indices: &OrderedMap<u32, ()>, index: u32) -> bool
    ensures { result ≡ list_any (nat_eq index) (keys_of indices.now.entries) }
{
    indices.get(&index).is_some()
}

/// The names of functions that subsections give, of the wanted indices alone.
fn names_at<'a>(
    alloc: Global,
    sections: &[Section<'a>],
    wanted: &OrderedMap<u32, ()>,
) -> Result<OrderedMap<u32, &'a str>, ReadFault>
    ensures found { IfOk result (λ m. AreNamesAt (keys_of wanted.now.entries)
        (section_values sections.now) (name_entries m)) }
    ensures memory { IfErr result (λ e. e ≡ ReadFault.Memory) }
{
    let pairs = all_pairs(alloc, sections, FUNCTION_NAMES)?;
    let mut names = OrderedMap::new(alloc);
    for named in &pairs {
        if has_index(wanted, named.index) {
            names.insert(named.index, named.name)?;
        }
    }
    Ok(names)
}

/// The names that subsections of this id give.
fn names_under<'a>(
    alloc: Global,
    sections: &[Section<'a>],
    id: u8,
) -> Result<OrderedMap<u32, &'a str>, ReadFault>
    ensures found { IfOk result (λ m. AreNamesUnder id (section_values sections.now)
        (name_entries m)) }
    ensures memory { IfErr result (λ e. e ≡ ReadFault.Memory) }
{
    let pairs = all_pairs(alloc, sections, id)?;
    let mut names = OrderedMap::new(alloc);
    for pair in &pairs {
        names.insert(pair.index, pair.name)?;
    }
    Ok(names)
}

/// The pairs of all sections, in order.
fn all_pairs<'a>(
    alloc: Global,
    sections: &[Section<'a>],
    id: u8,
) -> Result<Vec<GlobalName<'a>>, ReadFault>
    ensures found { IfOk result
        (λ v. AllNamesUnder id (section_values sections.now) (named_pairs v.items)) }
    ensures memory { IfErr result (λ e. e ≡ ReadFault.Memory) }
{
    let mut all = Vec::new(alloc);
    for section in sections {
        if let Some(bytes) = content_after_name(alloc, section, "name")? {
            let pairs = section_pairs(alloc, bytes, id)?;
            all.extend_from_slice(&pairs)?;
        }
    }
    Ok(all)
}

/// The pairs of a name section, of which `bytes` are after its name.
fn section_pairs(alloc: Global, bytes: &[u8], id: u8) -> Result<Vec<GlobalName<'_>>, ReadFault>
    ensures found { IfOk result (λ v. NamesUnder id bytes.now (named_pairs v.items)) }
    ensures memory { IfErr result (λ e. e ≡ ReadFault.Memory) }
{
    let mut reader = Reader::new(bytes);
    let mut all = Vec::new(alloc);
    loop {
        let Some(subsection) = reader.find::<Section>(alloc)? else {
            return Ok(all);
        };
        if subsection.id == id {
            let pairs = subsection_pairs(alloc, subsection.content)?;
            all.extend_from_slice(&pairs.names)?;
            if !pairs.complete {
                return Ok(all);
            }
        }
    }
}

/// The pairs of a subsection of names.
fn subsection_pairs(alloc: Global, content: &[u8]) -> Result<Pairs<'_>, ReadFault>
    ensures found { IfOk result (λ p. PairsOf content.now p.complete (named_pairs p.names.items)) }
    ensures memory { IfErr result (λ e. e ≡ ReadFault.Memory) }
{
    let mut reader = Reader::new(content);
    let mut names = Vec::new(alloc);
    let Some(count) = reader.find::<u32>(alloc)? else {
        let complete = false;
        return Ok(Pairs { names, complete });
    };
    for _ in 0..count {
        let Some(name) = reader.find::<GlobalName>(alloc)? else {
            let complete = false;
            return Ok(Pairs { names, complete });
        };
        names.push(name)?;
    }
    let complete = reader.rest.is_empty();
    Ok(Pairs { names, complete })
}
