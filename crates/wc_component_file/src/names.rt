//! The names of core modules, out of sections `component-name`.

ghost use Rattle.std.specs.Prelude.{◌≡◌, IfOk, map};
ghost use Rattle.wc_component_file.specs.Frames.{frame_values};
ghost use Rattle.wc_component_file.specs.Names.{AllNames, NamesIn, NumberedPairs, component_name_text};
ghost use Rattle.wc_component_file.specs.Private.Names.{Finds, NamesAfterSort, name_pairs};
ghost use Rattle.wc_read.specs.Reading.Custom.{ContentAfterName, optional_bytes};
ghost use Rattle.wc_read.specs.Reading.Names.{global_name_at};
ghost use Rattle.wc_read.specs.Sections.{section_value};

use crate::frames::Frame;
use std::alloc::{AllocError, Global};
use wc_read::codes::CUSTOM_ID;
use wc_read::{Reader, Section};

/// The name of the sections.
const COMPONENT_NAME: &str = "component-name";

/// The subsection of names of one sort of items.
const SORT_NAMES: u8 = 1;

/// The sort of core modules.
const CORE_MODULES: &[u8] = &[0x00, 0x11];

/// The index of a core module, and its name.
#[derive(Clone, Copy)]
pub struct ModuleName<'a> {
    pub index: u32,
    pub name: &'a str,
}

/// The pairs of a subsection up to a fault, and whether there was none.
#[derive(Drop)]
struct Pairs<'a> {
    names: Vec<ModuleName<'a>>,
    complete: bool,
}

/// The names that sections give core modules, in order.
pub fn module_names<'a>(
    alloc: Global,
    frames: &[Frame<'a>],
) -> Result<Vec<ModuleName<'a>>, AllocError>
    ensures { IfOk result (λ v. AllNames (frame_values frames.now) (name_pairs v.items)) }
{
    let mut all = Vec::new(alloc);
    for frame in frames {
        if let Some(bytes) = content_after_name(&frame.section) {
            let names = section_names(alloc, bytes)?;
            all.extend_from_slice(&names)?;
        }
    }
    Ok(all)
}

/// The bytes after the name of a section `component-name`; `None` of any other section.
fn content_after_name<'a>(section: &Section<'a>) -> Option<&'a [u8]>
    ensures { ContentAfterName component_name_text (section_value section.now)
        (optional_bytes result) }
{
    if section.id != CUSTOM_ID {
        return None;
    }
    let mut reader = Reader::new(section.content);
    let Ok(found) = reader.name() else {
        return None;
    };
    if found != COMPONENT_NAME {
        return None;
    }
    Some(reader.rest)
}

/// The names that a section gives, of which these bytes are after its name.
fn section_names(alloc: Global, bytes: &[u8]) -> Result<Vec<ModuleName<'_>>, AllocError>
    ensures { IfOk result (λ v. NamesIn bytes.now (name_pairs v.items)) }
{
    let mut reader = Reader::new(bytes);
    let mut all = Vec::new(alloc);
    loop {
        let Ok(subsection) = reader.section() else {
            return Ok(all);
        };
        if let Some(names) = names_after_sort(&subsection) {
            let pairs = subsection_names(alloc, names)?;
            all.extend_from_slice(&pairs.names)?;
            if !pairs.complete {
                return Ok(all);
            }
        }
    }
}

/// The bytes after the sort of a subsection of names of core modules; `None` of any other subsection.
fn names_after_sort<'a>(subsection: &Section<'a>) -> Option<&'a [u8]>
    ensures { NamesAfterSort (section_value subsection.now) (optional_bytes result) }
{
    if subsection.id != SORT_NAMES {
        return None;
    }
    subsection.content.strip_prefix(CORE_MODULES)
}

/// The names that a subsection gives, of which these bytes are after its sort.
fn subsection_names(alloc: Global, bytes: &[u8]) -> Result<Pairs<'_>, AllocError>
    ensures { IfOk result (λ p. NumberedPairs bytes.now (name_pairs p.names.items) p.complete) }
{
    let mut reader = Reader::new(bytes);
    let mut names = Vec::new(alloc);
    let Ok(count) = reader.u32() else {
        let complete = false;
        return Ok(Pairs { names, complete });
    };
    for _ in 0..count {
        let Some(name) = next_name(&mut reader) else {
            let complete = false;
            return Ok(Pairs { names, complete });
        };
        names.push(name)?;
    }
    let complete = reader.rest.is_empty();
    Ok(Pairs { names, complete })
}

/// The next index with its name; `None` where there is none.
#[tactic(auto, unfolding(wc_read::specs::Reading::Names::global_name_at))]
fn next_name<'a>(reader: &mut Reader<'a>) -> Option<ModuleName<'a>>
    ensures { Finds (λ n. (n.index, n.name.now)) result reader.new.rest.now
        (global_name_at reader.old.rest.now) }
{
    let Ok(index) = reader.u32() else {
        return None;
    };
    let Ok(name) = reader.name() else {
        return None;
    };
    Some(ModuleName { index, name })
}
