//! The place where the bytes of a refused module stop to be right.

ghost use Rattle.std.specs.Prelude.{◌≡◌, ◌≢◌, ◌≤◌, ◌+◌, ◌-◌, ◌++◌, ◌↔◌, length, Some, None, IfOk, IfErr, IfSome};
ghost use Rattle.wc_read.specs.Fault.{SpellsNothing};
ghost use Rattle.wc_read.specs.Modules.{SpellsModule, module_value};
ghost use Rattle.wc_read.specs.Causes.{is_cause};
ghost use Rattle.wc_read.specs.Reading.Contents.{section_contents_value};
ghost use Rattle.wc_read.specs.Place.{IsPlaced, IsPlaceIn, IsCausePlace, IsRefusedWith, section_name};
ghost use Rattle.wc_read.specs.Private.Places.{IsLastRead, IsFirstCause, HasCausePlace};
ghost use Rattle.wc_read.specs.Sections.{IsComponent, module_header, section_value};

use crate::causes::is_cause;
use crate::codes::{
    CODE_ID, CUSTOM_ID, DATA_COUNT_ID, DATA_ID, ELEMENT_ID, EXPORT_ID, FUNCTION_ID, GLOBAL_ID,
    IMPORT_ID, MEMORY_ID, START_ID, TABLE_ID, TYPE_ID,
};
use crate::core_module::Module;
use crate::fault::ReadFault;
use crate::modules::read_module;
use crate::order::next_position;
use crate::reader::Reader;
use crate::section_contents::SectionContents;
use crate::sections::{MODULE_HEADER, Section};
use crate::stops::{Sought, contents_of, passed, stop, stop_in};
use std::alloc::{AllocError, Global};
use std::fmt;
use wc_texts::Refused;

/// The first half of a header, which modules and components share.
const MAGIC: &[u8] = b"\0asm";

/// The place where bytes stop to be right.
#[derive(Clone, Copy, Debug, PartialEq, Eq)]
pub struct ReadPlace {
    /// How many bytes are before it, from the start of the module.
    pub offset: usize,
    /// The id of the section in whose content it is (WebAssembly core specification, 5.5.2). `None` in the header, and
    /// in the id and the size of a section.
    pub section: Option<u8>,
}

impl fmt::Display for ReadPlace {
    ghost use Rattle.std.specs.Prelude.{Some};
    ghost use Rattle.wc_read.specs.Place.{read_place_text};

    ghost output = { λ place. Some (read_place_text place) };

    fn fmt<W: fmt::Write>(&self, f: &mut fmt::Formatter<W>) -> fmt::Result {
        let offset = self.offset;
        match self.section {
            Some(id) => write!(f, "byte {offset}, in the {} section", section_name(id)),
            None => write!(f, "byte {offset}"),
        }
    }
}

/// The name of a section (2.5 and 5.5).
fn section_name(id: u8) -> &'static str
    ensures { result.now ≡ section_name id }
{
    match id {
        CUSTOM_ID => "custom",
        TYPE_ID => "type",
        IMPORT_ID => "import",
        FUNCTION_ID => "function",
        TABLE_ID => "table",
        MEMORY_ID => "memory",
        GLOBAL_ID => "global",
        EXPORT_ID => "export",
        START_ID => "start",
        ELEMENT_ID => "element",
        CODE_ID => "code",
        DATA_ID => "data",
        DATA_COUNT_ID => "data count",
        _ => "unknown",
    }
}

/// Reads a module as `read_module` does, and says of one that is refused where its bytes stop to be right.
///
/// The place is that of the byte at which reading stopped. Bytes that end inside an item have the place of their end,
/// or of the end of their section; an id that is unknown or out of order its own. Where all items are right by
/// themselves, and the module is not (`CountMismatch`, `TooLarge`, `BadIndex`, `DuplicateExport`, `BadInitialiser`,
/// `BadStart`), it is the start of the content of the section at fault, or the end of the bytes where that section is
/// missing.
///
/// # Errors
///
/// Those of `read_module`. `Memory` has no place, and comes too where there is no memory to find one.
pub fn read_module_explained(
    alloc: Global,
    bytes: &[u8],
) -> Result<Module<'_>, Refused<ReadFault, ReadPlace>>
    ensures found { IfOk result (λ m. SpellsModule bytes.now (module_value m)) }
    ensures refused { IfErr result (λ r. r.fault ≢ ReadFault.Memory
        → SpellsNothing SpellsModule bytes.now) }
    ensures component { IsRefusedWith result ReadFault.Component ↔ IsComponent bytes.now }
    // The place is within the bytes, and in the section that it names.
    ensures place { IfErr result (λ r. IsPlaced bytes.now r.fault r.place) }
{
    match read_module(alloc, bytes) {
        Ok(module) => Ok(module),
        Err(fault) => Err(refused(alloc, bytes, fault)),
    }
}

/// A fault of reading a module, and its place.
fn refused(alloc: Global, bytes: &[u8], fault: ReadFault) -> Refused<ReadFault, ReadPlace>
    ensures fault { result.fault ≢ ReadFault.Memory → result.fault ≡ fault }
    ensures component { fault ≡ ReadFault.Component → result.fault ≡ fault }
    ensures place { IsPlaced bytes.now result.fault result.place }
{
    if fault == ReadFault::Memory {
        return Refused::without_place(fault);
    }
    if fault == ReadFault::Component {
        let place = Some(header_place(bytes));
        return Refused { fault, place };
    }
    match module_place(alloc, bytes, fault) {
        Ok(place) => Refused {
            fault,
            place: Some(place),
        },
        Err(_) => Refused::without_place(ReadFault::Memory),
    }
}

/// Where the bytes of a module stop to be right, which `read_module` refuses with this fault. It is within the bytes.
///
/// # Errors
///
/// `AllocError`: an allocation failed.
pub fn module_place(alloc: Global, bytes: &[u8], fault: ReadFault) -> Result<ReadPlace, AllocError>
    ensures place { IfOk result (IsPlaceIn bytes.now) }
    ensures cause { IfOk result (IsCausePlace bytes.now fault) }
{
    match whole_place(alloc, bytes, fault)? {
        Some(place) => Ok(place),
        None => {
            let sought = Sought {
                fault,
                imports_alone: false,
            };
            place_of(alloc, bytes, sought)
        }
    }
}

/// The place of the first section that a fault is about, where each item of the module is right by itself; `None` where
/// none is, or an item is not.
fn whole_place(
    alloc: Global,
    bytes: &[u8],
    fault: ReadFault,
) -> Result<Option<ReadPlace>, AllocError>
    ensures place { IfOk result (λ place. IfSome place (IsPlaceIn bytes.now)) }
    ensures cause { IfOk result (λ place. HasCausePlace bytes.now fault place) }
{
    let Some(contents) = contents_of(alloc, bytes)? else {
        return Ok(None);
    };
    let Some(rest) = bytes.strip_prefix(MODULE_HEADER) else {
        return Ok(None);
    };
    cause_place(alloc, bytes, rest, &contents, fault)
}

/// The place of the first section that a fault is about.
fn cause_place(
    alloc: Global,
    bytes: &[u8],
    rest: &[u8],
    contents: &SectionContents<'_>,
    fault: ReadFault,
) -> Result<Option<ReadPlace>, AllocError>
    requires { bytes.now ≡ module_header ++ rest.now }
    ensures place { IfOk result (λ place. IfSome place (IsPlaceIn bytes.now)) }
    ensures first { IfOk result (λ place. IsFirstCause
        bytes.now (is_cause (section_contents_value contents.now) fault) place) }
{
    let mut reader = Reader::new(rest);
    while !reader.rest.is_empty() {
        let Ok(section) = reader.section() else {
            return Ok(None);
        };
        if is_cause(alloc, contents, fault, section.id)? {
            return Ok(Some(inside(bytes, reader.rest, &section, 0)));
        }
    }
    Ok(None)
}

/// Where bytes stop to be right of which the cut into sections, and the contents of import sections, are read, with
/// `frames` and `read_imports`. It is within the bytes.
///
/// # Errors
///
/// `AllocError`: an allocation failed.
pub fn imports_place(alloc: Global, bytes: &[u8], fault: ReadFault) -> Result<ReadPlace, AllocError>
    ensures { IfOk result (IsPlaceIn bytes.now) }
{
    let imports = Sought {
        fault,
        imports_alone: true,
    };
    place_of(alloc, bytes, imports)
}

/// The place of an id or a size.
fn outside(offset: usize) -> ReadPlace
    ensures offset { result.offset ≡ offset }
    ensures section { result.section ≡ None }
{
    ReadPlace {
        offset,
        section: None,
    }
}

/// The place in the content of a section, of which the bytes that are left come next.
fn inside(bytes: &[u8], rest: &[u8], section: &Section, stop: usize) -> ReadPlace
    requires read { IsLastRead bytes.now rest.now (section_value section.now) }
    requires bounded { stop ≤ length section.now.content.now }
    ensures place { IsPlaceIn bytes.now result }
    ensures exact { result.offset
        ≡ length bytes.now - length rest.now - length section.now.content.now + stop }
    ensures named { result.section ≡ Some section.now.id }
{
    let begin = passed(bytes, rest) - section.content.len();
    ReadPlace {
        offset: begin + stop,
        section: Some(section.id),
    }
}

/// The place in a header that is not that of a module: its second half, where the first is right.
fn header_place(bytes: &[u8]) -> ReadPlace
    ensures { IsPlaceIn bytes.now result }
{
    if bytes.starts_with(MAGIC) {
        outside(MAGIC.len())
    } else {
        outside(0)
    }
}

/// The first place at which the fault that is sought comes. What was read is gone through again, by refused modules
/// alone, so that readers need not know where they are.
fn place_of(alloc: Global, bytes: &[u8], sought: Sought) -> Result<ReadPlace, AllocError>
    ensures { IfOk result (IsPlaceIn bytes.now) }
{
    match bytes.strip_prefix(MODULE_HEADER) {
        Some(rest) => section_place(alloc, bytes, rest, sought),
        None => Ok(header_place(bytes)),
    }
}

/// The first place among sections.
fn section_place(
    alloc: Global,
    bytes: &[u8],
    rest: &[u8],
    sought: Sought,
) -> Result<ReadPlace, AllocError>
    requires { bytes.now ≡ module_header ++ rest.now }
    ensures { IfOk result (IsPlaceIn bytes.now) }
{
    let mut reader = Reader::new(rest);
    let mut position = 0;
    while !reader.rest.is_empty() {
        let start = passed(bytes, reader.rest);
        let section = match reader.section() {
            Ok(section) => section,
            Err(fault) => return Ok(outside(stop(bytes, reader.rest, fault))),
        };
        match next_position(position, &section) {
            Ok(next) => position = next,
            Err(fault) => {
                if sought.is_of_order(&section, fault) {
                    return Ok(outside(start));
                }
            }
        }
        if let Some(stop) = stop_in(alloc, &section, sought)? {
            return Ok(inside(bytes, reader.rest, &section, stop));
        }
    }
    Ok(outside(bytes.len()))
}
