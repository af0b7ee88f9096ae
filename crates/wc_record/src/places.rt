//! Places that faults are about in the modules of a component.

ghost use Rattle.std.specs.Prelude.{◌≡◌, IfOk, None, OnOk, string_bytes};
ghost use Rattle.std.specs.Option.{option_map};
ghost use Rattle.std.specs.Str.{IsUtf8};
ghost use Rattle.wc_gc.specs.declared.trim_place.TrimPlace.TheVariants.{Body, Section};
ghost use Rattle.wc_validate.specs.Place.{an_import, difference_view, missing_function, subject_view};
ghost use Rattle.wc_record.specs.Places.{bytes_json, named_json, page_sizes_json, trim_place_json, world_place_json};
ghost use Rattle.wc_record.specs.Private.Contexts.{json_in};
ghost use Rattle.wc_record.specs.Objects.{PutsJson};
ghost use Rattle.wc_record.specs.Texts.{text_of};

use crate::objects::{begin_object, end_object, put_kind, put_member};
use crate::to_json::ToJson;
use json::Writer;
use std::alloc::{AllocError, Global};
use wc_gc::TrimPlace;
use wc_read::ReadPlace;
use wc_validate::{Subject, TypeDifference};
use wc_world::{ModulePlace, WorldPlace};

impl ToJson for TypeDifference {
    ghost use Rattle.wc_validate.specs.Place.{DifferenceView, difference_view};
    ghost use Rattle.wc_record.specs.Places.{difference_json};

    ghost View = { DifferenceView };

    ghost view = { difference_view };

    ghost json = { difference_json };

    fn write(&self, out: &mut Writer) -> Result<(), AllocError> {
        begin_object(out)?;
        put_member(out, "wanted", &self.wanted)?;
        put_member(out, "found", &self.found)?;
        end_object(out)
    }
}

/// The members that all subjects of faults of validation have.
#[derive(Clone, Copy)]
struct Context<'a> {
    /// The name of the adapter or the library; `None` for the main module.
    adapter: &'a Option<String>,
    /// The types that differ.
    types: &'a Option<TypeDifference>,
}

/// Writes a place of kind `import`: an import by its names and its index, and the types that
/// differ.
fn put_import(
    out: &mut Writer,
    about: Context<'_>,
    module_name: &str,
    name: &str,
    index: usize,
) -> Result<(), AllocError>
    ensures { OnOk result (PutsJson out.old out.new
        (json_in about.entry (an_import module_name.now name.now index))) }
{
    begin_object(out)?;
    put_kind(out, "import")?;
    put_member(out, "adapter", about.adapter)?;
    put_member(out, "module", &module_name)?;
    put_member(out, "name", &name)?;
    put_member(out, "index", &index)?;
    put_member(out, "types", about.types)?;
    end_object(out)
}

/// Writes an export, or one that is not there.
fn put_named(out: &mut Writer, about: Context<'_>, kind: &str, name: &str) -> Result<(), AllocError>
    ensures { OnOk result (PutsJson out.old out.new
        (named_json kind.now (option_map string_bytes about.entry.adapter.now) name.now
        (option_map difference_view about.entry.types.now))) }
{
    begin_object(out)?;
    put_kind(out, kind)?;
    put_member(out, "adapter", about.adapter)?;
    put_member(out, "name", &name)?;
    put_member(out, "types", about.types)?;
    end_object(out)
}

/// Writes a function of an interface that is not exported.
fn put_missing_function(
    out: &mut Writer,
    about: Context<'_>,
    module_name: &str,
    name: &str,
) -> Result<(), AllocError>
    ensures { OnOk result (PutsJson out.old out.new
        (json_in about.entry (missing_function module_name.now name.now))) }
{
    begin_object(out)?;
    put_kind(out, "missing-function")?;
    put_member(out, "adapter", about.adapter)?;
    put_member(out, "module", &module_name)?;
    put_member(out, "name", &name)?;
    put_member(out, "types", about.types)?;
    end_object(out)
}

/// Writes the import or the export that a fault of validation is about.
fn put_subject(out: &mut Writer, about: Context<'_>, subject: &Subject) -> Result<(), AllocError>
    ensures { OnOk result (PutsJson out.old out.new
        (json_in about.entry (subject_view subject.now))) }
{
    match subject {
        Subject::Import {
            module_name,
            name,
            index,
        } => put_import(out, about, module_name, name, *index),
        Subject::Export(name) => put_named(out, about, "export", name),
        Subject::MissingFunction { module_name, name } => {
            put_missing_function(out, about, module_name, name)
        }
        Subject::MissingExport(name) => put_named(out, about, "missing-export", name),
        Subject::Bytes(place) => put_bytes(out, about.adapter, *place),
    }
}

/// Writes a place of kind `section`: the id of a section of an adapter.
fn put_section(out: &mut Writer, adapter: &Option<String>, id: u8) -> Result<(), AllocError>
    ensures { OnOk result (PutsJson out.old out.new
        (trim_place_json (option_map string_bytes adapter.now) (Section id))) }
{
    begin_object(out)?;
    put_kind(out, "section")?;
    put_member(out, "adapter", adapter)?;
    put_member(out, "id", &(id as u64))?;
    end_object(out)
}

/// Writes a place of kind `body`: a function of an adapter, and the operator in it by its position.
fn put_body(
    out: &mut Writer,
    adapter: &Option<String>,
    function: u32,
    operator: Option<usize>,
) -> Result<(), AllocError>
    ensures { OnOk result (PutsJson out.old out.new
        (trim_place_json (option_map string_bytes adapter.now) (Body function operator))) }
{
    begin_object(out)?;
    put_kind(out, "body")?;
    put_member(out, "adapter", adapter)?;
    put_member(out, "function", &function)?;
    put_member(out, "operator", &operator)?;
    end_object(out)
}

/// Writes a place of kind `bytes`: the offset at which the bytes of a module are malformed.
fn put_bytes(out: &mut Writer, adapter: &Option<String>, place: ReadPlace) -> Result<(), AllocError>
    ensures { OnOk result (PutsJson out.old out.new
        (bytes_json (option_map string_bytes adapter.now) place)) }
{
    begin_object(out)?;
    put_kind(out, "bytes")?;
    put_member(out, "adapter", adapter)?;
    put_member(out, "offset", &place.offset)?;
    put_member(out, "section", &place.section)?;
    end_object(out)
}

/// Writes a place of kind `page-sizes`: the sizes of pages in bytes.
fn put_page_sizes(
    out: &mut Writer,
    adapter: &Option<String>,
    own: u64,
    main: u64,
) -> Result<(), AllocError>
    ensures { OnOk result (PutsJson out.old out.new
        (page_sizes_json (option_map string_bytes adapter.now) own main)) }
{
    begin_object(out)?;
    put_kind(out, "page-sizes")?;
    put_member(out, "adapter", adapter)?;
    put_member(out, "own", &own)?;
    put_member(out, "main", &main)?;
    end_object(out)
}

/// Writes the part of an adapter that a fault of trimming is about.
fn put_trim_place(
    out: &mut Writer,
    adapter: &Option<String>,
    place: TrimPlace,
) -> Result<(), AllocError>
    ensures { OnOk result (PutsJson out.old out.new
        (trim_place_json (option_map string_bytes adapter.now) place)) }
{
    match place {
        TrimPlace::Section { id } => put_section(out, adapter, id),
        TrimPlace::Body { function, operator } => put_body(out, adapter, function, operator),
        TrimPlace::Bytes(place) => put_bytes(out, adapter, place),
    }
}

impl ToJson for WorldPlace {
    ghost use Rattle.wc_world.specs.declared.places.WorldPlace.{WorldPlace as world_place};
    ghost use Rattle.wc_record.specs.Places.{world_place_json};

    ghost View = { world_place };

    ghost view = { λ p. p };

    ghost json = { world_place_json };

    fn write(&self, out: &mut Writer) -> Result<(), AllocError> {
        let adapter = &self.adapter;
        match &self.place {
            ModulePlace::Validation(place) => {
                let types = &place.types;
                put_subject(out, Context { adapter, types }, &place.subject)
            }
            ModulePlace::Trim(place) => put_trim_place(out, adapter, *place),
            ModulePlace::PageSizes { own, main } => put_page_sizes(out, adapter, *own, *main),
        }
    }
}

/// The place of a fault of a component's world, as JSON: an object whose first member, `kind`, is one of these:
///
/// - `import`: with `adapter`, `module`, `name`, `index` among all imports, and `types`;
/// - `export`, `missing-export`: with `adapter`, `name` and `types`;
/// - `missing-function`: with `adapter`, `module` (the text of the interface's key), `name` and `types`;
/// - `section`: with `adapter` and `id`;
/// - `body`: with `adapter`, `function` (its index) and `operator` (its number in the body, or null);
/// - `bytes`: with `adapter`, `offset` (how many bytes of the module are right) and `section` (the id of the section
///   in whose content they end, or null);
/// - `page-sizes`: with `adapter`, `own`, the bytes of a page in its memory, and `main`, the bytes of a page in the
///   main module's memory.
///
/// `adapter` is the name of the adapter or the library of the place, or null for the main module. `types` is null, or
/// an object with the function types `wanted` and `found`, each with `params` and `results`.
///
/// # Errors
///
/// `AllocError`: an allocation failed.
pub fn world_place_to_json(alloc: Global, place: &WorldPlace) -> Result<Vec<u8>, AllocError>
    ensures text { IfOk result (λ bytes. bytes.items ≡ text_of (world_place_json place.now)) }
    ensures utf8 { IfOk result (λ bytes. IsUtf8 bytes.items) }
{
    let mut out = Writer::new(Vec::new(alloc));
    place.write(&mut out)?;
    Ok(out.into_inner())
}

/// The place of a fault of trimming, as JSON: as in `world_place_to_json`, and `adapter` is null.
///
/// # Errors
///
/// `AllocError`: an allocation failed.
pub fn trim_place_to_json(alloc: Global, place: TrimPlace) -> Result<Vec<u8>, AllocError>
    ensures text { IfOk result (λ bytes. bytes.items ≡ text_of (trim_place_json None place)) }
    ensures utf8 { IfOk result (λ bytes. IsUtf8 bytes.items) }
{
    let mut out = Writer::new(Vec::new(alloc));
    put_trim_place(&mut out, &None, place)?;
    Ok(out.into_inner())
}

/// The offset at which the bytes of a module are malformed, as JSON: as in `world_place_to_json`, of kind `bytes`,
/// and `adapter` is null.
///
/// # Errors
///
/// `AllocError`: an allocation failed.
pub fn read_place_to_json(alloc: Global, place: ReadPlace) -> Result<Vec<u8>, AllocError>
    ensures text { IfOk result (λ bytes. bytes.items ≡ text_of (bytes_json None place)) }
    ensures utf8 { IfOk result (λ bytes. IsUtf8 bytes.items) }
{
    let mut out = Writer::new(Vec::new(alloc));
    put_bytes(&mut out, &None, place)?;
    Ok(out.into_inner())
}
