//! The imports of the core modules of a component's file, by interfaces.

ghost use Rattle.std.specs.Prelude.{◌≡◌, ◌≢◌, ◌++◌, ◌&&◌, AllPairs, IfOk, List, OnOk, false, length, map, string_bytes, true};
ghost use Rattle.std.specs.Option.{option_map, option_to_list};
ghost use Rattle.wc_read.specs.Exports.{export_value};
ghost use Rattle.wc_read.specs.Imports.{ImportValue, import_value, import_values};
ghost use Rattle.wc_read.specs.Modules.{module_value};
ghost use Rattle.wc_segments.specs.Segments.{SegmentsValue, segments_value};
ghost use Rattle.wc_paths.specs.PathRoots.{root_view};
ghost use Rattle.wc_paths.specs.Roots.{second_roots};
ghost use Rattle.wc_summary.specs.CoreModules.{NotesCoreModule, label_value};
ghost use Rattle.wc_summary.specs.Entries.{entries_view};
ghost use Rattle.wc_summary.specs.Leads.{tag_view, tags_view};
ghost use Rattle.wc_summary.specs.Notes.{NotesLibraryModule};
ghost use Rattle.wc_why.specs.Texts.{text_of};
ghost use Rattle.wc_import_paths.specs.Followed.{HasPaths, followed_view};
ghost use Rattle.wc_import_paths.specs.MainModules.{code_of, main_view};
ghost use Rattle.wc_module_ways.specs.AdapterNames.{HasNames};
ghost use Rattle.wc_module_ways.specs.Adapters.{Given};
ghost use Rattle.wc_module_ways.specs.CoreImports.{export_label, is_live, label_text, labels_of, library_tags, live_tags, root_label, segment_label, start_label, value_of_core};
ghost use Rattle.wc_module_ways.specs.CoreModules.{HasCore, HasCorePaths, core_view};
ghost use Rattle.wc_module_ways.specs.Modules.{HasModules, is_of_core};
ghost use Rattle.wc_module_ways.specs.Tags.{tag_if};
ghost use Rattle.wc_module_ways.specs.NameLists.{AreListed};
ghost use Rattle.wc_module_ways.specs.Names.{function_pairs};
ghost use Rattle.wc_module_ways.specs.Private.CoreImports.{AreFilled, NotesCore, NotesCores, NotesFollowed};

use crate::core_module::{CoreLibrary, CoreModule, FollowedCore};
use crate::core_parts::{linked_names, unlinked};
use crate::imports::tag_if;
use crate::modules::Modules;
use crate::name_lists::NameLists;
use crate::shared::is_of_core;
use std::alloc::{AllocError, Global};
use wc_import_paths::{Followed, exports_of_names};
use wc_maps::Set;
use wc_paths::{PathItem, PathRoot, export_item, filled_by, second_roots};
use wc_read::{Export, Import, Space};
use wc_segments::Segments;
use wc_summary::{CoreImports, Entries, Label, LabelKind, note_core_module, note_library};

/// Notes what core modules import, in order.
pub(crate) fn note_core<'r>(
    alloc: Global,
    modules: &Modules<'r>,
    entries: &mut Entries<'r>,
) -> Result<(), AllocError>
    requires { HasModules modules.now }
    ensures { (given : List Given) → HasNames given modules.now.names.keys →
        OnOk result (NotesCores (code_of (main_view modules.now.main)).imports given
        (map core_view modules.now.core.items) (entries_view entries.old.entries)
        (entries_view entries.new.entries)) }
{
    for index in 0..modules.core.len() {
        let core = &modules.core[index];
        note_one(alloc, &modules.functions, &modules.names, core, entries)?;
    }
    Ok(())
}

/// Notes what a core module imports. `names`: the names from which modules of the component import from one another.
fn note_one<'r>(
    alloc: Global,
    functions: &NameLists<'_>,
    names: &Set<&str>,
    core: &CoreModule<'r>,
    entries: &mut Entries<'r>,
) -> Result<(), AllocError>
    requires { HasCore core.now }
    ensures { (imports : List ImportValue) →
        AreListed (function_pairs imports) functions.now.entries → (given : List Given) →
        HasNames given names.now.keys → OnOk result (NotesCore imports given (core_view core.now)
        (entries_view entries.old.entries) (entries_view entries.new.entries)) }
{
    match core {
        CoreModule::Followed(core) => note_followed(alloc, functions, names, core, entries),
        CoreModule::Unfollowed(core) => note_unfollowed(alloc, names, core, entries),
    }
}

/// Notes what a library imports.
fn note_unfollowed<'r>(
    alloc: Global,
    names: &Set<&str>,
    core: &CoreLibrary<'r>,
    entries: &mut Entries<'r>,
) -> Result<(), AllocError>
    ensures { (given : List Given) → HasNames given names.now.keys →
        OnOk result (NotesLibraryModule core.now.name.now
        (library_tags given (module_value core.now.code).imports)
        (entries_view entries.old.entries) (entries_view entries.new.entries)) }
{
    let tags = library_tags(alloc, names, &core.code.imports)?;
    note_library(alloc, core.name, &tags, entries)
}

/// The interface of each of these imports of a library, if it is from no module of the component.
fn library_tags(
    alloc: Global,
    names: &Set<&str>,
    imports: &[Import<'_>],
) -> Result<Vec<Option<String>>, AllocError>
    ensures { (given : List Given) → HasNames given names.now.keys →
        IfOk result (λ v. tags_view v.items ≡ library_tags given (import_values imports.now)) }
{
    let mut tags = Vec::new(alloc);
    for import in imports {
        tags.push(library_tag(alloc, names, import)?)?;
    }
    Ok(tags)
}

/// The interface of an import of a library, if it is from no module of the component.
fn library_tag(
    alloc: Global,
    names: &Set<&str>,
    import: &Import<'_>,
) -> Result<Option<String>, AllocError>
    ensures { (given : List Given) → HasNames given names.now.keys →
        IfOk result (λ t. tag_view t
        ≡ tag_if (is_of_core given true (import_value import.now)) (import_value import.now)) }
{
    tag_if(alloc, is_of_core(names, true, import), import)
}

/// Notes what a core module that is followed imports.
fn note_followed<'r>(
    alloc: Global,
    functions: &NameLists<'_>,
    names: &Set<&str>,
    core: &FollowedCore<'r>,
    entries: &mut Entries<'r>,
) -> Result<(), AllocError>
    requires { HasCorePaths core.now.followed }
    ensures { (imports : List ImportValue) →
        AreListed (function_pairs imports) functions.now.entries → (given : List Given) →
        HasNames given names.now.keys → OnOk result (NotesFollowed imports given
        core.now.name.now core.now.serves (followed_view core.now.followed)
        (entries_view entries.old.entries) (entries_view entries.new.entries)) }
{
    let linked = linked_names(alloc, functions, core)?;
    let tags = live_tags(alloc, names, &core.followed)?;
    note_tagged(alloc, &linked, core, &tags, entries)
}

/// The interface of each import of a core module that is followed, if it is from no module of the component, and is no
/// function that nothing leads to.
fn live_tags(
    alloc: Global,
    names: &Set<&str>,
    followed: &Followed<'_>,
) -> Result<Vec<Option<String>>, AllocError>
    requires { HasPaths followed.now }
    ensures sized { IfOk result (λ v. length v.items ≡ length followed.now.code.imports.items) }
    ensures tags { (given : List Given) → HasNames given names.now.keys →
        IfOk result (λ v. tags_view v.items ≡ live_tags given followed.now.reached.items
        (followed_view followed.now).code.imports) }
{
    let imports = &followed.code.imports;
    let items = &followed.items;
    let mut tags = Vec::new(alloc);
    for index in 0..imports.len() {
        let import = &imports[index];
        let is_one = is_counted(names, &followed.reached, import, items[index]);
        tags.push(tag_if(alloc, is_one, import)?)?;
    }
    Ok(tags)
}

/// Whether an import of a core module that is followed is from no module of the component, and is no function that
/// nothing leads to. `item`: its item.
fn is_counted(names: &Set<&str>, reached: &[bool], import: &Import<'_>, item: PathItem) -> bool
    ensures { (given : List Given) → HasNames given names.now.keys → result
        ≡ (is_of_core given false (import_value import.now) && is_live reached.now item) }
{
    is_of_core(names, false, import) && is_live(reached, item)
}

/// Whether something leads to an item, or it is no function.
fn is_live(reached: &[bool], item: PathItem) -> bool
    ensures { result ≡ is_live reached.now item }
{
    match item {
        PathItem::Item(Space::Funcs, index) => match reached.get(index) {
            Some(is_reached) => *is_reached,
            None => false,
        },
        PathItem::Item(Space::Types, _) => true,
        PathItem::Item(Space::Tables, _) => true,
        PathItem::Item(Space::Memories, _) => true,
        PathItem::Item(Space::Globals, _) => true,
        PathItem::Elements(_) => true,
        PathItem::Data(_) => true,
    }
}

/// Notes what a core module that is followed imports, by the interfaces of its imports. `linked`: the names of the
/// exports that the main module imports.
fn note_tagged<'r>(
    alloc: Global,
    linked: &Set<&str>,
    core: &FollowedCore<'r>,
    tags: &[Option<String>],
    entries: &mut Entries<'r>,
) -> Result<(), AllocError>
    requires spelled { HasCorePaths core.now.followed }
    requires sized { length tags.now ≡ length (followed_view core.now.followed).code.imports }
    ensures { OnOk result (NotesCoreModule (value_of_core (map text_of linked.now.keys)
        core.now.name.now (followed_view core.now.followed) (tags_view tags.now))
        (entries_view entries.old.entries) (entries_view entries.new.entries)) }
{
    let followed = &core.followed;
    let items = second_roots(alloc, &followed.segments)?;
    let texts = filled_texts(alloc, &followed.segments, &items)?;
    let labels = labels_of(alloc, linked, followed, (&items, &texts))?;
    let imports = CoreImports {
        name: core.name,
        code: &followed.code,
        segments: &followed.segments,
        tags,
        labels: &labels,
    };
    note_core_module(alloc, &imports, entries)
}

/// The tables and memories that active segments fill, as they are listed.
fn filled_texts(
    alloc: Global,
    segments: &Segments<'_>,
    items: &[PathItem],
) -> Result<Vec<String>, AllocError>
    ensures { IfOk result (λ v. AreFilled (segments_value segments.now) items.now v.items) }
{
    let mut texts = Vec::new(alloc);
    for item in items {
        texts.push(label_text(alloc, filled_by(segments, *item))?)?;
    }
    Ok(texts)
}

/// Where a path begins, as it is listed: the export's name, `start`, `fills table T` or `fills memory M`.
fn label_text(alloc: Global, root: PathRoot<'_>) -> Result<String, AllocError>
    ensures { IfOk result (λ s. string_bytes s ≡ label_text (root_view root.entry)) }
{
    match root {
        PathRoot::FillsTable(index) => format!(in alloc; "fills table {index}"),
        PathRoot::FillsMemory(index) => format!(in alloc; "fills memory {index}"),
        PathRoot::Export(name) => String::from_str(alloc, name),
        PathRoot::Start => String::from_str(alloc, "start"),
    }
}

/// Where paths may begin in a core module, as it is listed: at the exports that the main module imports, at its other
/// exports, at the start function, and at the active segments, which have these items and texts.
fn labels_of<'l>(
    alloc: Global,
    linked: &Set<&str>,
    followed: &'l Followed<'_>,
    filled: (&[PathItem], &'l [String]),
) -> Result<Vec<Label<'l>>, AllocError>
    requires distinct { AllPairs (λ x y. x ≢ y)
        (map (λ e. e.name) (followed_view followed.now).code.exports) }
    requires items { filled.0.now ≡ second_roots (segments_value followed.now.segments) }
    requires texts { AreFilled (segments_value followed.now.segments) filled.0.now filled.1.now }
    ensures { IfOk result (λ v. map label_value v.items
        ≡ labels_of (map text_of linked.now.keys) (followed_view followed.now)) }
{
    let exports = &followed.code.exports;
    let wanted = exports_of_names(alloc, *linked.hasher(), linked.as_slice(), exports)?;
    let others = unlinked(alloc, linked, exports)?;
    let mut labels = Vec::new(alloc);
    push_export_labels(&wanted, LabelKind::Wanted, &mut labels)?;
    push_export_labels(&others, LabelKind::Other, &mut labels)?;
    push_start_label(followed.code.start, &mut labels)?;
    push_filled_labels(filled.0, filled.1, &mut labels)?;
    Ok(labels)
}

/// Appends exports of a kind.
fn push_export_labels<'l>(
    exports: &[Export<'l>],
    kind: LabelKind,
    labels: &mut Vec<Label<'l>>,
) -> Result<(), AllocError>
    ensures { OnOk result (map label_value labels.new.items ≡ map label_value labels.old.items
        ++ map (export_label kind) (map export_value exports.now)) }
{
    for export in exports {
        labels.push(export_label(export, kind))?;
    }
    Ok(())
}

/// An export of a kind.
fn export_label<'l>(export: &Export<'l>, kind: LabelKind) -> Label<'l>
    ensures { label_value result ≡ export_label kind (export_value export.now) }
{
    Label {
        text: export.name,
        item: export_item(export),
        kind,
    }
}

/// Appends the start function, if there is one.
fn push_start_label(start: Option<u32>, labels: &mut Vec<Label<'_>>) -> Result<(), AllocError>
    ensures { OnOk result (map label_value labels.new.items ≡ map label_value labels.old.items
        ++ option_to_list (option_map start_label start)) }
{
    match start {
        Some(start) => {
            let item = PathItem::Item(Space::Funcs, start as usize);
            labels.push(root_label("start", item))?;
            Ok(())
        }
        None => Ok(()),
    }
}

/// Appends active segments, of which these are the items and the texts.
fn push_filled_labels<'l>(
    items: &[PathItem],
    texts: &'l [String],
    labels: &mut Vec<Label<'l>>,
) -> Result<(), AllocError>
    requires { length texts.now ≡ length items.now }
    ensures { (s : SegmentsValue) → AreFilled s items.now texts.now → OnOk result
        (map label_value labels.new.items ≡ map label_value labels.old.items
        ++ map (segment_label s) items.now) }
{
    for index in 0..items.len() {
        labels.push(root_label(&texts[index], items[index]))?;
    }
    Ok(())
}

/// Where a path begins that begins at no export.
fn root_label<'l>(text: &'l str, item: PathItem) -> Label<'l>
    ensures { label_value result ≡ root_label text.now item }
{
    Label {
        text,
        item,
        kind: LabelKind::Root,
    }
}
