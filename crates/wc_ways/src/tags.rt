//! The interfaces to which belongs what modules import.

ghost use Rattle.std.specs.Prelude.{◌≡◌, IfOk};
ghost use Rattle.wc_names.specs.Views.{import_view};
ghost use Rattle.wc_read.specs.Imports.{import_value, import_values};
ghost use Rattle.wc_summary.specs.Leads.{tag_view, tags_view};
ghost use Rattle.wc_world.specs.Views.{ComponentWorldView};
ghost use Rattle.wc_ways.specs.Tags.{all_key, interface_of, library_tags, tag_in, tags_in};
ghost use Rattle.wc_ways.specs.Private.AskedKeys.{IsAskedOf};

use crate::asked_keys::AskedKeys;
use crate::originals::recorded_at;
use std::alloc::{AllocError, Global};
use wc_names::Import as Recorded;
use wc_read::Import;
use wc_validate::ImportMap;

/// The interface of each import of a module, if it is recorded and belongs to one.
pub(crate) fn tags_of(
    alloc: Global,
    keys: &AskedKeys<'_>,
    records: &ImportMap,
    imports: &[Import<'_>],
) -> Result<Vec<Option<String>>, AllocError>
    ensures { (w : ComponentWorldView) → IsAskedOf w all_key keys.now
        → IfOk result (λ v. tags_view v.items ≡ tags_in w records.now (import_values imports.now)) }
{
    let mut tags = Vec::new(alloc);
    for import in imports {
        tags.push(tag_of(alloc, keys, records, import)?)?;
    }
    Ok(tags)
}

/// The interface of an import, if it is recorded and belongs to one.
fn tag_of(
    alloc: Global,
    keys: &AskedKeys<'_>,
    records: &ImportMap,
    import: &Import<'_>,
) -> Result<Option<String>, AllocError>
    ensures { (w : ComponentWorldView) → IsAskedOf w all_key keys.now
        → IfOk result (λ t. tag_view t ≡ tag_in w records.now (import_value import.now)) }
{
    match recorded_at(records, import.module, import.name) {
        Some(recorded) => recorded_tag(alloc, keys, recorded),
        None => Ok(None),
    }
}

/// The interface of what is recorded, if it belongs to one.
fn recorded_tag(
    alloc: Global,
    keys: &AskedKeys<'_>,
    recorded: &Recorded,
) -> Result<Option<String>, AllocError>
    ensures { (w : ComponentWorldView) → IsAskedOf w all_key keys.now
        → IfOk result (λ t. tag_view t ≡ interface_of w (import_view recorded.now)) }
{
    match keys.first_interface(recorded) {
        Some(interface) => Ok(Some(String::from_str(alloc, interface)?)),
        None => Ok(None),
    }
}

/// The interface of each import of a library, of which only its imports are known.
pub(crate) fn library_tags(
    alloc: Global,
    keys: &AskedKeys<'_>,
    records: &ImportMap,
) -> Result<Vec<Option<String>>, AllocError>
    ensures { (w : ComponentWorldView) → IsAskedOf w all_key keys.now
        → IfOk result (λ v. tags_view v.items ≡ library_tags w records.now) }
{
    let mut tags = Vec::new(alloc);
    for (_from, _name, recorded) in records.imports() {
        tags.push(recorded_tag(alloc, keys, recorded)?)?;
    }
    Ok(tags)
}
