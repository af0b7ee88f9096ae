//! The records of a module's imports.

ghost use Rattle.std.specs.Prelude.{◌≡◌};
ghost use Rattle.std.specs.Option.{option_map};
ghost use Rattle.wc_names.specs.Views.{import_view};
ghost use Rattle.wc_validate.specs.Imports.Instances.{instance_view};
ghost use Rattle.wc_ways.specs.Originals.{recorded_at, recorded_in};

use wc_names::Import as Recorded;
use wc_validate::{ImportInstance, ImportMap};

/// The record of an import, by its module and its name.
pub(crate) fn recorded_at<'a>(
    imports: &'a ImportMap,
    from: &str,
    name: &str,
) -> Option<&'a Recorded>
    ensures { option_map (λ i. import_view i.now) result
        ≡ recorded_at imports.now from.now name.now }
{
    match imports.modules().get(from) {
        Some(instance) => recorded_in(instance, name),
        None => None,
    }
}

/// The record of an import of a module, by its name.
fn recorded_in<'a>(instance: &'a ImportInstance, name: &str) -> Option<&'a Recorded>
    ensures { option_map (λ i. import_view i.now) result
        ≡ recorded_in name.now (instance_view instance.now) }
{
    match instance {
        ImportInstance::Names(names) => names.get(name),
        ImportInstance::Whole(_) => None,
    }
}
