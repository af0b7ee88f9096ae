//! An example of `wc_names`.

ghost use Rattle.std.specs.Prelude.{[], ℕ, List, option_copied};
ghost use Rattle.wc_names.specs.Finds.{Finds};
ghost use Rattle.wc_names.specs.Mangling.{NamesResource, legacy, resource_drop};

use wc_names::{Legacy, NameMangling};

/// The resource that an import of this name drops, by the legacy scheme.
pub(crate) fn dropped_resource(name: &str) -> Option<&str>
    ensures { Finds (option_copied result)
        (λ (r : List ℕ). NamesResource (legacy []) resource_drop r name.now) }
{
    let scheme = Legacy { task_hook: "" };
    scheme.resource_drop_name(name)
}
