//! The single imports of a map, one after another.

use crate::imports::instances::ImportInstance;
use indexmap::map;
use wc_names::Import;

/// The single imports of an `ImportMap`, each by its module and its name: module by module, and of each module in
/// order. Modules that stand for another one are passed over.
#[derive(Drop)]
pub struct Imports<'a> {
    pub(crate) modules: map::Iter<'a, String, ImportInstance>,
    pub(crate) module_name: &'a str,
    pub(crate) names: Option<map::Iter<'a, String, Import>>,
}

impl<'a> Iterator for Imports<'a> {
    type Item = (&'a str, &'a str, &'a Import);

    ghost use Rattle.std.specs.Iterator.{YieldsFirstBy, item_count};
    ghost use Rattle.wc_validate.specs.Imports.Iter.{import_shown, imports_left};

    ghost next_gives = { YieldsFirstBy import_shown imports_left };

    ghost remaining = { item_count imports_left };

    fn next(&mut self) -> Option<(&'a str, &'a str, &'a Import)> {
        loop {
            if let Some(mut names) = self.names.take() {
                if let Some((name, import)) = names.next() {
                    self.names = Some(names);
                    return Some((self.module_name, name.as_str(), import));
                }
            }
            let (module_name, instance) = self.modules.next()?;
            if let ImportInstance::Names(names) = instance {
                self.module_name = module_name.as_str();
                self.names = Some(names.iter());
            }
        }
    }
}
