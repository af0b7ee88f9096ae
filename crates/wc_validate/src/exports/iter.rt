//! The exports and the reallocs of an `ExportMap`, one after another.

use indexmap::map;
use wc_names::Export;

/// The exports of an `ExportMap`, each with its name, in order.
#[derive(Drop)]
pub struct Exports<'a> {
    pub(crate) names: map::Iter<'a, String, Export>,
}

impl<'a> Iterator for Exports<'a> {
    type Item = (&'a str, &'a Export);

    ghost use Rattle.std.specs.Iterator.{YieldsFirstBy, item_count};
    ghost use Rattle.wc_validate.specs.Exports.Iter.{export_shown, exports_left};

    ghost next_gives = { YieldsFirstBy export_shown exports_left };

    ghost remaining = { item_count exports_left };

    fn next(&mut self) -> Option<(&'a str, &'a Export)> {
        let (name, export) = self.names.next()?;
        Some((name.as_str(), export))
    }
}

/// The names of the reallocs of an `ExportMap` that a canonical option can name, in order.
#[derive(Drop)]
pub struct Reallocs<'a> {
    pub(crate) names: map::Iter<'a, String, Export>,
}

impl<'a> Iterator for Reallocs<'a> {
    type Item = &'a str;

    ghost use Rattle.std.specs.Iterator.{YieldsFirstBy, item_count};
    ghost use Rattle.wc_validate.specs.Exports.Iter.{reallocs_left};

    ghost next_gives = { YieldsFirstBy (λ name. name.now) reallocs_left };

    ghost remaining = { item_count reallocs_left };

    fn next(&mut self) -> Option<&'a str> {
        loop {
            let (name, export) = self.names.next()?;
            match export {
                Export::GeneralPurposeRealloc
                | Export::GeneralPurposeExportRealloc
                | Export::GeneralPurposeImportRealloc => return Some(name.as_str()),
                _ => {}
            }
        }
    }
}
