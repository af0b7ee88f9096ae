//! The scope in which names are looked up.

ghost use Rattle.std.specs.Prelude.{IfOk};
ghost use Rattle.wc_names.specs.Imports.{NameScope};
ghost use Rattle.wc_names.specs.Interfaces.{InterfaceTexts, interface_texts};
ghost use Rattle.wc_validate.specs.NameScope.{AreInterfacesBy, AreInterfacesOf, HasItsWorld, name_scope_of};

use crate::names::Names;
use std::alloc::{AllocError, Global};
use wc_names::{InterfaceNames, Legacy, NameIndexes, Standard};

/// How many look-ups by walks over a world's keys take about as long as it takes to index them.
pub(crate) const FEW_LOOKUPS: usize = 64;

/// The interfaces that a world imports and exports, by the texts of one scheme; `None` where they are not indexed.
#[derive(Drop)]
pub(crate) struct SchemeInterfaces<'a> {
    pub(crate) imports: Option<InterfaceNames<'a>>,
    pub(crate) exports: Option<InterfaceNames<'a>>,
}

/// The interfaces that a world imports and exports, by the texts of both schemes.
#[derive(Drop)]
pub(crate) struct Interfaces<'a> {
    pub(crate) standard: SchemeInterfaces<'a>,
    pub(crate) legacy: SchemeInterfaces<'a>,
}

/// The scope of names by one scheme, with the interfaces by its texts.
#[derive(Clone, Copy)]
pub(crate) struct Lookup<'a> {
    pub(crate) names: &'a Names<'a>,
    pub(crate) interfaces: &'a SchemeInterfaces<'a>,
}

impl<'a> SchemeInterfaces<'a> {
    /// The interfaces of any world, not indexed.
    fn unindexed() -> SchemeInterfaces<'a>
        ensures { (texts : InterfaceTexts) (e : NameScope) → AreInterfacesBy texts e result }
    {
        SchemeInterfaces {
            imports: None,
            exports: None,
        }
    }

    /// The interfaces of the world, indexed.
    fn indexed<N: NameIndexes>(
        scheme: &N,
        alloc: Global,
        names: &Names<'a>,
    ) -> Result<SchemeInterfaces<'a>, AllocError>
        requires { HasItsWorld (name_scope_of names.now) }
        ensures { IfOk result
            (AreInterfacesBy (interface_texts (N.scheme scheme.now)) (name_scope_of names.now)) }
    {
        names.resolve.well_formedness();
        let imports = scheme.interface_names(alloc, names.resolve, &names.world.imports)?;
        let exports = scheme.interface_names(alloc, names.resolve, &names.world.exports)?;
        Ok(SchemeInterfaces {
            imports: Some(imports),
            exports: Some(exports),
        })
    }
}

impl<'a> Interfaces<'a> {
    /// The interfaces of the world, indexed if more than a few are looked up.
    pub(crate) fn new(
        alloc: Global,
        names: &Names<'a>,
        lookups: usize,
    ) -> Result<Interfaces<'a>, AllocError>
        requires { HasItsWorld (name_scope_of names.now) }
        ensures { IfOk result (AreInterfacesOf (name_scope_of names.now)) }
    {
        if lookups <= FEW_LOOKUPS {
            return Ok(Interfaces {
                standard: SchemeInterfaces::unindexed(),
                legacy: SchemeInterfaces::unindexed(),
            });
        }
        let legacy = Legacy {
            task_hook: names.task_hook,
        };
        let by_standard = SchemeInterfaces::indexed(&Standard, alloc, names)?;
        let by_legacy = SchemeInterfaces::indexed(&legacy, alloc, names)?;
        Ok(Interfaces {
            standard: by_standard,
            legacy: by_legacy,
        })
    }
}
