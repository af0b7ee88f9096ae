//! The core modules of a component's file that are not its main module, as they are given, and as they are read.

ghost use Rattle.wc_read.specs.Modules.{module_value};
ghost use Rattle.wc_import_paths.specs.Followed.{followed_view};
ghost use Rattle.wc_import_paths.specs.Following.{graph_in};
ghost use Rattle.wc_import_paths.specs.Rows.{AreRowsFor, bare_graph};

use wc_import_paths::{Followed, ModuleRows};
use wc_read::Module;

/// The kind of a core module, as the main module sees it.
#[derive(Clone, Copy, Debug, PartialEq, Eq)]
pub enum CoreKind {
    /// It serves its name: the main module's imports from this name are its exports.
    Adapter,
    /// It serves no name.
    Other,
    /// A library, of which only its imports are known.
    Library,
}

/// A core module of a component's file.
#[derive(Clone, Copy)]
pub struct CoreInput<'r> {
    /// Its position among the component's core modules.
    pub index: usize,
    /// Its name.
    pub name: &'r str,
    /// Its kind.
    pub kind: CoreKind,
    /// Its bytes.
    pub bytes: &'r [u8],
    /// Where its first byte lies in the component's file; 0 if it is a file of its own.
    pub offset: usize,
}

/// A core module that is followed from all its exports.
#[derive(Drop)]
pub struct FollowedCore<'r> {
    /// Its name.
    pub name: &'r str,
    /// Whether it serves its name.
    pub serves: bool,
    /// Its module, with the paths in it.
    pub followed: Followed<'r>,
    ghost has_rows: { AreRowsFor (graph_in (followed_view followed)) followed.rows },
}

/// A library, of which only its imports are known.
#[derive(Drop)]
pub struct CoreLibrary<'r> {
    /// Its name.
    pub name: &'r str,
    /// The bytes of its module.
    pub bytes: &'r [u8],
    /// Its module.
    pub code: Module<'r>,
    /// Its rows: the items that each item names.
    pub rows: ModuleRows,
    ghost has_rows: { AreRowsFor (bare_graph (module_value code)) rows },
}

/// A core module of a component's file, as it is read.
#[derive(Drop)]
pub enum CoreModule<'r> {
    /// It is followed.
    Followed(FollowedCore<'r>),
    /// It is a library.
    Unfollowed(CoreLibrary<'r>),
}
