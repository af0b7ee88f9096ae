//! Modules, as they are read.

use crate::exports::Export;
use crate::items::{self, Func, Memory, Table};
use crate::types::{FuncType, Import};
use wc_maps::OrderedMap;

/// A module (WebAssembly core specification, 2.5). Names, bodies and initialisers are slices of the bytes that
/// it was read from; bodies are read by `read_body`, initialisers by `read_init`.
#[derive(Debug, Drop)]
pub struct Module<'a> {
    /// The function types, by their indices (2.5.2).
    pub types: Vec<FuncType>,
    /// All imports, in the order of the file (2.5.11).
    pub imports: Vec<Import<'a>>,
    /// The functions, by their indices: imported ones, and then defined ones (2.5.3). So are the other spaces.
    pub funcs: Vec<Func<'a>>,
    /// The tables (2.5.4).
    pub tables: Vec<Table<'a>>,
    /// The memories (2.5.5).
    pub memories: Vec<Memory<'a>>,
    /// The globals (2.5.6).
    pub globals: Vec<items::Global<'a>>,
    /// The exports, in the order of the file (2.5.10).
    pub exports: Vec<Export<'a>>,
    /// The index of the function that starts the module; `None` where there is none (2.5.9).
    pub start: Option<u32>,
    /// Names of globals by their indices, out of name sections (7.4.1, and the proposal of extended name sections). An
    /// index need not be that of a global.
    pub global_names: OrderedMap<u32, &'a str>,
    /// The content after its name of the last producers section that reads (tool conventions); `None` where there is
    /// none.
    pub producers: Option<&'a [u8]>,
    /// Which of the sections of elements (9), data counts (12) and data (11) there are, in the order of the file.
    pub ids: Vec<u8>,
}
