//! Adapters and libraries of a component's world.

use std::borrow::CowSlice;
use wc_encoder::LibraryInfo;
use wc_validate::ValidatedModule;

/// An adapter or a library, as a component has it.
#[derive(Drop)]
pub struct WorldAdapter<'a> {
    /// The bytes: of a library those of the encoder, borrowed; of an adapter those that it is
    /// trimmed to.
    pub wasm: CowSlice<'a, u8>,
    /// The record of the imports and exports of these bytes.
    pub info: ValidatedModule,
    /// How it is instantiated, if it is a library.
    pub library_info: Option<&'a LibraryInfo>,
}
