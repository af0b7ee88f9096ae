//! Where a path begins: at an export, at the start function, or at an active segment.

ghost use Rattle.std.specs.Prelude.{◌≡◌};
ghost use Rattle.wc_segments.specs.Modes.{mode_value};
ghost use Rattle.wc_segments.specs.Segments.{segments_value};
ghost use Rattle.wc_paths.specs.PathRoots.{filled_by, filled_memory, filled_table, root_view};

use crate::items::PathItem;
use wc_segments::{SegmentMode, Segments};

/// Where a path begins.
#[derive(Clone, Copy, Debug, PartialEq, Eq)]
pub enum PathRoot<'a> {
    /// At the export of this name.
    Export(&'a str),
    /// At the start function.
    Start,
    /// At an active element segment, which fills the table of this index.
    FillsTable(u32),
    /// At an active data segment, which fills the memory of this index.
    FillsMemory(u32),
}

/// The table or the memory that an active segment fills.
pub fn filled_by(segments: &Segments<'_>, item: PathItem) -> PathRoot<'static>
    ensures { root_view result ≡ filled_by (segments_value segments.now) item }
{
    match item {
        PathItem::Elements(index) => match segments.elements.get(index) {
            Some(segment) => filled_table(&segment.mode),
            None => PathRoot::Start,
        },
        PathItem::Data(index) => match segments.data.get(index) {
            Some(segment) => filled_memory(&segment.mode),
            None => PathRoot::Start,
        },
        PathItem::Item(_, _) => PathRoot::Start,
    }
}

fn filled_table(mode: &SegmentMode<'_>) -> PathRoot<'static>
    ensures { root_view result ≡ filled_table (mode_value mode.now) }
{
    match mode {
        SegmentMode::Active { index, .. } => PathRoot::FillsTable(*index),
        SegmentMode::Passive => PathRoot::Start,
        SegmentMode::Declarative => PathRoot::Start,
    }
}

fn filled_memory(mode: &SegmentMode<'_>) -> PathRoot<'static>
    ensures { root_view result ≡ filled_memory (mode_value mode.now) }
{
    match mode {
        SegmentMode::Active { index, .. } => PathRoot::FillsMemory(*index),
        SegmentMode::Passive => PathRoot::Start,
        SegmentMode::Declarative => PathRoot::Start,
    }
}
