//! Components inside a component.

ghost use Rattle.std.specs.Prelude.{◌≡◌, ◌++◌, ◌↔◌, IsTrue, IfOk, OnOk, map};
ghost use Rattle.std.specs.List.{list_any};
ghost use Rattle.wc_component_file.specs.Frames.{frame_value, frame_values, is_core_module};
ghost use Rattle.wc_component_file.specs.Inside.{Counts, HasCoreModules, IsInside};
ghost use Rattle.wc_component_file.specs.Private.Inside.{IsCutOf, components_of};

use crate::fault::FileFault;
use crate::frames::{CORE_MODULE_ID, Frame, frames};
use std::alloc::{AllocError, Global};

/// The id of a section that is a component.
const COMPONENT_ID: u8 = 4;

/// How many of the sections are components with core modules, at any depth.
pub fn count_inside(alloc: Global, frames: &[Frame<'_>]) -> Result<usize, AllocError>
    ensures { IfOk result (Counts IsInside (frame_values frames.now)) }
{
    let mut count = 0;
    for frame in frames {
        if is_inside(alloc, frame)? {
            count += 1;
        }
    }
    Ok(count)
}

/// Whether a section is a component with core modules.
fn is_inside(alloc: Global, frame: &Frame<'_>) -> Result<bool, AllocError>
    ensures { IfOk result (λ b. IsTrue b ↔ IsInside (frame_value frame.now)) }
{
    if frame.section.id != COMPONENT_ID {
        return Ok(false);
    }
    has_core_modules(alloc, frame.section.content)
}

/// Whether the bytes are a component with core modules, at any depth. Components inside wait in a list, since their
/// depth may be any.
fn has_core_modules(alloc: Global, bytes: &[u8]) -> Result<bool, AllocError>
    ensures { IfOk result (λ b. IsTrue b ↔ HasCoreModules bytes.now) }
{
    let mut waiting = Vec::new(alloc);
    waiting.push(bytes)?;
    while let Some(component) = waiting.pop() {
        if let Some(frames) = frames_in(alloc, component)? {
            if has_module(&frames) {
                return Ok(true);
            }
            add_components(&mut waiting, &frames)?;
        }
    }
    Ok(false)
}

/// The sections of a component; `None` of bytes that are none.
fn frames_in(alloc: Global, bytes: &[u8]) -> Result<Option<Vec<Frame<'_>>>, AllocError>
    ensures { IfOk result (IsCutOf bytes.now) }
{
    match frames(alloc, bytes) {
        Ok(frames) => Ok(Some(frames)),
        Err(refusal) => match refusal.fault {
            FileFault::Memory => Err(AllocError),
            _ => Ok(None),
        },
    }
}

/// Whether one of the sections is a core module.
fn has_module(frames: &[Frame<'_>]) -> bool
    ensures { result ≡ list_any (λ f. is_core_module (frame_value f)) frames.now }
{
    frames
        .iter()
        .any(|frame| frame.section.id == CORE_MODULE_ID)
}

/// Appends the sections that are components.
fn add_components<'a>(waiting: &mut Vec<&'a [u8]>, frames: &[Frame<'a>]) -> Result<(), AllocError>
    ensures { OnOk result (map (λ b. b.now) waiting.new.items
        ≡ map (λ b. b.now) waiting.old.items
        ++ components_of (frame_values frames.now)) }
{
    for frame in frames {
        if frame.section.id == COMPONENT_ID {
            waiting.push(frame.section.content)?;
        }
    }
    Ok(())
}
