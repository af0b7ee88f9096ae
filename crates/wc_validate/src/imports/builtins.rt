//! Imports that are canonical built-ins of no interface.

ghost use Rattle.wc_names.specs.Builtins.{IsThreadBuiltin};
ghost use Rattle.wc_validate.specs.Private.Imports.Builtins.{IsAnyBuiltin, IsLaterBuiltin, MeansBuiltin};
ghost use Rattle.wc_validate.specs.Fault.{IsClassifiedBy};

use crate::name_fault::NameFault;
use crate::signatures::{checked, checked_thread};
use std::alloc::Global;
use wc_names::{Import, NameMangling};
use wc_read::{FuncType, ValType};

/// The built-in for threads that a name is of.
fn thread_builtin<N: NameMangling>(
    scheme: &N,
    alloc: Global,
    name: &str,
    ty: &FuncType,
) -> Result<Option<Import>, NameFault>
    ensures { IsClassifiedBy (MeansBuiltin IsThreadBuiltin (N.scheme scheme.now) name.now)
        ty.now result }
{
    match scheme.thread_intrinsic(name) {
        Some(import) => checked_thread(alloc, import, ty),
        None => Ok(None),
    }
}

/// The built-in that a name is of, if it is not one of those that `root_builtin` tries first.
fn later_builtin<N: NameMangling>(
    scheme: &N,
    alloc: Global,
    name: &str,
    ty: &FuncType,
) -> Result<Option<Import>, NameFault>
    ensures { IsClassifiedBy (MeansBuiltin IsLaterBuiltin (N.scheme scheme.now) name.now)
        ty.now result }
{
    if let Some(encoding) = scheme.error_context_new(name) {
        let import = Import::ErrorContextNew { encoding };
        return checked(
            alloc,
            import,
            ty,
            &[ValType::I32, ValType::I32],
            &[ValType::I32],
        );
    }
    if let Some(encoding) = scheme.error_context_debug_message(name) {
        let import = Import::ErrorContextDebugMessage { encoding };
        return checked(alloc, import, ty, &[ValType::I32, ValType::I32], &[]);
    }
    if let Some(slot) = scheme.context_get(name) {
        let import = Import::ContextGet {
            ty: slot.0,
            slot: slot.1,
        };
        return checked(alloc, import, ty, &[], &[slot.0]);
    }
    if let Some(slot) = scheme.context_set(name) {
        let import = Import::ContextSet {
            ty: slot.0,
            slot: slot.1,
        };
        return checked(alloc, import, ty, &[slot.0], &[]);
    }
    thread_builtin(scheme, alloc, name, ty)
}

/// The built-in of no interface that a name is of.
pub(crate) fn root_builtin<N: NameMangling>(
    scheme: &N,
    alloc: Global,
    name: &str,
    ty: &FuncType,
) -> Result<Option<Import>, NameFault>
    ensures { IsClassifiedBy (MeansBuiltin IsAnyBuiltin (N.scheme scheme.now) name.now)
        ty.now result }
{
    if scheme.error_context_drop(name) {
        return checked(alloc, Import::ErrorContextDrop, ty, &[ValType::I32], &[]);
    }
    if scheme.backpressure_inc(name) {
        return checked(alloc, Import::BackpressureInc, ty, &[], &[]);
    }
    if scheme.backpressure_dec(name) {
        return checked(alloc, Import::BackpressureDec, ty, &[], &[]);
    }
    if scheme.waitable_set_new(name) {
        return checked(alloc, Import::WaitableSetNew, ty, &[], &[ValType::I32]);
    }
    if let Some(pointer) = scheme.waitable_set_wait(name) {
        return checked(
            alloc,
            Import::WaitableSetWait,
            ty,
            &[ValType::I32, pointer],
            &[ValType::I32],
        );
    }
    if let Some(pointer) = scheme.waitable_set_poll(name) {
        return checked(
            alloc,
            Import::WaitableSetPoll,
            ty,
            &[ValType::I32, pointer],
            &[ValType::I32],
        );
    }
    if scheme.waitable_set_drop(name) {
        return checked(alloc, Import::WaitableSetDrop, ty, &[ValType::I32], &[]);
    }
    if scheme.waitable_join(name) {
        return checked(
            alloc,
            Import::WaitableJoin,
            ty,
            &[ValType::I32, ValType::I32],
            &[],
        );
    }
    if scheme.subtask_drop(name) {
        return checked(alloc, Import::SubtaskDrop, ty, &[ValType::I32], &[]);
    }
    if let Some(lowered) = scheme.subtask_cancel(name) {
        let async_ = lowered.async_lowered;
        return checked(
            alloc,
            Import::SubtaskCancel { async_ },
            ty,
            &[ValType::I32],
            &[ValType::I32],
        );
    }
    later_builtin(scheme, alloc, name, ty)
}
