//! The texts of the faults of calls on bytes, by the numbers that the calls answer.

ghost use Rattle.std.specs.Prelude.{◌≡◌, ◌≢◌, ◌⊎◌, ℕ, List, IfNone, IfSome, false};
ghost use Rattle.wc_dedupe.specs.Fault.{dedupe_fault_number};
ghost use Rattle.wc_dedupe.specs.declared.fault.DedupeFault.{DedupeFault as dedupe_fault};
ghost use Rattle.wc_gc.specs.Fault.{gc_fault_number};
ghost use Rattle.wc_gc.specs.declared.fault.GcFault.{GcFault as gc_fault};
ghost use Rattle.wc_read.specs.Fault.{read_fault_number};
ghost use Rattle.wc_read.specs.declared.fault.ReadFault.{ReadFault as read_fault};
ghost use Rattle.wc_texts.specs.FaultNumbers.{carrying};
ghost use Rattle.wc_calls.specs.Answers.{AreOthersZero, IsPut, IsTooLong, done, no_such_fault, out_of_memory, too_small};
ghost use Rattle.wc_calls.specs.FaultTexts.{IsDedupeText, IsFaultText, IsReadText, IsTrimText, unnamed_text};
ghost use Rattle.wc_calls.specs.MemoryFaults.{dedupe_is_memory, gc_is_memory, read_is_memory};

use crate::answers::{Answer, MEMORY, NO_SUCH_FAULT, answer_without_bytes, put};
use std::alloc::Global;
use wc_dedupe::DedupeFault;
use wc_gc::GcFault;
use wc_read::ReadFault;
use wc_texts::{CARRIED, FaultText, text_of};

/// The call `dedupe`.
pub const DEDUPE_CALL: u32 = 0;

/// The call `trim`.
pub const TRIM_CALL: u32 = 1;

/// The call `why`.
pub const WHY_CALL: u32 = 2;

/// The call `scan`.
pub const SCAN_CALL: u32 = 3;

/// The call `paths`.
pub const PATHS_CALL: u32 = 4;

/// The fault of reading that has this number.
fn read_fault(number: u32) -> Option<ReadFault>
    ensures number { IfSome result (λ f. read_fault_number f ≡ number) }
    ensures no_memory { IfSome result (λ f. read_is_memory f ≡ false) }
    ensures none { IfNone result ((f : read_fault) → read_is_memory f ≡ false
        → read_fault_number f ≢ number) }
{
    match number {
        1 => Some(ReadFault::NotWasm),
        2 => Some(ReadFault::Component),
        3 => Some(ReadFault::Truncated),
        4 => Some(ReadFault::BadNumber),
        5 => Some(ReadFault::BadName),
        6 => Some(ReadFault::SectionOrder),
        7 => Some(ReadFault::SectionSize),
        8 => Some(ReadFault::UnknownSection),
        9 => Some(ReadFault::BadType),
        10 => Some(ReadFault::BadLimits),
        11 => Some(ReadFault::BadIndex),
        12 => Some(ReadFault::DuplicateExport),
        13 => Some(ReadFault::BadInitialiser),
        14 => Some(ReadFault::CountMismatch),
        15 => Some(ReadFault::UnknownOperator),
        16 => Some(ReadFault::BadNesting),
        17 => Some(ReadFault::BadStart),
        18 => Some(ReadFault::TooLarge),
        _ => None,
    }
}

/// The fault of reading that is carried by a fault of this number, whose own number is 1.
fn carried_fault(number: u32) -> Option<ReadFault>
    ensures number { IfSome result (λ f. carrying 1 (read_fault_number f) ≡ number) }
    ensures no_memory { IfSome result (λ f. read_is_memory f ≡ false) }
    ensures none { IfNone result ((f : read_fault) → read_is_memory f ≡ false
        → carrying 1 (read_fault_number f) ≢ number) }
{
    if number % CARRIED == 1 {
        read_fault(number / CARRIED)
    } else {
        None
    }
}

/// The fault of renaming that has this number.
fn dedupe_fault(number: u32) -> Option<DedupeFault>
    ensures number { IfSome result (λ f. dedupe_fault_number f ≡ number) }
    ensures no_memory { IfSome result (λ f. dedupe_is_memory f ≡ false) }
    ensures none { IfNone result ((f : dedupe_fault) → dedupe_is_memory f ≡ false
        → dedupe_fault_number f ≢ number) }
{
    if number == DedupeFault::TooLarge.number() {
        return Some(DedupeFault::TooLarge);
    }
    match carried_fault(number) {
        Some(fault) => Some(DedupeFault::Read(fault)),
        None => None,
    }
}

/// The fault of trimming that has this number. A name that it carries is empty.
fn trim_fault(alloc: Global, number: u32) -> Option<GcFault>
    ensures number { IfSome result (λ f. gc_fault_number f ≡ number) }
    ensures no_memory { IfSome result (λ f. gc_is_memory f ≡ false) }
    ensures none { IfNone result ((f : gc_fault) → gc_is_memory f ≡ false
        → gc_fault_number f ≢ number) }
{
    match number {
        2 => Some(GcFault::MissingExport(String::new(alloc))),
        3 => Some(GcFault::UnsupportedSection),
        4 => Some(GcFault::LiveBody),
        5 => Some(GcFault::SeveralNamed),
        6 => Some(GcFault::LiveTable),
        7 => Some(GcFault::SeveralMemories),
        8 => Some(GcFault::LocalMemory),
        9 => Some(GcFault::ReallocType),
        10 => Some(GcFault::ReallocMemory),
        11 => Some(GcFault::TooLarge),
        _ => match carried_fault(number) {
            Some(fault) => Some(GcFault::Read(fault)),
            None => None,
        },
    }
}

/// Writes the text of a fault.
fn put_text<F: FaultText>(alloc: Global, fault: &F, out: &mut [u8]) -> Answer
    ensures done { result.status ≡ done
        → IsPut (λ text. text ≡ F.text fault.now) result.length out.old out.new }
    ensures too_small { result.status ≡ too_small
        → IsTooLong (λ text. text ≡ F.text fault.now) result.length out.old }
    ensures unchanged { result.status ≢ done → out.new ≡ out.old }
    ensures statuses { (result.status ≡ done) ⊎ (result.status ≡ too_small)
        ⊎ (result.status ≡ out_of_memory) }
    ensures no_module { result.module_length ≡ 0 }
    ensures others { AreOthersZero result }
{
    match text_of(alloc, fault) {
        Ok(text) => put(&[], text.as_bytes(), out),
        Err(_) => answer_without_bytes(MEMORY),
    }
}

/// Writes the text of a fault of trimming, without a name.
fn put_trim_text(alloc: Global, fault: &GcFault, out: &mut [u8]) -> Answer
    ensures done { result.status ≡ done
        → IsPut (λ text. text ≡ unnamed_text fault.now) result.length out.old out.new }
    ensures too_small { result.status ≡ too_small
        → IsTooLong (λ text. text ≡ unnamed_text fault.now) result.length out.old }
    ensures unchanged { result.status ≢ done → out.new ≡ out.old }
    ensures statuses { (result.status ≡ done) ⊎ (result.status ≡ too_small)
        ⊎ (result.status ≡ out_of_memory) }
    ensures no_module { result.module_length ≡ 0 }
    ensures others { AreOthersZero result }
{
    match fault {
        GcFault::MissingExport(_) => put(&[], b"adapter module does not have export", out),
        _ => put_text(alloc, fault, out),
    }
}

/// Writes the text of the fault of renaming that has a number.
fn dedupe_text(alloc: Global, number: u32, out: &mut [u8]) -> Answer
    ensures done { result.status ≡ done
        → IsPut (IsDedupeText number) result.length out.old out.new }
    ensures too_small { result.status ≡ too_small
        → IsTooLong (IsDedupeText number) result.length out.old }
    ensures unknown { result.status ≡ no_such_fault
        → (text : List ℕ) → ¬ (IsDedupeText number text) }
    ensures unchanged { result.status ≢ done → out.new ≡ out.old }
    ensures statuses { (result.status ≡ done) ⊎ (result.status ≡ too_small)
        ⊎ (result.status ≡ out_of_memory) ⊎ (result.status ≡ no_such_fault) }
    ensures no_module { result.module_length ≡ 0 }
    ensures others { AreOthersZero result }
{
    match dedupe_fault(number) {
        Some(fault) => put_text(alloc, &fault, out),
        None => answer_without_bytes(NO_SUCH_FAULT),
    }
}

/// Writes the text of the fault of trimming that has a number, without a name.
fn trim_text(alloc: Global, number: u32, out: &mut [u8]) -> Answer
    ensures done { result.status ≡ done
        → IsPut (IsTrimText number) result.length out.old out.new }
    ensures too_small { result.status ≡ too_small
        → IsTooLong (IsTrimText number) result.length out.old }
    ensures unknown { result.status ≡ no_such_fault
        → (text : List ℕ) → ¬ (IsTrimText number text) }
    ensures unchanged { result.status ≢ done → out.new ≡ out.old }
    ensures statuses { (result.status ≡ done) ⊎ (result.status ≡ too_small)
        ⊎ (result.status ≡ out_of_memory) ⊎ (result.status ≡ no_such_fault) }
    ensures no_module { result.module_length ≡ 0 }
    ensures others { AreOthersZero result }
{
    match trim_fault(alloc, number) {
        Some(fault) => put_trim_text(alloc, &fault, out),
        None => answer_without_bytes(NO_SUCH_FAULT),
    }
}

/// Writes the text of the fault of reading that has a number.
fn read_text(alloc: Global, number: u32, out: &mut [u8]) -> Answer
    ensures done { result.status ≡ done → IsPut (IsReadText number) result.length out.old out.new }
    ensures too_small { result.status ≡ too_small
        → IsTooLong (IsReadText number) result.length out.old }
    ensures unknown { result.status ≡ no_such_fault
        → (text : List ℕ) → ¬ (IsReadText number text) }
    ensures unchanged { result.status ≢ done → out.new ≡ out.old }
    ensures statuses { (result.status ≡ done) ⊎ (result.status ≡ too_small)
        ⊎ (result.status ≡ out_of_memory) ⊎ (result.status ≡ no_such_fault) }
    ensures no_module { result.module_length ≡ 0 }
    ensures others { AreOthersZero result }
{
    match read_fault(number) {
        Some(fault) => put_text(alloc, &fault, out),
        None => answer_without_bytes(NO_SUCH_FAULT),
    }
}

/// Writes the text of a fault of a call on bytes, found by the number that the call answers. `call` is `DEDUPE_CALL`,
/// `TRIM_CALL`, `WHY_CALL`, `SCAN_CALL` or `PATHS_CALL`. The text is as `Display` of the fault prints it, with the
/// text of a fault that it carries: `Read: NotWasm`. It leaves out a name that the fault carries: the call answers
/// the index of this name among the passed names.
///
/// - `DONE`: `out` begins with the text, `length` bytes of UTF-8.
/// - `TOO_SMALL`: the text has `length` bytes, and `out` has fewer.
/// - `NO_SUCH_FAULT`: the call has no fault with this number, or no call has the number `call`.
/// - `MEMORY`: an allocation failed.
///
/// No other status comes. `out` changes only with `DONE`, and only in its first `length` bytes. Numbers of the answer
/// that are not mentioned here are 0.
pub fn fault_text(alloc: Global, call: u32, number: u32, out: &mut [u8]) -> Answer
    ensures done { result.status ≡ done
        → IsPut (IsFaultText call number) result.length out.old out.new }
    ensures too_small { result.status ≡ too_small
        → IsTooLong (IsFaultText call number) result.length out.old }
    ensures unknown { result.status ≡ no_such_fault
        → (text : List ℕ) → ¬ (IsFaultText call number text) }
    ensures unchanged { result.status ≢ done → out.new ≡ out.old }
    ensures statuses { (result.status ≡ done) ⊎ (result.status ≡ too_small)
        ⊎ (result.status ≡ out_of_memory) ⊎ (result.status ≡ no_such_fault) }
    ensures no_module { result.module_length ≡ 0 }
    ensures others { AreOthersZero result }
{
    match call {
        DEDUPE_CALL => dedupe_text(alloc, number, out),
        TRIM_CALL => trim_text(alloc, number, out),
        WHY_CALL => trim_text(alloc, number, out),
        SCAN_CALL => read_text(alloc, number, out),
        PATHS_CALL => trim_text(alloc, number, out),
        _ => answer_without_bytes(NO_SUCH_FAULT),
    }
}
