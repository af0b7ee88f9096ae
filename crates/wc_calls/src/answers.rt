//! Answers in a buffer that the caller passes.

ghost use Rattle.std.specs.Prelude.{◌≡◌, ◌≢◌, ◌++◌, ◌<◌, ◌⊎◌, length};
ghost use Rattle.wc_calls.specs.Answers.{HasNoBytes, HasNoFault, IsFaultPut, IsFront, done, too_small};

/// The buffer begins with the result, and the rest of the buffer is unchanged.
pub const DONE: u32 = 0;

/// No result: the answer has the number of the fault. The buffer is unchanged, or begins with details of the fault
/// (`trim`, `world`).
pub const FAULT: u32 = 1;

/// The buffer is too small for the result, and is unchanged.
pub const TOO_SMALL: u32 = 2;

/// The result would be the input itself. The buffer is unchanged.
pub const SAME: u32 = 3;

/// The call has no result for these arguments. The buffer is unchanged.
pub const BAD_ARGUMENT: u32 = 4;

/// An allocation failed. The buffer is unchanged.
pub const MEMORY: u32 = 5;

/// No fault of the call has the number (`fault_text`). The buffer is unchanged.
pub const NO_SUCH_FAULT: u32 = 6;

/// The answer of a call.
#[derive(Clone, Copy, Debug, PartialEq, Eq)]
#[repr(C)]
pub struct Answer {
    /// Which kind of answer it is: 0 to 6, as the constants say.
    pub status: u32,
    /// With `FAULT` the number of the fault; otherwise 0.
    pub fault: u32,
    /// With `DONE` and `TOO_SMALL` the length of the result in bytes. With `FAULT` the length of the fault's details
    /// in bytes; for a call on a message, the fault's text is counted too. Otherwise 0.
    pub length: usize,
    /// How many of these bytes are modules; they are the first ones.
    pub module_length: usize,
    /// With `FAULT` of `trim`, if an export is missing, the index of its name among the passed names. With `FAULT` of
    /// a call on a message, the length of the fault's text in bytes; the details follow the text. Otherwise 0.
    pub position: usize,
}

/// An answer that is its status alone.
pub fn answer_without_bytes(status: u32) -> Answer
    ensures status { result.status ≡ status }
    ensures no_fault { HasNoFault result }
    ensures no_bytes { HasNoBytes result }
{
    Answer {
        status,
        fault: 0,
        length: 0,
        module_length: 0,
        position: 0,
    }
}

/// Writes a module, and then the rest of the result, to the front of the buffer. If the buffer is too small, nothing
/// is written.
pub fn put(wasm: &[u8], others: &[u8], out: &mut [u8]) -> Answer
    ensures length { result.length ≡ length (wasm.now ++ others.now) }
    ensures module_length { result.module_length ≡ length wasm.now }
    ensures done { result.status ≡ done → IsFront (wasm.now ++ others.now) out.old out.new }
    ensures too_small { result.status ≡ too_small → length out.old < result.length }
    ensures unchanged { result.status ≢ done → out.new ≡ out.old }
    ensures statuses { (result.status ≡ done) ⊎ (result.status ≡ too_small) }
    ensures no_fault { HasNoFault result }
    ensures no_bytes { result.status ≢ done → result.status ≢ too_small → HasNoBytes result }
{
    let length = wasm.len() + others.len();
    if out.len() < length {
        return Answer {
            status: TOO_SMALL,
            fault: 0,
            length,
            module_length: wasm.len(),
            position: 0,
        };
    }
    let (front, rest) = out.split_at_mut(wasm.len());
    front.copy_from_slice(wasm);
    let (front, _rest) = rest.split_at_mut(others.len());
    front.copy_from_slice(others);
    Answer {
        status: DONE,
        fault: 0,
        length,
        module_length: wasm.len(),
        position: 0,
    }
}

/// Answers a fault by its number and a position, and writes its details to the front of the buffer, if they fit.
pub fn put_refusal(fault: u32, position: usize, place: &[u8], out: &mut [u8]) -> Answer
    ensures { IsFaultPut fault position place.now result out.old out.new }
{
    let answer = put(&[], place, out);
    Answer {
        status: FAULT,
        fault,
        length: answer.length,
        module_length: 0,
        position,
    }
}
