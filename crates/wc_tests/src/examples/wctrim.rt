//! An example of `wctrim_command`.

ghost use Rattle.std.specs.Prelude.{ℕ, IfNone, IfOk, IfSome, List, Option};
ghost use Rattle.std.specs.Prelude.{map, string_bytes};
ghost use Rattle.wctrim_command.specs.Command.{CommandView, IsCommandLine};
ghost use Rattle.wctrim_command.specs.Execution.{Runs};

use std::alloc::Global;
use wc_maps::Seed;
use wc_write::WriterSink;
use wctrim_command::{ToolFault, execute, parse};

/// The lines that a command prints for the bytes of a module. `None` where the arguments are
/// those of no command. `seed`: the seed of the maps that are made, which a program draws by
/// `Seed::drawn(&rt)`.
pub(crate) fn printed_lines(
    alloc: Global,
    seed: Seed,
    arguments: &[String],
    input: &[u8],
) -> Result<Option<Vec<u8>>, ToolFault>
    ensures lines { IfOk result (λ answer. IfSome answer (λ lines.
        (c : CommandView) × (written : Option (List ℕ))
        × IsCommandLine (map string_bytes arguments.now) c
        × Runs c input.now lines.items written)) }
    ensures usage { IfOk result (λ answer. IfNone answer
        ((c : CommandView) → ¬ (IsCommandLine (map string_bytes arguments.now) c))) }
{
    let Ok(command) = parse(arguments) else {
        return Ok(None);
    };
    let mut sink = WriterSink::new(Vec::new(alloc));
    execute(alloc, seed, &command, input, &mut sink)?;
    Ok(Some(sink.into_inner()))
}
