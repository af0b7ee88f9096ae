//! An example of `wc_plan`.

ghost use Rattle.std.specs.Prelude.{◌≡◌, IfOk};
ghost use Rattle.wc_plan.specs.Lines.{plan_text};
ghost use Rattle.wc_plan.specs.Plans.{plan_of};
ghost use Rattle.wc_world.specs.Options.{plain_options};
ghost use Rattle.wc_world.specs.Views.{ComponentWorldView};
ghost use Rattle.wc_world.specs.World.{IsWorldOf};

use std::alloc::Global;
use wc_encoder::ComponentEncoder;
use wc_plan::{PlanFault, plan_encoder, write_plan};
use wc_world::PlainOptions;
use wc_write::WriterSink;

/// Plans an encoder with the options of [`PlainOptions`], and prints the plan into memory.
pub(crate) fn printed_plan(alloc: Global, encoder: &ComponentEncoder) -> Result<Vec<u8>, PlanFault>
    ensures { IfOk result (λ lines. (w : ComponentWorldView)
        × IsWorldOf plain_options encoder.now w × (lines.items ≡ plan_text (plan_of w))) }
{
    let plan = plan_encoder(alloc, encoder, &PlainOptions)?;
    let mut sink = WriterSink::new(Vec::new(alloc));
    write_plan(&plan, &mut sink)?;
    Ok(sink.into_inner())
}
