//! The calls of `wc_plan`.

use crate::encoders::encoder_of;
use std::alloc::{AllocError, Global};
use std::str;
use wc_encoder::ComponentEncoder;
use wc_lines::input::{Stop, number_of};
use wc_lines::lines::Lines;
use wc_lines::put_last::{PutAbout, put_last_about, put_last_fault};
use wc_lines::rows::Row;
use wc_lines::seeds::row_seed;
use wc_maps::Map;
use wc_plan::laws::worlds_nameable;
use wc_plan::{Plan, PlanFault, plan, plan_encoder, write_plan};
use wc_validate::ValidateFault;
use wc_world::{ComponentWorld, PlainOptions, WorldFault};
use wc_write::{PutFailed, Sink};

/// The output that the lines of a plan are printed to. It takes some puts, and fails at the next.
#[derive(Drop)]
struct Printed {
    lines: Lines,
    puts: u32,
    failed: bool,
}

impl Sink for Printed {
    ghost use Rattle.std.specs.Prelude.{None};

    ghost written = { λ _. None };

    ghost is_failed = { λ s. s.failed };

    fn put(&mut self, bytes: &[u8]) -> Result<(), PutFailed> {
        if self.failed || self.puts == 0 {
            self.failed = true;
            return Err(PutFailed);
        }
        let Ok(text) = str::from_utf8(bytes) else {
            self.failed = true;
            return Err(PutFailed);
        };
        self.puts -= 1;
        self.lines.push_str(text);
        Ok(())
    }

    fn failed(&self) -> bool {
        self.failed
    }
}

/// A fault; and after that of a function the function's name.
fn put_fault(fault: &PlanFault, out: &mut Lines) {
    writeln!(out, "fault {fault}");
    match fault {
        PlanFault::NoMemory(name) => writeln!(out, "of {name}"),
        PlanFault::NoRealloc(name) => writeln!(out, "of {name}"),
        PlanFault::NoLowering(name) => writeln!(out, "of {name}"),
        _ => {}
    }
}

/// The lines of a plan, over a sink that fails after a number of puts.
fn put_lines(alloc: Global, plan: &Plan, puts: u32, out: &mut Lines) {
    let mut printed = Printed {
        lines: Lines::new(alloc),
        puts,
        failed: false,
    };
    let written = write_plan(plan, &mut printed);
    put_last_about(alloc, &printed, written, out);
}

impl PutAbout<Printed> for Result<(), PlanFault> {
    /// Puts the lines that were printed, or why not all were.
    fn put_about(&self, _alloc: Global, printed: &Printed, out: &mut Lines) {
        match self {
            Ok(()) => match printed.lines.text() {
                Ok(text) => out.push_str(text),
                Err(_) => out.lack_memory(),
            },
            Err(fault) => put_fault(fault, out),
        }
    }
}

/// The plan of the encoder's world without its lowerings.
fn plan_without_lowerings(alloc: Global, encoder: &ComponentEncoder) -> Result<Plan, PlanFault> {
    let mut world = ComponentWorld::new(alloc, encoder, &PlainOptions)?;
    // So what is imported can be named.
    worlds_nameable(encoder);
    world.import_map = Map::with_hasher(alloc, row_seed());
    plan(alloc, &world)
}

/// A fault that carries a function's name, for rows of texts.
fn function_fault(alloc: Global, number: u32) -> Result<PlanFault, AllocError> {
    let name = String::from_str(alloc, "f")?;
    Ok(match number {
        0 => PlanFault::NoMemory(name),
        1 => PlanFault::NoRealloc(name),
        _ => PlanFault::NoLowering(name),
    })
}

/// The text of each fault, in the order of `PlanFault`.
pub(crate) fn put_plan_faults(alloc: Global, out: &mut Lines) -> Result<(), AllocError> {
    put_last_fault(alloc, PlanFault::Memory, out);
    for number in 0..3 {
        put_last_fault(alloc, function_fault(alloc, number)?, out);
    }
    let main = WorldFault::Main(ValidateFault::NotAModule);
    put_last_fault(alloc, PlanFault::World(main), out);
    put_last_fault(alloc, PlanFault::Output, out);
    Ok(())
}

/// After how many puts the sink fails that the lines of a plan are printed to.
#[derive(Clone, Copy)]
struct Puts(u32);

impl PutAbout<Puts> for Result<Plan, PlanFault> {
    /// Puts the lines of a plan, or why there is none.
    fn put_about(&self, alloc: Global, puts: &Puts, out: &mut Lines) {
        match self {
            Ok(plan) => put_lines(alloc, plan, puts.0, out),
            Err(fault) => put_fault(fault, out),
        }
    }
}

/// `plan_failing PUTS`: the lines of the plan, over a sink that fails after PUTS puts; `plan_without_lowerings`: the
/// plan of the world without its lowerings.
pub(crate) fn put_planned(alloc: Global, row: &Row<'_>, out: &mut Lines) -> Result<(), Stop> {
    let encoder = encoder_of(alloc, row, out)?;
    if row.call == "plan_without_lowerings" {
        let answer = plan_without_lowerings(alloc, &encoder);
        put_last_about(alloc, &Puts(u32::MAX), answer, out);
    } else {
        let puts = number_of(out, "no number", row.argument(0))?;
        let answer = plan_encoder(alloc, &encoder, &PlainOptions);
        put_last_about(alloc, &Puts(puts), answer, out);
    }
    Ok(())
}
