//! Calls of sinks that fail: `WriterSink` over a writer that fails, and commands over a sink that does.

ghost use Rattle.std.specs.Prelude.{IfSome};
ghost use Rattle.wctrim_command.specs.Command.{IsExecutable, command_view};

use std::alloc::Global;
use std::io::{self, Write};
use wc_lines::input::{Stop, bad_row, bytes_of};
use wc_lines::lines::Lines;
use wc_lines::rows::Row;
use wc_lines::seeds::row_seed;
use wc_lines::values::put_bytes_lines;
use wc_write::{PutFailed, Sink, WriterSink};
use wctrim_command::{Command, ToolFault, execute};

/// A writer that fails at one write and at one flush, counted from 1; at 0 it fails at none.
#[derive(Drop)]
struct FailingWriter {
    failing_write: u32,
    failing_flush: u32,
    writes: u32,
    flushes: u32,
    taken: Vec<u8>,
}

impl Write for FailingWriter {
    fn write(&mut self, buf: &[u8]) -> io::Result<usize> {
        self.writes = self.writes.saturating_add(1);
        if self.writes == self.failing_write {
            return Err(io::Error::from(io::ErrorKind::BrokenPipe));
        }
        self.taken.extend_from_slice(buf)?;
        Ok(buf.len())
    }

    fn flush(&mut self) -> io::Result<()> {
        self.flushes = self.flushes.saturating_add(1);
        if self.flushes == self.failing_flush {
            return Err(io::Error::from(io::ErrorKind::BrokenPipe));
        }
        Ok(())
    }
}

/// Executes a line, `put TEXT` or `flush`, and puts the result.
fn put_step(sink: &mut WriterSink<FailingWriter>, line: &str, out: &mut Lines) {
    let done = match line.strip_prefix("put ") {
        Some(text) => sink.put(text.as_bytes()),
        None => sink.flush(),
    };
    match done {
        Ok(()) => out.push_str("ok"),
        Err(fault) => write!(out, "fault {fault}"),
    }
    out.flag(", failed ", sink.failed());
    out.end();
}

/// The sink's writer fails at the write and the flush that the arguments name, and at no other; it has room for 4,096
/// bytes.
pub(crate) fn answer_writer(alloc: Global, row: &Row<'_>, out: &mut Lines) {
    match Vec::with_capacity(alloc, 4096) {
        Ok(taken) => put_steps(row, taken, out),
        Err(_) => out.lack_memory(),
    }
}

fn put_steps(row: &Row<'_>, taken: Vec<u8>, out: &mut Lines) {
    let mut sink = WriterSink::new(FailingWriter {
        failing_write: row.argument(0).parse::<u32>().unwrap_or(0),
        failing_flush: row.argument(1).parse::<u32>().unwrap_or(0),
        writes: 0,
        flushes: 0,
        taken,
    });
    for line in &row.input {
        put_step(&mut sink, line, out);
    }
    let writer = sink.into_inner();
    out.number("writes ", writer.writes as u64);
    out.number("\nflushes ", writer.flushes as u64);
    let taken = &writer.taken;
    writeln!(out, "\ntaken {taken:?}");
}

/// A sink that takes some puts, and fails at the next.
#[derive(Drop)]
struct FailAt {
    puts: u32,
    failed: bool,
}

impl Sink for FailAt {
    ghost use Rattle.std.specs.Prelude.{None};

    ghost written = { λ _. None };

    ghost is_failed = { λ s. s.failed };

    fn put(&mut self, _bytes: &[u8]) -> Result<(), PutFailed> {
        if self.failed || self.puts == 0 {
            self.failed = true;
            return Err(PutFailed);
        }
        self.puts -= 1;
        Ok(())
    }

    fn failed(&self) -> bool {
        self.failed
    }
}

/// The command that the first argument names.
fn named_command(row: &Row<'_>) -> Option<Command<'static>>
    ensures { IfSome result (λ c. IsExecutable (command_view c)) }
{
    match row.argument(0) {
        "dedupe" => Some(Command::Dedupe {
            source: "in.wasm",
            target: "out.wasm",
        }),
        "scan" => Some(Command::Scan { source: "in.wasm" }),
        _ => None,
    }
}

/// `each_put_failing COMMAND`: the command, over sinks that fail after no put, after one, after two, and so on, until
/// all puts succeed. A line for each, and the answer.
pub(crate) fn answer_each_failing(
    alloc: Global,
    row: &Row<'_>,
    out: &mut Lines,
) -> Result<(), Stop> {
    let bytes = bytes_of(alloc, &row.input, out)?;
    match named_command(row) {
        Some(command) => put_each_failing(alloc, &command, &bytes, out),
        None => {
            let _ = bad_row(out, "no command", row.argument(0));
        }
    }
    Ok(())
}

fn put_each_failing(alloc: Global, command: &Command<'_>, input: &[u8], out: &mut Lines)
    requires { IsExecutable (command_view command.now) }
{
    for puts in 0..1000u32 {
        if !put_fails(alloc, command, input, puts, out) {
            return;
        }
    }
}

/// Whether a sink fails that takes this number of puts.
fn put_fails(alloc: Global, command: &Command<'_>, input: &[u8], puts: u32, out: &mut Lines) -> bool
    requires { IsExecutable (command_view command.now) }
{
    let mut sink = FailAt {
        puts,
        failed: false,
    };
    let answer = execute(alloc, row_seed(), command, input, &mut sink);
    out.number("", puts as u64);
    out.flag(": failed ", sink.failed);
    out.push_str(", ");
    put_answer(out, &answer);
    sink.failed
}

/// Appends the file that a command wrote, `no bytes`, or the command's fault.
fn put_answer(out: &mut Lines, answer: &Result<Option<Vec<u8>>, ToolFault>) {
    match answer {
        Ok(Some(bytes)) => put_bytes_lines(out, "bytes", bytes),
        Ok(None) => out.push_str("no bytes\n"),
        Err(fault) => writeln!(out, "fault {fault}"),
    }
}
