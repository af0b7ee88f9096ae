//! `wctrim`: renames the repeated imports of a core WebAssembly module, trims an adapter to the exports that are
//! required of it, or lists a module's imports and exports.
//!
//! Its contract is proved in `wctrim_command`. Here it gets the system's arguments and shell, of `wc_program`.
#![tactic(auto)]

ghost use Rattle.std.specs.Prelude.{None};

use std::io::{self, BufWriter, ErrorKind};
use std::process::ExitCode;
use wc_maps::Seed;
use wc_program::{FileStore, Printer, Shell, exit_code, system_arguments, system_shell};
use wctrim_command::run;

/// Runs the program. All its output goes to standard output. If the system gives no random bytes for a seed, no file
/// can be read.
fn main(rt: HostRuntime) -> ExitCode {
    let arguments = system_arguments(&rt);
    match system_shell(&rt, ()) {
        Ok(mut shell) => exit_code(run(&arguments, &mut shell)),
        Err(_) => match BufWriter::new(rt.alloc(), io::writer(&rt)) {
            Ok(writer) => {
                let mut shell = Shell {
                    alloc: rt.alloc(),
                    seed: Seed::new(0, 0),
                    files: NoFiles,
                    out: Printer::new(writer),
                    err: (),
                };
                exit_code(run(&arguments, &mut shell))
            }
            Err(_) => ExitCode::FAILURE,
        },
    }
}

/// Files of which none can be read or written.
#[derive(Drop)]
struct NoFiles;

impl FileStore for NoFiles {
    ghost held = { λ _. None };

    fn read(&self, _path: &str) -> io::Result<Vec<u8>> {
        Err(io::Error::from(ErrorKind::Other))
    }

    fn write(&mut self, _path: &str, _bytes: &[u8]) -> io::Result<()> {
        Err(io::Error::from(ErrorKind::Other))
    }
}
