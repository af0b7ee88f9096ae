//! The shell of the system.

ghost use Rattle.std.specs.Prelude.{◌≡◌, None, ⊤};
ghost use Rattle.std.specs.Process.{exit_status};

use crate::files::{DirectoryStore, FileStore};
use crate::output::Printer;
use crate::shell::Shell;
use std::alloc::{AllocError, Global};
use std::env;
use std::fs::{self, File};
use std::io::{self, BufWriter, ErrorKind, Read, Write};
use std::process::ExitCode;
use std::random::RandomSource;
use std::rt::{Env, Files};
use wc_maps::Seed;

/// The files of the system. Proofs know nothing of their bytes.
#[derive(Drop)]
pub struct SystemFiles<'r, R> {
    rt: &'r R,
}

impl<R: Files + AllocGlobal> FileStore for SystemFiles<'_, R> {
    ghost held = { λ _. None };

    /// Memory for the file's size is allocated before its bytes are read, so that they are not moved later.
    fn read(&self, path: &str) -> io::Result<Vec<u8>> {
        let mut file = File::open(self.rt, path)?;
        let mut bytes = Vec::new(self.rt.alloc());
        if let Ok(metadata) = fs::metadata(self.rt, path) {
            bytes.reserve(metadata.len().min(MOST_ROOM) as usize)?;
        }
        file.read_to_end(&mut bytes)?;
        Ok(bytes)
    }

    fn write(&mut self, path: &str, bytes: &[u8]) -> io::Result<()> {
        fs::write(self.rt, path, bytes)
    }
}

impl<R: Files + RandomSource + AllocGlobal> DirectoryStore for SystemFiles<'_, R> {
    ghost makes = { λ _ _. ⊤ };

    fn make_directory(&mut self, path: &str) -> io::Result<()> {
        fs::create_dir_all(self.rt, path)
    }

    /// Replaces the file as a whole. The bytes go to a new file in the same directory, `.new-N` with a random number,
    /// which then takes the file's name. If that fails, the new file is removed. If the program is stopped meanwhile,
    /// the new file remains.
    fn replace(&mut self, path: &str, bytes: &[u8]) -> io::Result<()> {
        let (beside, file) = create_beside(self.rt, path)?;
        let written = write_and_close(file, bytes);
        let replaced = match written {
            Ok(()) => fs::rename(self.rt, &beside, path),
            Err(e) => Err(e),
        };
        if replaced.is_err() {
            let _removed = fs::remove_file(self.rt, &beside);
        }
        replaced
    }
}

/// The most bytes that are allocated for a file before it is read: 64 MiB.
const MOST_ROOM: u64 = 1 << 26;

/// How many numbers are drawn at most for the name of one new file.
const MOST_DRAWS: u32 = 100;

/// A new file in the directory of the file at this path, and the new file's path: `.new-N` with the first random
/// number for which no file or link exists.
fn create_beside<R: Files + RandomSource + AllocGlobal>(
    rt: &R,
    path: &str,
) -> io::Result<(String, R::File)> {
    for _draw in 0..MOST_DRAWS {
        let beside = path_beside(rt.alloc(), path, drawn_number(rt)?)?;
        match File::create_new(rt, &beside) {
            Ok(file) => return Ok((beside, file)),
            Err(e) if e.kind() == ErrorKind::AlreadyExists => {}
            Err(e) => return Err(e),
        }
    }
    Err(io::Error::from(ErrorKind::AlreadyExists))
}

/// A number out of random bytes.
fn drawn_number(source: &impl RandomSource) -> io::Result<u64> {
    let mut bytes = [0; 8];
    source.fill_bytes(&mut bytes)?;
    Ok(u64::from_le_bytes(bytes))
}

/// `.new-N` in the directory of the file of this path.
fn path_beside(alloc: Global, path: &str, number: u64) -> Result<String, AllocError> {
    match path.rsplit_once('/') {
        Some((directory, _name)) => format!(in alloc; "{directory}/.new-{number}"),
        None => format!(in alloc; ".new-{number}"),
    }
}

/// Writes bytes to a file, and closes it.
fn write_and_close<W: Write + Drop>(mut file: W, bytes: &[u8]) -> io::Result<()> {
    file.write_all(bytes)
}

/// Standard output, through a buffer.
type StandardOutput<'r, R> = Printer<io::Printer<'r, R>>;

/// The arguments, without the program's name.
///
/// # Errors
///
/// There was no memory for them, or one is no text.
pub fn system_arguments<R: Env + AllocGlobal>(rt: &R) -> io::Result<Vec<String>> {
    let arguments = env::args(rt)?.skip(1).collect(rt.alloc())?;
    Ok(arguments)
}

/// The shell with the system's files, standard output through a buffer, a seed out of random bytes, and `err`. Without
/// memory for the buffer each put is written at once.
///
/// # Errors
///
/// The system gives no random bytes.
pub fn system_shell<R: Files + Print + RandomSource + AllocGlobal, E: Drop>(
    rt: &R,
    err: E,
) -> io::Result<Shell<SystemFiles<'_, R>, StandardOutput<'_, R>, E>> {
    let seed = Seed::drawn(rt)?;
    let writer = match BufWriter::new(rt.alloc(), io::writer(rt)) {
        Ok(writer) => writer,
        Err(_) => BufWriter::with_capacity(rt.alloc(), 0, io::writer(rt))?,
    };
    Ok(Shell {
        alloc: rt.alloc(),
        seed,
        files: SystemFiles { rt },
        out: Printer::new(writer),
        err,
    })
}

/// The value that `main` returns to the system for an exit status.
pub fn exit_code(status: u8) -> ExitCode
    ensures { exit_status result ≡ status }
{
    ExitCode::from(status)
}
