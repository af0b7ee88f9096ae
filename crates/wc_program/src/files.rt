//! The files that a program reads and writes.

ghost use Rattle.std.specs.Prelude.{◌≡◌, ⊤, ℕ, List, Option, IfErr, IfOk, OnOk, OnErr};
ghost use Rattle.std.specs.IoError.{error_kind};
ghost use Rattle.std.specs.declared.io.ErrorKind.{ErrorKind};
ghost use Rattle.wc_program.specs.Files.{FailsBy, Holds, IsProblemOf, KeepsOthers, Writes, problem_text};

use std::io::{self, ErrorKind};
use wc_texts::{FaultText, Pieces, PutFailed};

/// Files by their paths.
pub trait FileStore {
    // The bytes of the file of each path, where they are known: `None` where there is no file.
    ghost held: { Self → Option (List ℕ → Option (List ℕ)) };

    // Known of a read that failed: of the files, the path, and the kind of the error.
    ghost read_fails: { Self → List ℕ → ErrorKind → Type 0 } = { λ _ _ _. ⊤ };

    // Known of a write that failed: of the files before it and after it, the path, the bytes,
    // and the kind of the error.
    ghost write_fails: { Self → Self → List ℕ → List ℕ → ErrorKind → Type 0 } = { λ _ _ _ _ _. ⊤ };

    /// All bytes of the file at this path.
    ///
    /// # Errors
    ///
    /// The file could not be read; only the implementation's `read_fails` says why.
    fn read(&self, path: &str) -> io::Result<Vec<u8>>
        ensures read { IfOk result (λ v. Holds (held self.now) path.now v.items) }
        ensures cause { IfErr result (λ e. read_fails self.now path.now (error_kind e)) };

    /// Replaces the bytes of the file at this path by these, or creates the file with them. Every other file stays
    /// the same.
    ///
    /// # Errors
    ///
    /// The file could not be written. It may have any bytes then, and only the implementation's `write_fails` says
    /// why; every other file stays the same.
    fn write(&mut self, path: &str, bytes: &[u8]) -> io::Result<()>
        ensures written { OnOk result (Writes (held self.old) (held self.new) path.now bytes.now) }
        ensures others { OnErr result (KeepsOthers (held self.old) (held self.new) path.now) }
        ensures cause { IfErr result (λ e.
            write_fails self.old self.new path.now bytes.now (error_kind e)) };
}

/// Files by their paths, in directories.
pub trait DirectoryStore: FileStore {
    // The directory of this path could be made in a store.
    ghost makes: { Self → List ℕ → Type 0 };

    // Known of a directory that could not be made: of the store before and after, the path, and
    // the kind of the error.
    ghost make_fails: { Self → Self → List ℕ → ErrorKind → Type 0 } = { λ _ _ _ _. ⊤ };

    /// Creates the directory at this path, and its parents, if they don't exist. All files stay the same.
    ///
    /// # Errors
    ///
    /// A directory could not be made. Any of them may exist then, and only the implementation's `make_fails` says
    /// why; all files stay the same.
    fn make_directory(&mut self, path: &str) -> io::Result<()>
        ensures made { OnOk result (makes self.old path.now) }
        ensures files { Self.held self.new ≡ Self.held self.old }
        ensures cause { IfErr result (λ e.
            make_fails self.old self.new path.now (error_kind e)) };

    /// Replaces the file at this path by one that has these bytes, or creates it. Every other file stays the same. If
    /// the path is a link, the link is replaced. Concurrent readers see the old file or the new one, in full.
    ///
    /// # Errors
    ///
    /// The file could not be replaced; only the implementation's `write_fails` says why. All files stay the same.
    fn replace(&mut self, path: &str, bytes: &[u8]) -> io::Result<()>
        ensures written { OnOk result (Writes
            (Self.held self.old) (Self.held self.new) path.now bytes.now) }
        ensures kept { OnErr result (Self.held self.new ≡ Self.held self.old) }
        ensures cause { IfErr result (λ e.
            Self.write_fails self.old self.new path.now bytes.now (error_kind e)) };
}

/// Why a file could not be read or written, or a directory not be made.
#[derive(Clone, Copy, Debug, PartialEq, Eq)]
pub enum FileProblem {
    /// An allocation failed: the file is too large for memory.
    Memory,
    /// It is not there, or a directory above it is not.
    NotFound,
    /// It is a directory.
    IsADirectory,
    /// A directory above it is a file.
    NotADirectory,
    /// It may not be read, written or made.
    PermissionDenied,
    /// It exists already, and is no directory.
    AlreadyExists,
    /// There is no space left for it.
    StorageFull,
    /// It is in a file system that can only be read.
    ReadOnlyFilesystem,
    /// Another one.
    Other,
}

/// The text after the path of the file or directory: `: `, and the problem; empty for `Other`.
impl FaultText for FileProblem {
    ghost text = { problem_text };

    fn put_pieces<P: Pieces>(&self, out: &mut P) -> Result<(), PutFailed> {
        out.put_piece(problem_text(*self))
    }
}

/// The text of a problem, which `put_pieces` puts.
pub fn problem_text(problem: FileProblem) -> &'static str
    ensures { result.now ≡ problem_text problem }
{
    match problem {
        FileProblem::Memory => ": out of memory",
        FileProblem::NotFound => ": not found",
        FileProblem::IsADirectory => ": is a directory",
        FileProblem::NotADirectory => ": not a directory",
        FileProblem::PermissionDenied => ": permission denied",
        FileProblem::AlreadyExists => ": file exists",
        FileProblem::StorageFull => ": no space left on device",
        FileProblem::ReadOnlyFilesystem => ": read-only file system",
        FileProblem::Other => "",
    }
}

/// All bytes of the file at this path.
///
/// # Errors
///
/// The store's read of this path failed, with an error of the problem's kind.
pub fn read_file<F: FileStore>(files: &F, path: &str) -> Result<Vec<u8>, FileProblem>
    ensures read { IfOk result (λ v. Holds (F.held files.now) path.now v.items) }
    ensures problem { IfErr result (FailsBy (F.read_fails files.now path.now)) }
{
    match files.read(path) {
        Ok(bytes) => Ok(bytes),
        Err(e) => Err(problem_of(&e)),
    }
}

/// The problem for an error of a store; `Other`, if its kind has no problem of its own.
pub fn problem_of(e: &io::Error) -> FileProblem
    ensures { IsProblemOf (error_kind e.now) result }
{
    let kind = e.kind();
    if kind == ErrorKind::OutOfMemory {
        FileProblem::Memory
    } else if kind == ErrorKind::NotFound {
        FileProblem::NotFound
    } else if kind == ErrorKind::IsADirectory {
        FileProblem::IsADirectory
    } else if kind == ErrorKind::NotADirectory {
        FileProblem::NotADirectory
    } else if kind == ErrorKind::PermissionDenied {
        FileProblem::PermissionDenied
    } else if kind == ErrorKind::AlreadyExists {
        FileProblem::AlreadyExists
    } else if kind == ErrorKind::StorageFull {
        FileProblem::StorageFull
    } else if kind == ErrorKind::ReadOnlyFilesystem {
        FileProblem::ReadOnlyFilesystem
    } else {
        FileProblem::Other
    }
}
