//! The files that arguments may name.
ghost use Rattle.std.specs.Prelude.{◌≡◌, IfOk, List, ℕ, Option, None};

use std::fs::File;
use std::io;
use std::io::Read;

/// Files that are opened by their names. No contract knows what the system's files hold, so contracts are about any
/// files.
pub trait InputFiles {
    /// A file that is open for reading.
    type File: Read + Drop;

    /// The bytes of the file with a name, if they are known.
    ghost bytes_of: { Self → List ℕ → Option (List ℕ) };

    /// The file with this name, from its beginning on.
    fn open(&self, name: &str) -> io::Result<Self::File>
        ensures { IfOk result (λ file. Self.File.remaining file ≡ bytes_of self.now name.now) };
}

// Nothing is known of the bytes of the system's files.
impl InputFiles for HostRuntime {
    type File = File;

    ghost bytes_of = { λ _ _. None };

    fn open(&self, name: &str) -> io::Result<File> {
        File::open(self, name)
    }
}
