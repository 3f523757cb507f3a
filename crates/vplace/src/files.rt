//! Files by name, as the program reads and writes them: those of the system, or, in a test, files in memory.

ghost use Rattle.std.specs.Prelude.{◌≡◌, ◌↔◌, ℕ, List, Option, IfOk, IfErr, OnOk, OnErr};
ghost use Rattle.std.specs.IoError.{error_kind};
ghost use Rattle.std.specs.declared.io.ErrorKind.TheVariants.{OutOfMemory};
ghost use Rattle.vplace.specs.Files.{Gives, Held, IsShut, Lacks, Puts, Shut};
ghost use Rattle.vplace.specs.declared.files.ReadFault.TheVariants.{Unreadable};
ghost use Rattle.vplace.specs.declared.files.WriteFault.TheVariants.{NoMemory, Unwritable};

use std::alloc::Global;
use std::io::{Error, ErrorKind};

/// Why a file was not read.
#[derive(Clone, Copy, Debug, PartialEq, Eq)]
pub enum ReadFault {
    /// There is no such file, or the system does not give its bytes.
    Unreadable,
    /// Memory ran out for its bytes.
    NoMemory,
}

/// Why a file was not written, or no place was reserved for it.
#[derive(Clone, Copy, Debug, PartialEq, Eq)]
pub enum WriteFault {
    /// The system makes no such file, or does not take its bytes.
    Unwritable,
    /// Memory ran out for it.
    NoMemory,
}

impl WriteFault {
    /// The fault as which an error of the system is reported: a lack of memory as such, any other error as a fault of the file.
    pub fn of(error: &Error) -> Self
        ensures { (result ≡ NoMemory) ↔ (error_kind error.now ≡ OutOfMemory) }
    {
        match error.kind() {
            ErrorKind::OutOfMemory => WriteFault::NoMemory,
            _ => WriteFault::Unwritable,
        }
    }
}

/// Files that are read and written by their names. A name is any bytes.
pub trait NamedFiles {
    /// What the names give, if that is known.
    ghost held: { Self → Option Held };

    /// The names at which bytes cannot be put, if they are known.
    ghost shut: { Self → Option Shut };

    /// The place of a file that is to be written.
    type Outlet: Drop;

    /// The name that a place was reserved for.
    ghost name_of: { Self.Outlet → List ℕ };

    /// Reads all bytes of a file.
    fn read(&self, alloc: Global, name: &[u8]) -> Result<Vec<u8>, ReadFault>
        ensures gives { IfOk result (λ bytes. Gives (held self.now) name.now bytes.items) }
        ensures lacks { IfErr result (λ fault.
            fault ≡ Unreadable → Lacks (held self.now) name.now) };

    /// Checks that bytes can be put at a name, and reserves a place for them. Nothing is made at the name itself.
    fn reserve(&self, alloc: Global, name: &[u8]) -> Result<Self::Outlet, WriteFault>
        ensures name { IfOk result (λ outlet. name_of outlet ≡ name.now) }
        ensures shut { IfErr result (λ fault.
            fault ≡ Unwritable → IsShut (shut self.now) name.now) };

    /// Writes the bytes to the name that the place was reserved for, and replaces what was there.
    fn put(&mut self, outlet: Self::Outlet, bytes: &[u8]) -> Result<(), WriteFault>
        ensures put { OnOk result
            (Puts (held self.old) (held self.new) (name_of outlet) bytes.now) }
        ensures kept { OnErr result (held self.new ≡ held self.old) }
        ensures shut { IfErr result (λ fault.
            fault ≡ Unwritable → IsShut (shut self.old) (name_of outlet)) };

    /// Releases a place that is not needed.
    fn release(&self, outlet: Self::Outlet);
}
