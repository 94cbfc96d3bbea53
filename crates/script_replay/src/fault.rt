ghost use Rattle.std.specs.Prelude.{◌≡◌, ◌≢◌};
ghost use Rattle.std.specs.IoError.{error_kind};
ghost use Rattle.std.specs.declared.io.ErrorKind.TheVariants.{OutOfMemory};
ghost use Rattle.script_replay.specs.Fault.{status_of, line_of};
ghost use Rattle.script_replay.specs.declared.fault.Fault.TheVariants.{Io, Memory};

use std::alloc::{AllocError, AllocFailed};
use std::io::{self, ErrorKind};

/// Why the program ends before its task is done.
#[derive(Clone, Copy, PartialEq, Eq, Debug)]
pub enum Fault {
    /// The words of the command line are refused.
    Words,
    /// The plan file is refused.
    Plans,
    /// The script is refused.
    Script,
    /// Memory was refused.
    Memory,
    /// A file, a stream or a socket failed.
    Io,
}

impl Fault {
    /// The status that the program ends with.
    pub fn status(&self) -> u8
        ensures { result ≡ status_of self.now }
    {
        match self {
            Fault::Words => 2,
            Fault::Plans => 3,
            Fault::Script => 4,
            Fault::Memory => 5,
            Fault::Io => 6,
        }
    }

    /// The line for standard error, without its LF.
    pub fn line(&self) -> &'static str
        ensures { result.now ≡ line_of self.now }
    {
        match self {
            Fault::Words => "connect_gateway: bad arguments",
            Fault::Plans => "connect_gateway: bad plan file",
            Fault::Script => "connect_gateway: bad script",
            Fault::Memory => "connect_gateway: no memory",
            Fault::Io => "connect_gateway: input or output fault",
        }
    }
}

impl From<AllocError> for Fault {
    ghost from_gives = { λ _ e. e ≡ Memory };

    fn from(_error: AllocError) -> Fault {
        Fault::Memory
    }
}

impl<T: Drop> From<AllocFailed<T>> for Fault {
    ghost from_gives = { λ _ e. e ≡ Memory };

    fn from(_error: AllocFailed<T>) -> Fault {
        Fault::Memory
    }
}

impl From<io::Error> for Fault {
    ghost from_gives = { λ error fault. (error_kind error ≡ OutOfMemory → fault ≡ Memory)
        × (error_kind error ≢ OutOfMemory → fault ≡ Io) };

    fn from(error: io::Error) -> Fault {
        match error.kind() {
            ErrorKind::OutOfMemory => Fault::Memory,
            _ => Fault::Io,
        }
    }
}
