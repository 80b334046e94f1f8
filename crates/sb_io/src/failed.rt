use std::error::Error;
use std::fmt;

/// A read or a write that failed. It moved no octet.
#[derive(Clone, Copy, Debug, PartialEq, Eq, Hash)]
pub struct Failed;

/// A sink that failed before it had taken all octets.
#[derive(Clone, Copy, Debug, PartialEq, Eq, Hash)]
pub struct WriteFault;

impl fmt::Display for Failed {
    ghost use Rattle.std.specs.Prelude.{codes, Some};

    ghost output = { λ _. Some (codes "read or write failed") };

    fn fmt<W: fmt::Write>(&self, f: &mut fmt::Formatter<W>) -> fmt::Result {
        f.write_str("read or write failed")
    }
}

impl Error for Failed {}

impl fmt::Display for WriteFault {
    ghost use Rattle.std.specs.Prelude.{codes, Some};

    ghost output = { λ _. Some (codes "write fault") };

    fn fmt<W: fmt::Write>(&self, f: &mut fmt::Formatter<W>) -> fmt::Result {
        f.write_str("write fault")
    }
}

impl Error for WriteFault {}
