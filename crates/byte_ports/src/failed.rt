ghost use Rattle.std.specs.Prelude.{Some, codes};

use std::error::Error;
use std::fmt;

/// The only error of a port. Once a call has returned it, every later call on that port returns it, too. It has no cause: a
/// program that gets it prints which side failed, and nothing else.
#[derive(Clone, Copy, Debug, PartialEq, Eq)]
pub struct Failed;

impl fmt::Display for Failed {
    ghost output = { λ _. Some (codes "the port has failed") };

    /// Writes `the port has failed`.
    fn fmt<W: fmt::Write>(&self, f: &mut fmt::Formatter<W>) -> fmt::Result {
        f.write_str("the port has failed")
    }
}

impl Error for Failed {}
