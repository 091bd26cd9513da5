use byte_ports::Failed;

/// The sink has failed.
#[derive(Clone, Copy, PartialEq, Eq)]
pub struct WriteFault;

impl From<Failed> for WriteFault {
    /// Returns the fault of writing. The operator `?` calls it when the sink fails.
    fn from(_e: Failed) -> WriteFault {
        WriteFault
    }
}
