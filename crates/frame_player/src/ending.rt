//! The status with which a run over the lines of a scene ends.

ghost use Rattle.std.specs.Prelude.{◌≡◌, ◌≢◌};
ghost use Rattle.play_rules.specs.declared.status.Status.TheVariants.{Usage};
ghost use Rattle.frame_player.specs.Ending.{after_fault, ended};

use crate::Status;
use play_io::SinkFault;

// How a run over the lines of a scene ends whose reading ended so, by what sending the rest came to.
pub(crate) fn ended(status: Status, sent: Result<(), SinkFault>) -> Status
    ensures status { result ≡ ended status sent }
    ensures never_usage { status ≢ Usage → result ≢ Usage }
{
    match sent {
        Ok(()) => status,
        Err(SinkFault::Failed) => after_fault(status),
        Err(SinkFault::NoMemory) => Status::NoMemory,
    }
}

// The answer if the sink failed. A read fault stays one.
fn after_fault(status: Status) -> Status
    ensures { result ≡ after_fault status }
{
    match status {
        Status::ReadFault => Status::ReadFault,
        _ => Status::WriteFault,
    }
}
