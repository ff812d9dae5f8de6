// What the line of a failed read or write is about (G14).
ghost use Rattle.std.specs.Prelude.{◌≡◌};
ghost use Rattle.packing.specs.Steps.{read_of, written_of};

use crate::Wait;
use turns::Subject;

// What a run reads where it stands, for the line of a failed read.
pub fn read_subject(wait: Wait, k: u64) -> Subject
    ensures { result ≡ read_of wait k }
{
    match wait {
        Wait::Version | Wait::Head(_) => Subject::Input,
        _ => Subject::Unit(k),
    }
}

// What was written before a run stands there, for the line of a failed write: the version byte, or a record of unit k.
pub fn written_subject(wait: Wait, k: u64) -> Subject
    ensures { result ≡ written_of wait k }
{
    match wait {
        Wait::Version | Wait::Head(_) | Wait::Length => Subject::Train,
        _ => Subject::Unit(k),
    }
}
