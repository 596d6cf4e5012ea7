//! Why a judge gives no verdict: a fault of the log, or want of memory.

ghost use Rattle.std.specs.Prelude.{◌≡◌};
ghost use Rattle.log_judge.specs.Faults.{judge_fault};
ghost use Rattle.log_judge.specs.declared.fault.JudgeFault.TheVariants.{NoMemory};

use event_log::LogFault;
use msc_base::NoMemory;

/// Why there is no verdict.
#[derive(Clone, Copy, Debug, PartialEq, Eq)]
pub enum JudgeFault {
    /// The first fault of the log; never want of memory.
    Log(LogFault),
    /// Want of memory.
    NoMemory,
}

impl From<NoMemory> for JudgeFault {
    ghost from_gives = { λ _ e. e ≡ NoMemory };

    fn from(_: NoMemory) -> Self {
        JudgeFault::NoMemory
    }
}

/// The fault of a log's reader as one of the judge. Want of memory is no fault of the log.
pub fn fault_of(fault: LogFault) -> JudgeFault
    ensures { result ≡ judge_fault fault }
{
    match fault {
        LogFault::NoMemory => JudgeFault::NoMemory,
        LogFault::Syntax(_) | LogFault::LongLine(_) => JudgeFault::Log(fault),
        LogFault::LogLimit(_) | LogFault::Version(_) => JudgeFault::Log(fault),
        LogFault::TooManySessions(_) => JudgeFault::Log(fault),
    }
}
