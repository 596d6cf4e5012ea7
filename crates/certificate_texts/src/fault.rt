//! Why a text is no certificate: who reads certificates tells it, with its line.

ghost use Rattle.certificate_texts.specs.declared.fault.CertificateFault.TheVariants.{NoMemory};
ghost use Rattle.std.specs.Prelude.{◌≡◌};

use msc_base::NoMemory;
use thiserror::Error;

/// The most bytes of a certificate's text.
pub const CERTIFICATE_BYTES: u64 = 67_108_864;

/// Why a text is no certificate, with the number of the line in which that is decided.
#[derive(Clone, Copy, Debug, PartialEq, Eq, Error)]
pub enum CertificateFault {
    /// The line can't stand there, or is one too many; or lines are missing, and it is the one behind the last.
    #[error("line {line} can't stand there, or is missing")]
    Syntax { line: u64 },
    /// The text has more than 67,108,864 bytes, and the line holds the first byte behind them.
    #[error("the text is too long, from line {line} on")]
    Limit { line: u64 },
    /// Memory was wanting.
    #[error("no memory")]
    NoMemory,
}

impl From<NoMemory> for CertificateFault {
    ghost from_gives = { λ _ e. e ≡ NoMemory };

    fn from(_: NoMemory) -> Self {
        CertificateFault::NoMemory
    }
}
