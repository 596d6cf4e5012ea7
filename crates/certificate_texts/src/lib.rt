//! Certificates as lists of lines, their texts, and the reader of such a text.
//!
//! `specs/` says what the text of a certificate is, and which certificate or which fault a text has.
#![tactic(auto)]

mod certificate;
mod fault;
mod laws;
mod line;
mod line_reading;
mod missing;
mod number;
mod reading;
mod text;

pub use certificate::Certificate;
pub use fault::{CERTIFICATE_BYTES, CertificateFault};
pub use laws::{readings_are_exact, texts_read_back};
pub use line::CertificateLine;
pub use reading::read_certificate;
pub use text::certificate_text;
