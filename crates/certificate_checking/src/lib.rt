//! Whether a certificate holds for a log, told by its definition alone: no event is taken, and no permission asked.
//!
//! `reading` goes along the lines of the certificate and the term, and gives the pattern that is shown as marks, which pattern_marks
//! tests.
#![tactic(auto)]

mod checking;
mod form;
mod reading;
mod step;

pub use checking::check_certificate;
