//! Codes of labels, under which `table` guesses their numbers. Labels may share one, so the table compares its label.

use crate::kind::kind_rank;
use msc_base::{Far, Label};
use std::hash::{FoldHasher, Hasher};

/// Feeds a far end to the hash of its label.
fn hash_far(hasher: &mut FoldHasher, far: &Far) {
    match far {
        Far::Nobody => hasher.write_u8(0),
        Far::Env => hasher.write_u8(1),
        Far::Instance(name) => hasher.write(name.bytes()),
    }
}

/// The code of a label: equal labels have the same, and others mostly different ones.
pub(crate) fn code_of(label: &Label) -> u32 {
    let mut hasher = FoldHasher::default();
    hasher.write(label.at.bytes());
    hasher.write_u8(kind_rank(label.kind));
    hasher.write(label.text.bytes());
    hash_far(&mut hasher, &label.far);
    (hasher.finish() >> 32) as u32
}
