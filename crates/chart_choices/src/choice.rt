//! A choice that several instances make.

use msc_base::{Items, Names, Place};

/// A choice between operands, any of which may begin at one of several instances.
#[derive(Drop)]
pub struct Choice {
    /// Where the expression stands.
    pub place: Place,
    /// The instances, in the order of their names.
    pub instances: Names,
}

/// A list of choices.
pub type ChoiceList = Items<Choice>;
