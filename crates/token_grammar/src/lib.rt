//! What a grammar of tokens reads, and how its readers are exact.
//!
//! `specs/Languages.antt` says which tokens read as which value, `specs/Grammars.antt` puts grammars together, and
//! `specs/Parsing.antt` says what a list of tokens parses as. `proofs/` has one rule for each way to put grammars
//! together. `src/fault.rt` turns what a reader refuses into a fault with its place.
#![tactic(auto)]

mod fault;
mod laws;
mod leads;
mod messages;
mod parts;
mod readers;

pub use fault::{ParseFault, form_of, refusal};
pub use laws::one_word;
pub use leads::{is_other_lead, starts_with_lead};
pub use messages::{MessageParts, item, message, parameters};
pub use parts::{
    ending, more_names, name_of, names, own_name, own_text, placed_lead, placed_name, some_name,
};
pub use readers::{
    ReadFault, either_word, name, name_or_string, number, starts_with, starts_with_either,
    starts_with_item, starts_with_name, string, word,
};
