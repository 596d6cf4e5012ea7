//! Documents of charts as they are read: charts, statements, items, expressions and graphs, with their places.
//!
//! `specs/` has the same as plain trees, which contracts see; `specs/Views.antt` says which tree each value stands for.
#![tactic(auto)]

mod boxed_decl;
mod boxed_name;
mod chart;
mod copying;
mod event;
mod expression;
mod few_names;
mod finding;
mod general_order;
mod graph;
mod labelling;
mod parameters;
mod reference;
mod statement;
mod tree_place;

pub use boxed_decl::BoxedDecl;
pub use boxed_name::BoxedName;
pub use chart::{Content, Cover, Decl, DeclList, Heading, RawChart, RawDocument};
pub use copying::copy_event;
pub use event::{Direction, RawEvent, RawEventList, Target, far_bytes, way_of};
pub use expression::RefExpr;
pub use few_names::FewNames;
pub use finding::{FEW, is_listed, number_in};
pub use general_order::{BoxedOrder, GeneralOrder};
pub use graph::{NodeKind, RawGraph, RawLine};
pub use labelling::{label_of, label_text};
pub use parameters::Parameters;
pub use reference::{InlineForm, Join, JoinEnd, JoinList};
pub use statement::{RawForm, RawInline, RawItem, RawOperand, RawReference, Statement};
pub use tree_place::TreePlace;
