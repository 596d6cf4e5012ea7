//! Documents, charts and declarations of instances, as they are read. What they mean is not said here.

use crate::{FewNames, RawGraph, Statement};
use msc_base::{Items, Name, Names, Place};

/// The heading of a document.
#[derive(Drop)]
pub struct Heading {
    /// The document's name.
    pub name: Name,
    /// The document that it is related to, where one is named.
    pub related: Option<Name>,
}

/// The declaration of an instance (Z.120, clause 4.2).
#[derive(Drop)]
pub struct Decl {
    /// The instance.
    pub name: Name,
    /// Its kind: no name, or one or two.
    pub kind: Names,
    /// The chart that refines it, where it is decomposed.
    pub refined: Option<Name>,
    /// Where its decomposition stands, and where it has none, its name.
    pub place: Place,
}

/// A list of declarations.
pub type DeclList = Items<Decl>;

/// The instances that a part of a chart covers.
#[derive(Drop)]
pub enum Cover {
    /// All instances.
    All,
    /// The instances of these names.
    Listed(FewNames),
}

/// What a chart holds.
#[derive(Drop)]
pub enum Content {
    /// A basic chart: its statements.
    Events(Vec<Statement>),
    /// A high-level chart: its graph.
    Graph(RawGraph),
}

/// A chart.
#[derive(Drop)]
pub struct RawChart {
    /// Its name.
    pub name: Name,
    /// Where its word `msc` stands.
    pub place: Place,
    /// The declarations of its heads.
    pub decls: DeclList,
    /// The messages that it declares.
    pub messages: Names,
    /// The timers that it declares.
    pub timers: Names,
    /// What it holds.
    pub content: Content,
}

/// A document.
#[derive(Drop)]
pub struct RawDocument {
    /// Its heading, where it has one.
    pub heading: Option<Heading>,
    /// Its charts, in the order of the text.
    pub charts: Vec<RawChart>,
}
