//! Statements and items of a basic chart: columns, references, inline expressions with their operands.

use crate::{BoxedDecl, Cover, InlineForm, JoinList, RawEvent, RawEventList, RefExpr, TreePlace};
use msc_base::{Name, Names};

/// A reference to charts (Z.120, clause 7.3).
#[derive(Drop)]
pub struct RawReference {
    /// Its name, where it has one.
    pub name: Option<Name>,
    /// The charts that it stands for.
    pub expr: RefExpr,
    /// What its gates are joined with.
    pub joins: JoinList,
    /// The instances that share it, where that is said.
    pub shared: Option<Cover>,
}

/// What stands in a column, or behind a colon.
#[cycle(statements)]
#[derive(Drop)]
pub struct RawItem {
    /// Where its first token stands. Of an event with a label it is the first token behind the label.
    pub place: TreePlace,
    /// What it is.
    pub form: RawForm,
}

/// What an item is.
#[cycle(statements)]
#[derive(Drop)]
pub enum RawForm {
    /// An event.
    Single(RawEvent),
    /// Events of one instance in no order (Z.120, clause 7.1).
    Coregion(RawEventList),
    /// Conditions, and the instances that share them, where that is said (Z.120, clause 4.7).
    Condition(Names, Option<Cover>),
    /// An inline expression.
    Inline(RawInline),
    /// A reference.
    Reference(RawReference),
    /// The instance stops (Z.120, clause 4.11).
    Stop,
}

/// An inline expression (Z.120, clause 7.2).
#[cycle(statements)]
#[derive(Drop)]
pub struct RawInline {
    /// Its form.
    pub form: InlineForm,
    /// How often a loop's operand is taken at least. Of other forms it is 1.
    pub lower: u64,
    /// How often a loop's operand is taken at most, where there is a bound. Of other forms it is 1.
    pub upper: Option<u64>,
    /// Its name, where it has one.
    pub name: Option<Name>,
    /// The instances that share it, where that is said.
    pub shared: Option<Cover>,
    /// Its operands, in the order of the text.
    pub operands: Vec<RawOperand>,
}

/// An operand of an inline expression.
#[cycle(statements)]
#[derive(Drop)]
pub enum RawOperand {
    /// In a column: items of its instance.
    Column(Vec<RawItem>),
    /// Elsewhere: statements.
    Covered(Vec<Statement>),
}

/// A statement of a basic chart, or of an operand outside columns.
#[cycle(statements)]
#[derive(Drop)]
pub enum Statement {
    /// The column of an instance.
    Column(BoxedDecl, Vec<RawItem>),
    /// One item of the covered instances: most statements have no other.
    One(Cover, RawItem),
    /// Items of the covered instances.
    Covered(Cover, Vec<RawItem>),
    /// An instance is declared.
    Heading(BoxedDecl),
    /// The instance of this name ends.
    Ended(Name),
}
