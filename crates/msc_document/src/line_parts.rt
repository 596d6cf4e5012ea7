//! Statements made of their parts, and declarations and ends that lead one: for `items`.

ghost use Rattle.std.specs.Prelude.{◌≡◌, [], ◌∷◌, map, codes, IfOk};
ghost use Rattle.msc_tree.specs.declared.chart.Cover.TheVariants.{Listed};
ghost use Rattle.msc_tree.specs.Statements.{Column, Covered, Heading, Ended, items};
ghost use Rattle.msc_tree.specs.Views.{item_view, statement_view};
ghost use Rattle.token_grammar.specs.Answers.{Gives};
ghost use Rattle.token_grammar.specs.Languages.{just, map_at, behind_at};
ghost use Rattle.token_grammar.specs.PartReaders.{ending_at};
ghost use Rattle.msc_events.specs.DeclarationReaders.{declared_at};
ghost use Rattle.msc_document.specs.StatementReaders.{other_names_at};

use msc_base::{Items, Name, Names, NoMemory, Place};
use msc_events::declared;
use msc_tokens::Token;
use msc_tree::{BoxedDecl, Cover, Decl, FewNames, RawItem, Statement};
use std::alloc::Global;
use token_grammar::{ReadFault, ending, more_names, own_name, word};

/// The list of this item alone. It has room for no other: most statements have one item.
pub fn one_item(alloc: Global, item: RawItem) -> Result<Vec<RawItem>, NoMemory>
    ensures { IfOk result (λ held. held.items ≡ item ∷ []) }
{
    let mut held = Vec::with_capacity(alloc, 1)?;
    held.push(item)?;
    Ok(held)
}

/// The same statements, which keep no room for others.
pub fn fitted(statements: Vec<Statement>) -> Vec<Statement>
    ensures { result.items ≡ statements.items }
{
    let mut fitted = statements;
    fitted.shrink_to_fit();
    fitted
}

/// The statement that is the column of an instance. Its items keep no room for others.
pub fn column_of(alloc: Global, decl: Decl, held: Vec<RawItem>) -> Result<Statement, NoMemory>
    ensures { IfOk result (λ statement. statement_view statement ≡ Column decl (items (map item_view held.items))) }
{
    let mut column = held;
    column.shrink_to_fit();
    Ok(Statement::Column(BoxedDecl::of(alloc, decl)?, column))
}

/// The instance of this name is covered.
pub fn covered_one(name: Name) -> Cover
    ensures { result ≡ Listed (name ∷ []) }
{
    Cover::Listed(FewNames::one(name))
}

/// The instances of these names are covered.
pub fn covered_these(alloc: Global, names: Names) -> Result<Cover, NoMemory>
    ensures { IfOk result (λ cover. cover ≡ Listed names) }
{
    let list = FewNames::several(alloc, names)?;
    Ok(Cover::Listed(list))
}

/// The statement that these instances are covered by these items. One item stands in the statement itself.
pub fn covered_by(cover: Cover, held: Vec<RawItem>) -> Statement
    ensures { statement_view result ≡ Covered cover (items (map item_view held.items)) }
{
    let mut list = held;
    if list.len() == 1 {
        if let Some(item) = list.pop() {
            return Statement::One(cover, item);
        }
    }
    Statement::Covered(cover, list)
}

/// The statement that this instance is declared.
fn heading_of(alloc: Global, decl: Decl) -> Result<Statement, NoMemory>
    ensures { IfOk result (λ statement. statement_view statement ≡ Heading decl) }
{
    Ok(Statement::Heading(BoxedDecl::of(alloc, decl)?))
}

/// The statement that this instance ends.
fn end_of(name: Name) -> Statement
    ensures { statement_view result ≡ Ended name }
{
    Statement::Ended(name)
}

/// Names behind the first one, with commas between them.
pub fn other_names(
    alloc: Global,
    first: Name,
    tokens: &[Token],
) -> Result<(Names, &[Token]), ReadFault>
    ensures { Gives (λ x. (x.0, x.1.now)) result (other_names_at first tokens.now) }
{
    let (second, rest) = own_name(alloc, tokens)?;
    let mut names = Items::new(alloc);
    names.push(first)?;
    names.push(second)?;
    more_names(alloc, rest, names)
}

/// The declaration of the instance of this name (Z.120, clause 4.2).
pub fn heading_statement(
    alloc: Global,
    name: Name,
    place: Place,
    tokens: &[Token],
) -> Result<(Statement, &[Token]), ReadFault>
    ensures { Gives (λ x. (statement_view x.0, x.1.now)) result (map_at Heading (declared_at (name, place)) tokens.now) }
{
    let (decl, rest) = declared(alloc, name, place, tokens)?;
    let heading = heading_of(alloc, decl)?;
    Ok((heading, rest))
}

/// The end of the instance of this name.
pub fn end_statement(name: Name, tokens: &[Token]) -> Result<(Statement, &[Token]), ReadFault>
    ensures { Gives (λ x. (statement_view x.0, x.1.now)) result (map_at (λ e. Ended name) (behind_at (just (codes "endinstance")) ending_at) tokens.now) }
{
    let (_word, rest) = word(tokens, "endinstance")?;
    let rest = ending(rest)?;
    Ok((end_of(name), rest))
}
