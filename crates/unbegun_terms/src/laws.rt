//! The law that certificates ask for. It is the contract of a function that does nothing.

ghost use Rattle.unbegun_terms.specs.UnbegunLaws.{TermsAreUnbegun};

use table_terms::laws::table_terms_are_sound;

/// The term of a chart of a table is unbegun; so are its nets, where its term is sound.
pub fn terms_are_unbegun()
    ensures { TermsAreUnbegun }
{
    table_terms_are_sound();
}
