//! Inline forms, and the joins of a reference's gates.

ghost use Rattle.std.specs.Prelude.{◌≡◌};
ghost use Rattle.msc_tree.specs.Forms.{form_text};

use msc_base::{Items, Name, Place};

/// The form of an inline expression (Z.120, clause 7.2).
#[derive(Clone, Copy, Debug, PartialEq, Eq)]
pub enum InlineForm {
    /// One of the operands.
    Alt,
    /// The operand, or nothing.
    Opt,
    /// All operands, side by side.
    Par,
    /// The operand, some number of times.
    Loop,
    /// The operand in place of what stands behind it, or what stands behind it.
    Exc,
}

impl InlineForm {
    /// The word that begins and ends an expression of this form.
    pub fn word(self) -> &'static str
        ensures { result.now ≡ form_text self }
    {
        match self {
            InlineForm::Alt => "alt",
            InlineForm::Opt => "opt",
            InlineForm::Par => "par",
            InlineForm::Loop => "loop",
            InlineForm::Exc => "exc",
        }
    }
}

/// What a gate of a reference is joined with.
#[derive(Drop)]
pub enum JoinEnd {
    /// The gate of this name of what stands around the reference.
    Env(Name),
    /// Of the reference or inline expression of the first name, the gate of the second.
    Reference(Name, Name),
}

/// A gate of a reference, and what it is joined with.
#[derive(Drop)]
pub struct Join {
    /// The gate.
    pub gate: Name,
    /// What it is joined with.
    pub to: JoinEnd,
    /// Where it stands.
    pub place: Place,
}

/// A list of joins.
pub type JoinList = Items<Join>;
