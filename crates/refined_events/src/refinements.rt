//! Whether a chart has decomposed instances.

ghost use Rattle.std.specs.Prelude.{◌≡◌, [], false, true};
ghost use Rattle.msc_meaning.specs.Tables.{refinements};

use msc_tree::Decl;

/// Whether one of the declarations names a chart that refines its instance. It takes no memory.
pub fn are_refined(decls: &[Decl]) -> bool
    ensures none { result ≡ false → refinements decls.now ≡ [] }
    ensures some { result ≡ true → refinements decls.now ≡ [] → ⊥ }
{
    for decl in decls {
        if decl.refined.is_some() {
            return true;
        }
    }
    false
}
