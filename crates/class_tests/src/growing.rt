ghost use Rattle.std.specs.Prelude.{◌≡◌, ◌≤◌, [], length, IfOk};
ghost use Rattle.class_core.specs.Standing.{ClassesStand, grown_of};
ghost use Rattle.grammar_core.specs.Languages.{IsGrammarOf};
ghost use Rattle.size_core.specs.Lists.{StandFor};

use class_core::Classes;
use grammar_core::Grammar;
use lens_core::Lens;
use sig_core::Signature;
use size_core::SizeLists;
use std::alloc::{AllocError, Global};
use term_core::Bank;

/// The lists of all terms up to this size.
pub fn lists_to(
    alloc: Global,
    signature: &Signature,
    grammar: &Grammar,
    bank: &mut Bank,
    last: u32,
) -> Result<SizeLists, AllocError>
    requires { last ≤ 40 }
    ensures grown { IfOk result (λ lists. length lists ≡ last) }
    ensures stands { IfOk result (StandFor grammar.now bank.new) }
{
    let mut lists = SizeLists::new(alloc);
    for size in 1..last + 1 {
        lists.grow(signature, grammar, bank, size)?;
    }
    Ok(lists)
}

/// The leaders up to this size, through the lens.
pub fn classes_to<L: Lens + Drop>(
    alloc: Global,
    lens: L,
    signature: &Signature,
    grammar: &Grammar,
    bank: &mut Bank,
    last: u32,
) -> Result<Classes<L>, AllocError>
    requires small { last ≤ 40 }
    requires signature { L.is_for lens signature.now }
    requires grammar { IsGrammarOf signature.now grammar.now }
    requires bank { L.fits lens bank.old }
    ensures grown { IfOk result (λ classes. grown_of classes ≡ last) }
    ensures stands { IfOk result (ClassesStand L.Lens L.Mark.cmp grammar.now bank.new) }
{
    let mut lists = SizeLists::new(alloc);
    let mut classes = Classes::new(alloc, lens);
    for size in 1..last + 1 {
        classes.grow(signature, grammar, bank, &mut lists, size)?;
    }
    Ok(classes)
}
