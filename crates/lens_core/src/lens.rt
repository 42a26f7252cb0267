ghost use Rattle.std.specs.Prelude.{◌≡◌, ◌↔◌, ℕ, Bool, List, IfOk, OnOk, OnErr};
ghost use Rattle.std.specs.declared.cmp.Ordering.TheVariants.{Equal};
ghost use Rattle.lens_core.specs.Lenses.{HasPlace, IsCongruent, IsSameness, RisesByOneAtMost, Stays, risen};
ghost use Rattle.sig_core.specs.Signatures.{Declarations};
ghost use Rattle.sig_core.specs.declared.ids.ConId.{ConId};
ghost use Rattle.term_core.specs.declared.tree.Tree.{Tree};
ghost use Rattle.term_core.specs.Banks.{IsLive, Keeps, tree_of};
ghost use Rattle.term_core.specs.Typings.{IsTermOf};

use sig_core::ConId;
use std::alloc::AllocError;
use term_core::{Bank, TermId};

/// Gives terms marks. A child at a plain place may be replaced by one with an equal mark: the mark of the whole term stays.
/// The notion is this project's own.
pub trait Lens {
    type Mark: Ord + Drop;

    // The mark is the term's.
    ghost has_mark: { Self → Tree → Self.Mark → Type 0 };

    // The terms have equal marks.
    ghost same_mark: { Self → Tree → Tree → Type 0 };

    // It marks the terms of the signature.
    ghost is_for: { Self → Declarations → Type 0 };

    // What the lens keeps under an id is true of that bank's term.
    ghost fits: { Self → List Tree → Type 0 };

    // The place of the constructor is plain.
    ghost is_plain: { Self → ConId → ℕ → Bool };

    // How many marks were taken. The number stands still at 2^64 - 1.
    ghost looked: { Self → ℕ };

    /// Whether a child at this place may be replaced by one with an equal mark.
    fn plain(&self, con: ConId, i: usize) -> bool
        requires { (sig : Declarations) × is_for self.now sig × HasPlace sig con i }
        ensures { result ≡ is_plain self.now con i };

    /// How many marks were taken.
    fn looks(&self) -> u64
        ensures { result ≡ looked self.now };

    /// Takes the mark of a term. After want of memory the lens can only be dropped.
    fn mark(&mut self, bank: &Bank, id: TermId) -> Result<Self::Mark, AllocError>
        requires live { IsLive bank.now id }
        requires term { (sig : Declarations) × is_for self.old sig × IsTermOf sig (tree_of bank.now id) }
        requires fits { fits self.old bank.now }
        ensures mark { IfOk result (has_mark self.old (tree_of bank.now id)) }
        ensures counted { OnOk result (looked self.new ≡ risen (looked self.old) 1) }
        ensures at_most { OnErr result (RisesByOneAtMost (looked self.old) (looked self.new)) }
        ensures fits { OnOk result (fits self.new bank.now) }
        ensures stays { Stays (has_mark self.old) (has_mark self.new) (same_mark self.old) (same_mark self.new)
            (is_for self.old) (is_for self.new) (is_plain self.old) (is_plain self.new) };

    // Marks are equal exactly where their order answers so.
    ghost compares: { (l : Self) (t u : Tree) (m n : Self.Mark) → has_mark l t m → has_mark l u n → (Self.Mark.cmp m n ≡ Equal) ↔ same_mark l t u };

    // To have equal marks is an equivalence of the terms of a signature.
    ghost equals: { (l : Self) (sig : Declarations) → is_for l sig → IsSameness sig (same_mark l) };

    // Terms of one constructor, whose children have equal marks at plain places and are equal elsewhere, have equal marks.
    ghost congruent: { (l : Self) (sig : Declarations) → is_for l sig → IsCongruent sig (is_plain l) (same_mark l) };

    // A lens that fits a bank fits each that has the same terms under the same ids, and perhaps more.
    ghost fits_more: { (l : Self) (old new : List Tree) → Keeps old new → fits l old → fits l new };
}
