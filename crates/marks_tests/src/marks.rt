ghost use Rattle.std.specs.Prelude.{◌≡◌, ◌<◌, ◌≤◌, [], ◌∷◌, IfOk};
ghost use Rattle.sig_core.specs.Signatures.{Declarations};
ghost use Rattle.term_core.specs.Banks.{IsLive, Keeps, tree_of};
ghost use Rattle.term_core.specs.Terms.{node};
ghost use Rattle.term_core.specs.Typings.{IsBankOf};
ghost use Rattle.eval_core.specs.ShiftExample.{shift_problem, shifts};

use example_shifts::{SHIFT, X, ZERO, shift_problem};
use lens_core::Lens;
use marks_core::HornMarks;
use problem_core::Problem;
use sig_core::{ConId, Signature};
use std::alloc::{AllocError, Global};
use term_core::{Bank, TermId};

/// Interns a constant.
fn constant(signature: &Signature, bank: &mut Bank, con: ConId) -> Result<TermId, AllocError>
    requires con { con.0 < 2 }
    requires terms { IsBankOf shifts bank.old }
    ensures live { IfOk result (IsLive bank.new) }
    ensures tree { IfOk result (λ id. tree_of bank.new id ≡ node con []) }
    ensures terms { IsBankOf shifts bank.new }
    ensures kept { Keeps bank.old bank.new }
{
    bank.intern(signature, con, &[])
}

/// Interns the shift of a constant.
fn shift(signature: &Signature, bank: &mut Bank, con: ConId) -> Result<TermId, AllocError>
    requires con { con.0 < 2 }
    requires terms { IsBankOf shifts bank.old }
    ensures live { IfOk result (IsLive bank.new) }
    ensures terms { IsBankOf shifts bank.new }
    ensures kept { Keeps bank.old bank.new }
{
    let kid = constant(signature, bank, con)?;
    bank.intern(signature, SHIFT, &[kid])
}

/// Interns a constant, or its shift.
fn term(
    signature: &Signature,
    bank: &mut Bank,
    con: ConId,
    is_shifted: bool,
) -> Result<TermId, AllocError>
    requires con { con.0 < 2 }
    requires terms { IsBankOf shifts bank.old }
    ensures live { IfOk result (IsLive bank.new) }
    ensures terms { IsBankOf shifts bank.new }
    ensures kept { Keeps bank.old bank.new }
{
    if is_shifted {
        shift(signature, bank, con)
    } else {
        constant(signature, bank, con)
    }
}

/// Whether the terms have equal marks.
fn have_equal_marks<L: Lens>(
    lens: &mut L,
    bank: &Bank,
    left: TermId,
    right: TermId,
) -> Result<bool, AllocError>
    requires signature { L.is_for lens.old shifts }
    requires terms { IsBankOf shifts bank.now }
    requires left { IsLive bank.now left }
    requires right { IsLive bank.now right }
    requires fits { L.fits lens.old bank.now }
{
    let first = lens.mark(bank, left)?;
    let second = lens.mark(bank, right)?;
    Ok(first == second)
}

/// Whether two terms, each a constant or its shift, have equal marks, and how many marks were taken.
fn compared(
    alloc: Global,
    problem: &Problem,
    left: (ConId, bool),
    right: (ConId, bool),
) -> Result<(bool, u64), AllocError>
    requires problem { problem.now ≡ shift_problem }
    requires left { left.0.0 < 2 }
    requires right { right.0.0 < 2 }
{
    let mut bank = Bank::new(alloc);
    let first = term(problem.signature(), &mut bank, left.0, left.1)?;
    let second = term(problem.signature(), &mut bank, right.0, right.1)?;
    let mut marks = HornMarks::new(alloc, problem, 2)?;
    let are_equal = have_equal_marks(&mut marks, &bank, first, second)?;
    Ok((are_equal, marks.looks()))
}

/// The same of the problem of the shifts.
fn compared_once(
    alloc: Global,
    left: (ConId, bool),
    right: (ConId, bool),
) -> Result<(bool, u64), AllocError>
    requires left { left.0.0 < 2 }
    requires right { right.0.0 < 2 }
{
    let problem = shift_problem(alloc)?;
    compared(alloc, &problem, left, right)
}

/// At 0 both constants give 0 by a derivation of height 1. The shift of `0` gives it by one of height 2, and the shift
/// of `x` gives 1.
#[test]
fn alike_terms_have_equal_marks(rt: HostRuntime) {
    assert_eq!(rt;
        compared_once(rt.alloc(), (ZERO, false), (X, false)),
        Ok((true, 2))
    );
    assert_eq!(rt;
        compared_once(rt.alloc(), (X, true), (X, true)),
        Ok((true, 2))
    );
}

#[test]
fn heights_and_outputs_tell_terms_apart(rt: HostRuntime) {
    assert_eq!(rt;
        compared_once(rt.alloc(), (ZERO, false), (ZERO, true)),
        Ok((false, 2))
    );
    assert_eq!(rt;
        compared_once(rt.alloc(), (ZERO, true), (X, true)),
        Ok((false, 2))
    );
}
