//! The rules of functions, put into a book of rules up to the first that data flow refuses.
ghost use Rattle.std.specs.Prelude.{◌≡◌, ◌≤◌, ◌+◌, ◌++◌, None, length, sum_by, All, IfErr, OnOk, OnErr};
ghost use Rattle.std.specs.List.{flat_map};
ghost use Rattle.sig_core.specs.Texts.{IsPart};
ghost use Rattle.sort_core.specs.Errors.{IsDue};
ghost use Rattle.name_core.specs.Faults.{first};
ghost use Rattle.making_core.specs.Rules.{HasFewPlain, HasRules, case_flow, case_rules};

use crate::rules::add_case;
use rule_core::Rulebook;
use sig_core::Signature;
use sort_core::{ElabError, OpenCase};
use std::alloc::Global;

/// Puts the rules of cases last, in order, up to the first that data flow refuses.
///
/// `Fault` is that of the first such rule: reason 40 at its first atom that uses an unknown variable, 41 at the leaf whose
/// output isn't known, 42 at the pair of an existential that isn't known. After an error a first part of the rules was added.
#[tactic(auto, using(name_core::proofs::Firsts::firsts))]
pub fn add_cases(
    alloc: Global,
    signature: &Signature,
    rulebook: &mut Rulebook,
    cases: &[OpenCase],
) -> Result<(), ElabError>
    requires room { length rulebook.old + sum_by (λ case. length case.branches) cases.now ≤ 16384 }
    requires few { All (HasFewPlain signature.now) cases.now }
    requires rules { All (HasRules signature.now) cases.now }
    ensures fault { IfErr result (IsDue (first (flat_map (case_flow signature.now) cases.now))) }
    ensures fine { OnOk result (first (flat_map (case_flow signature.now) cases.now) ≡ None) }
    ensures added { OnOk result (rulebook.new ≡ rulebook.old ++ flat_map (case_rules signature.now) cases.now) }
    ensures part { OnErr result (IsPart rulebook.old rulebook.new (flat_map (case_rules signature.now) cases.now)) }
{
    for case in cases {
        match add_case(alloc, signature, rulebook, case) {
            Ok(()) => {}
            Err(error) => return Err(error),
        }
    }
    Ok(())
}
