//! Rules of branches, and their data flow.
ghost use Rattle.std.specs.Prelude.{◌≡◌, ◌≤◌, ◌<◌, ◌+◌, ◌++◌, [], ◌∷◌, None, option_map, map, length, IfOk, IfErr, OnOk, OnErr};
ghost use Rattle.std.specs.Option.{option_copied};
ghost use Rattle.sig_core.specs.Signatures.{kinds_of, plain_sorts};
ghost use Rattle.sig_core.specs.Texts.{IsPart};
ghost use Rattle.rule_core.specs.Flow.{flow_fault};
ghost use Rattle.rule_core.specs.Rulebooks.{IsRuleOf};
ghost use Rattle.sort_core.specs.Errors.{IsDue};
ghost use Rattle.name_core.specs.Faults.{first};
ghost use Rattle.sort_core.specs.Relations.{sort_named};
ghost use Rattle.making_core.specs.Rules.{HasRules, case_flow, case_rules, flow_refusal, place_of_open, place_of_pair, rule_of, var_of};

use crate::making::atoms_from;
use items::at;
use name_core::copy_names;
use rule_core::{AddError, FlowFault, Rule, Rulebook, Var, Vars, input_slots};
use sig_core::{Bytes, ConId, RelId, Signature, params_of};
use sort_core::{ElabError, OpenBranch, OpenCase, OpenExp, sort_named};
use std::alloc::{AllocError, Global};
use syntax_core::{Fault, Pair, refusal};

fn var_of(alloc: Global, pair: &Pair) -> Result<Var, AllocError>
    ensures { IfOk result (λ var. var ≡ var_of pair.now) }
{
    Ok(Var {
        name: pair.name.bytes.copy(alloc)?,
        sort: sort_named(pair.sort.bytes.as_slice()),
    })
}

fn vars_of(alloc: Global, pairs: &[Pair]) -> Result<Vars, AllocError>
    ensures { IfOk result (λ vars. vars ≡ map var_of pairs.now) }
{
    let mut vars = Vars::new(alloc);
    for pair in pairs {
        vars.push(var_of(alloc, pair)?)?;
    }
    Ok(vars)
}

/// The rule of a branch, where the children of the constructor have these names.
fn rule_of(
    alloc: Global,
    signature: &Signature,
    relation: RelId,
    con: ConId,
    kids: &[Bytes],
    branch: &OpenBranch,
) -> Result<Rule, AllocError>
    requires { length (plain_sorts (kinds_of signature.now relation)) ≤ 64 }
    ensures { IfOk result (λ rule. rule ≡ rule_of signature.now relation con kids.now branch.now) }
{
    let mut known = input_slots(alloc, params_of(signature, relation))?;
    Ok(Rule {
        relation,
        con,
        kid_names: copy_names(alloc, kids)?,
        more: vars_of(alloc, branch.around.as_slice())?,
        atoms: atoms_from(alloc, signature, &mut known, branch.atoms.as_slice())?,
    })
}

fn place_of_pair(pair: Option<&Pair>) -> u32
    ensures { result ≡ place_of_pair (option_copied pair.entry) }
{
    match pair {
        Some(pair) => pair.place,
        None => 0,
    }
}

fn place_of_open(e: Option<&OpenExp>) -> u32
    ensures { result ≡ place_of_open (option_copied e.entry) }
{
    match e {
        Some(e) => e.place,
        None => 0,
    }
}

/// The refusal for a fault in data flow, where so many slots come before the existentials.
fn flow_refusal(slots: usize, branch: &OpenBranch, fault: FlowFault) -> Fault
    ensures { result ≡ flow_refusal slots branch.now fault }
{
    if fault.reason == 2 {
        refusal(branch.place, 41)
    } else if fault.reason == 3 {
        let existential = usize::from(fault.slot).saturating_sub(slots);
        refusal(place_of_pair(at(branch.around.as_slice(), existential)), 42)
    } else {
        refusal(
            place_of_open(at(branch.atoms.as_slice(), fault.atom as usize)),
            40,
        )
    }
}

/// Puts the rule of a branch last, if data flow allows it. So many slots come before its existentials.
pub(crate) fn add_rule(
    alloc: Global,
    signature: &Signature,
    rulebook: &mut Rulebook,
    relation: RelId,
    con: ConId,
    kids: &[Bytes],
    slots: usize,
    branch: &OpenBranch,
) -> Result<(), ElabError>
    requires room { length rulebook.old < 16384 }
    requires few { length (plain_sorts (kinds_of signature.now relation)) ≤ 64 }
    requires rule { IsRuleOf signature.now (rule_of signature.now relation con kids.now branch.now) }
    ensures flows { OnOk result (flow_fault signature.now (rule_of signature.now relation con kids.now branch.now) ≡ None) }
    ensures fault { IfErr result (IsDue (option_map (flow_refusal slots branch.now) (flow_fault signature.now (rule_of signature.now relation con kids.now branch.now)))) }
    ensures added { OnOk result (rulebook.new ≡ rulebook.old ++ rule_of signature.now relation con kids.now branch.now ∷ []) }
    ensures unchanged { OnErr result (rulebook.new ≡ rulebook.old) }
{
    let rule = rule_of(alloc, signature, relation, con, kids, branch)?;
    match rulebook.add(signature, rule) {
        Ok(()) => Ok(()),
        Err(AddError::Flow(fault)) => Err(ElabError::Fault(flow_refusal(slots, branch, fault))),
        Err(AddError::Memory) => Err(ElabError::Memory),
    }
}

/// Puts the rules of a case last, up to the first that data flow refuses.
pub(crate) fn add_case(
    alloc: Global,
    signature: &Signature,
    rulebook: &mut Rulebook,
    case: &OpenCase,
) -> Result<(), ElabError>
    requires room { length rulebook.old + length case.now.branches ≤ 16384 }
    requires few { length (plain_sorts (kinds_of signature.now case.now.relation)) ≤ 64 }
    requires rules { HasRules signature.now case.now }
    ensures fault { IfErr result (IsDue (first (case_flow signature.now case.now))) }
    ensures fine { OnOk result (first (case_flow signature.now case.now) ≡ None) }
    ensures added { OnOk result (rulebook.new ≡ rulebook.old ++ case_rules signature.now case.now) }
    ensures part { OnErr result (IsPart rulebook.old rulebook.new (case_rules signature.now case.now)) }
{
    for branch in case.branches.as_slice() {
        match add_rule(
            alloc,
            signature,
            rulebook,
            case.relation,
            case.con,
            case.kids.as_slice(),
            case.slots,
            branch,
        ) {
            Ok(()) => {}
            Err(error) => return Err(error),
        }
    }
    Ok(())
}
