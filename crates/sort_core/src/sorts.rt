//! The sorts of expressions.
ghost use Rattle.std.specs.Prelude.{◌≡◌, map};
ghost use Rattle.std.specs.List.{flat_map};
ghost use Rattle.syntax_core.specs.Literals.{is_out_of_range};
ghost use Rattle.name_core.specs.Faults.{bad_if, first};
ghost use Rattle.sort_core.specs.Sorts.{faults_as, operand_faults, operand_faults_at, operand_sort, same_stated, stated_at, stated_sort, survey, wanted_sort};

use crate::open::{OpenExp, OpenNode};
use expr_core::Op;
use items::at;
use sig_core::Sort;
use syntax_core::{Fault, Literal, is_out_of_range, refusal, sort_of_literal};

/// The fault of a number that is out of range, at its digits.
fn range_fault(digits: u32, literal: Literal) -> Option<Fault>
    ensures { result ≡ first (bad_if (is_out_of_range literal) 31 digits) }
{
    if is_out_of_range(literal) {
        Some(refusal(digits, 31))
    } else {
        None
    }
}

/// The sort that the operator wants of each operand, where it doesn't depend on the operands.
fn operand_sort(op: Op) -> Sort
    ensures { result ≡ operand_sort op }
{
    match op {
        Op::Not | Op::And | Op::Or | Op::Xor | Op::Implies => Sort::Bool,
        _ => Sort::Int,
    }
}

fn same_stated(one: Option<Sort>, other: Option<Sort>) -> bool
    ensures { result ≡ same_stated one other }
{
    match (one, other) {
        (Some(sort), Some(same)) => sort == same,
        (None, None) => true,
        _ => false,
    }
}

/// The sort that an expression states over slots of these sorts: none for a variable for terms.
#[cycle(stated)]
#[tactic(auto, using(crate::proofs::Surveys::surveys))]
fn stated(slots: &[Sort], e: &OpenExp) -> Option<Sort>
    ensures { result ≡ (survey slots.now e.now).stated }
{
    match &e.node {
        OpenNode::Slot(slot) => at(slots, usize::from(*slot)).copied(),
        OpenNode::Term(_) => None,
        OpenNode::Literal(_, literal) => Some(sort_of_literal(*literal)),
        OpenNode::Apply(op, kids) => stated_by(slots, *op, kids.as_slice()),
        OpenNode::Call(_, _) => Some(Sort::Bool),
    }
}

/// The sort that an operator states.
#[cycle(stated)]
fn stated_by(slots: &[Sort], op: Op, kids: &[OpenExp]) -> Option<Sort>
    ensures { result ≡ stated_sort op (map (λ e. e.stated) (map (survey slots.now) kids.now)) }
{
    match op {
        Op::Ite => stated_at(slots, kids, 1),
        Op::Add | Op::Minus | Op::Times | Op::Div | Op::Mod | Op::Abs => Some(Sort::Int),
        _ => Some(Sort::Bool),
    }
}

/// The sort that the operand in this place states.
#[cycle(stated)]
fn stated_at(slots: &[Sort], kids: &[OpenExp], k: usize) -> Option<Sort>
    ensures { result ≡ stated_at (map (λ e. e.stated) (map (survey slots.now) kids.now)) k }
{
    if k < kids.len() {
        stated(slots, &kids[k])
    } else {
        None
    }
}

/// The sort that the operator wants of its operand in place k.
fn wanted_sort(slots: &[Sort], op: Op, kids: &[OpenExp], k: usize) -> Option<Sort>
    ensures { result ≡ wanted_sort op (map (λ e. e.stated) (map (survey slots.now) kids.now)) k }
{
    match op {
        Op::Equal | Op::Distinct => stated_at(slots, kids, 0),
        Op::Ite if k == 0 => Some(Sort::Bool),
        Op::Ite => stated_at(slots, kids, 1),
        _ => Some(operand_sort(op)),
    }
}

/// Whether the expression is bad at every operand place: a variable for terms, or a call.
fn is_misplaced(slots: &[Sort], e: &OpenExp) -> bool
    ensures { result ≡ (survey slots.now e.now).is_misplaced }
{
    match &e.node {
        OpenNode::Term(_) | OpenNode::Call(_, _) => true,
        OpenNode::Slot(_) | OpenNode::Literal(_, _) | OpenNode::Apply(_, _) => false,
    }
}

/// The leftmost fault of an expression where this sort is wanted.
#[cycle(faults)]
#[tactic(auto, using(name_core::proofs::Firsts::firsts))]
pub(crate) fn fault_as(want: Option<Sort>, slots: &[Sort], e: &OpenExp) -> Option<Fault>
    ensures { result ≡ first (faults_as want (survey slots.now e.now)) }
{
    if !same_stated(want, stated(slots, e)) || is_misplaced(slots, e) {
        return Some(refusal(e.place, 30));
    }
    inner_fault(slots, e)
}

/// The leftmost fault that an expression has wherever it stands.
#[cycle(faults)]
#[tactic(auto, using(crate::proofs::Surveys::surveys))]
pub(crate) fn inner_fault(slots: &[Sort], e: &OpenExp) -> Option<Fault>
    ensures { result ≡ first (survey slots.now e.now).inner }
{
    match &e.node {
        OpenNode::Slot(_) | OpenNode::Term(_) => None,
        OpenNode::Literal(digits, literal) => range_fault(*digits, *literal),
        OpenNode::Apply(op, kids) => operand_fault(slots, *op, kids.as_slice()),
        OpenNode::Call(_, args) => first_inner(slots, args.as_slice()),
    }
}

/// The leftmost fault of an operator's operands.
#[cycle(faults)]
#[tactic(auto, using(name_core::proofs::Firsts::firsts))]
fn operand_fault(slots: &[Sort], op: Op, kids: &[OpenExp]) -> Option<Fault>
    ensures { result ≡ first (operand_faults op (map (survey slots.now) kids.now)) }
{
    for (k, kid) in kids.iter().enumerate() {
        if let Some(fault) = operand_fault_at(slots, kid, op, kids, k) {
            return Some(fault);
        }
    }
    None
}

/// The leftmost fault of an operand, which is the one in place k of these.
#[cycle(faults)]
#[tactic(auto, unfolding(crate::specs::Sorts::operand_faults_at))]
fn operand_fault_at(
    slots: &[Sort],
    kid: &OpenExp,
    op: Op,
    kids: &[OpenExp],
    k: usize,
) -> Option<Fault>
    ensures { result ≡ first (operand_faults_at op (map (survey slots.now) kids.now) k (survey slots.now kid.now)) }
{
    fault_as(wanted_sort(slots, op, kids, k), slots, kid)
}

/// The leftmost fault that one of the expressions has wherever it stands.
#[cycle(faults)]
#[tactic(auto, using(name_core::proofs::Firsts::firsts))]
fn first_inner(slots: &[Sort], args: &[OpenExp]) -> Option<Fault>
    ensures { result ≡ first (flat_map (λ e. e.inner) (map (survey slots.now) args.now)) }
{
    for arg in args {
        if let Some(fault) = inner_fault(slots, arg) {
            return Some(fault);
        }
    }
    None
}
