//! Data flow of a rule, one atom after another.
ghost use Rattle.std.specs.Prelude.{◌≡◌, ◌+◌, ◌<◌, ◌≤◌, ◌^◌, ◌++◌, map, length, slice_get, All, IfOk, IfSome, Some, None, false, if◌then◌else◌};
ghost use Rattle.std.specs.List.{list_all};
ghost use Rattle.std.specs.Option.{option_map_or};
ghost use lib.Pointwise.{pointwise};
ghost use Rattle.sig_core.specs.Signatures.{kinds_of, plain_sorts, input_slots, output_slots, term_type};
ghost use Rattle.expr_core.specs.Expressions.{node_count};
ghost use Rattle.rule_core.specs.Instances.{slot_sorts};
ghost use Rattle.expr_core.specs.declared.expr.Expr.{out-Expr};
ghost use Rattle.sig_core.specs.Lists.{numbers_from};
ghost use Rattle.rule_core.specs.Flow.{bare_slot, known_after_output, is_in, is_known, has_sort, type_at, same_type, fits_call, fits, known_after, known_after_outputs, unknown_in, existential_slots, end_fault, fault_from, flow_fault};
ghost use Rattle.rule_core.specs.Modes.{sort_in_mode, sorts_of};
ghost use Rattle.rule_core.specs.Rulebooks.{IsSmall, HasSmallParts, IsRuleOf};

use crate::rule::{Atom, Call, Rule, Var, Who};
use expr_core::Expr;
use items::Items;
use sig_core::{Bytes, ConId, Kind, Param, RelId, Signature, Sort, TypeId, count_plain, params_of};
use std::alloc::{AllocError, Global};
use thiserror::Error;

type Sorts = Items<Sort>;

/// Where a rule first fails data flow. Reason 1: an atom uses an unknown variable. Reason 2: an output isn't filled.
/// Reason 3: an existential isn't filled. Reason 4: a relation, child, slot, number of arguments, type or sort of an
/// atom doesn't fit.
#[derive(Clone, Copy, Debug, PartialEq, Eq, Drop, Error)]
#[error("the rule fails data flow")]
pub struct FlowFault {
    pub reason: u8,
    /// the number of the atom, for reasons 2 and 3 that of all atoms
    pub atom: u32,
    /// the slot that isn't filled, for reasons 1 and 4 it is 0
    pub slot: u8,
}

/// Which parameters of a relation.
#[derive(Clone, Copy, Debug)]
pub(crate) enum Mode {
    Input,
    Output,
}

/// Why a rule was not added.
#[derive(Clone, Copy, Debug, PartialEq, Eq, Drop, Error)]
pub enum AddError {
    #[error("the rule fails data flow")]
    Flow(FlowFault),
    #[error("out of memory")]
    Memory,
}

impl From<AllocError> for AddError {
    ghost use Rattle.std.specs.Prelude.{◌≡◌};
    ghost use Rattle.rule_core.specs.declared.flow.AddError.TheVariants.{Memory};

    ghost from_gives = { λ _ e. e ≡ Memory };

    fn from(_error: AllocError) -> AddError {
        AddError::Memory
    }
}

/// The first fault in data flow, in order of the atoms.
pub(crate) fn flow_fault(
    alloc: Global,
    signature: &Signature,
    rule: &Rule,
) -> Result<Option<FlowFault>, AllocError>
    requires { IsRuleOf signature.now rule.now }
    ensures { IfOk result (λ fault. fault ≡ flow_fault signature.now rule.now) }
{
    let params = params_of(signature, rule.relation);
    let scope = slot_sorts(alloc, params, rule.more.as_slice())?;
    let mut known = input_slots(alloc, params)?;
    let mut number = 0;
    for atom in rule.atoms.as_slice() {
        if !fits(signature, rule, scope.as_slice(), known.as_slice(), atom) {
            return Ok(Some(fault_at_atom(4, number)));
        }
        if !learn(&mut known, atom)? {
            return Ok(Some(fault_at_atom(1, number)));
        }
        number += 1;
    }
    Ok(end_fault(params, rule.more.as_slice(), known.as_slice(), number))
}

fn fault_at_atom(reason: u8, atom: u32) -> FlowFault
    ensures { result ≡ record { reason = reason; atom = atom; slot = 0 } }
{
    FlowFault {
        reason,
        atom,
        slot: 0,
    }
}

fn slot_sorts(alloc: Global, params: &[Param], more: &[Var]) -> Result<Sorts, AllocError>
    ensures { IfOk result (λ sorts. sorts ≡ plain_sorts (map (λ p. p.kind) params.now) ++ map (λ v. v.sort) more.now) }
{
    let mut sorts = Sorts::new(alloc);
    put_plain_sorts(params, &mut sorts)?;
    for var in more {
        sorts.push(var.sort)?;
    }
    Ok(sorts)
}

fn put_plain_sorts(params: &[Param], sorts: &mut Sorts) -> Result<(), AllocError>
    ensures { IfOk result (λ _. sorts.new ≡ sorts.old ++ plain_sorts (map (λ p. p.kind) params.now)) }
{
    for param in params {
        match param.kind {
            Kind::Term(_) => {}
            Kind::Input(sort) => sorts.push(sort)?,
            Kind::Output(sort) => sorts.push(sort)?,
        }
    }
    Ok(())
}

/// The slots of a relation's inputs, in order of its parameters.
pub fn input_slots(alloc: Global, params: &[Param]) -> Result<Bytes, AllocError>
    requires { length (plain_sorts (map (λ p. p.kind) params.now)) ≤ 64 }
    ensures { IfOk result (λ slots. slots ≡ input_slots (map (λ p. p.kind) params.now)) }
{
    let mut slots = Bytes::new(alloc);
    let mut slot = 0;
    for param in params {
        match param.kind {
            Kind::Term(_) => {}
            Kind::Input(_) => {
                slots.push(slot)?;
                slot += 1;
            }
            Kind::Output(_) => slot += 1,
        }
    }
    Ok(slots)
}

fn fits(signature: &Signature, rule: &Rule, scope: &[Sort], known: &[u8], atom: &Atom) -> bool
    requires rule { IsRuleOf signature.now rule.now }
    requires scope { scope.now ≡ slot_sorts signature.now rule.now }
    requires small { HasSmallParts atom.now }
    ensures { result ≡ fits signature.now rule.now known.now atom.now }
{
    match atom {
        Atom::Call(call) => fits_call(signature, rule.con, scope, call),
        Atom::Fill(slot, expr) => !known.contains(slot) && has_sort_of(scope, expr, *slot),
        Atom::Test(expr) => has_sort(scope, expr, Sort::Bool),
    }
}

#[tactic(auto, using(crate::proofs::Arguments::mode_sorts))]
fn fits_call(signature: &Signature, con: ConId, scope: &[Sort], call: &Call) -> bool
    requires con { con.0 < length signature.now.constructors }
    requires inputs { All IsSmall call.now.inputs }
    requires outputs { All IsSmall call.now.outputs }
    ensures { result ≡ fits_call signature.now con scope.now call.now }
{
    let params = params_of(signature, call.relation);
    same_type(term_type(params), type_at(signature, con, call.who))
        && arguments_fit(scope, call.inputs.as_slice(), params, Mode::Input)
        && arguments_fit(scope, call.outputs.as_slice(), params, Mode::Output)
}

/// Whether there are two types, and they are the same one.
pub fn same_type(left: Option<TypeId>, right: Option<TypeId>) -> bool
    ensures { result ≡ same_type left right }
{
    match (left, right) {
        (Some(left), Some(right)) => left.0 == right.0,
        _ => false,
    }
}

fn term_type(params: &[Param]) -> Option<TypeId>
    ensures { result ≡ term_type (map (λ p. p.kind) params.now) }
{
    for param in params {
        if let Kind::Term(owner) = param.kind {
            return Some(owner);
        }
    }
    None
}

fn type_at(signature: &Signature, con: ConId, who: Who) -> Option<TypeId>
    requires { con.0 < length signature.now.constructors }
    ensures { result ≡ type_at (slice_get signature.now.constructors con.0) who }
{
    let constructor = signature.constructor(con);
    match who {
        Who::Own => Some(constructor.owner),
        Who::Child(child) => items::at(constructor.args.as_slice(), usize::from(child)).copied(),
    }
}

fn has_sort(scope: &[Sort], expr: &Expr, sort: Sort) -> bool
    requires { IsSmall expr.now }
    ensures { result ≡ has_sort scope.now expr.now sort }
{
    match expr.sort_of(scope) {
        Ok(found) => found == sort,
        Err(_) => false,
    }
}

fn has_sort_of(scope: &[Sort], expr: &Expr, slot: u8) -> bool
    requires { IsSmall expr.now }
    ensures { result ≡ option_map_or (has_sort scope.now expr.now) (slice_get scope.now slot) false }
{
    match items::at(scope, usize::from(slot)) {
        Some(sort) => has_sort(scope, expr, *sort),
        None => false,
    }
}

/// Whether these are as many as the parameters of the mode, and of their sorts.
fn arguments_fit(scope: &[Sort], arguments: &[Expr], params: &[Param], mode: Mode) -> bool
    requires { All IsSmall arguments.now }
    ensures { result ≡ pointwise (has_sort scope.now) arguments.now (sorts_of mode (map (λ p. p.kind) params.now)) }
{
    let mut rest = arguments;
    for param in params {
        let Some(sort) = sort_in_mode(mode, param.kind) else {
            continue;
        };
        let Some((expr, others)) = rest.split_first() else {
            return false;
        };
        if !has_sort(scope, expr, sort) {
            return false;
        }
        rest = others;
    }
    rest.is_empty()
}

/// The sort of a parameter of the mode.
fn sort_in_mode(mode: Mode, kind: Kind) -> Option<Sort>
    ensures { result ≡ sort_in_mode mode kind }
{
    match (mode, kind) {
        (Mode::Input, Kind::Input(sort)) | (Mode::Output, Kind::Output(sort)) => Some(sort),
        _ => None,
    }
}

/// Whether only known slots stand in the expression.
#[tactic(auto, using(crate::proofs::Equations::expr_equations))]
pub fn is_known(known: &[u8], expr: &Expr) -> bool
    ensures { result ≡ is_known known.now expr.now }
{
    match expr {
        Expr::Slot(slot) => known.contains(slot),
        Expr::Lit(_) => true,
        Expr::Apply(_, kids) => {
            for kid in kids.as_slice() {
                if !is_known(known, kid) {
                    return false;
                }
            }
            true
        }
    }
}

fn are_known(known: &[u8], exprs: &[Expr]) -> bool
    ensures { result ≡ list_all (is_known known.now) exprs.now }
{
    for expr in exprs {
        if !is_known(known, expr) {
            return false;
        }
    }
    true
}

/// Adds the slots that the atom makes known, if it uses known ones alone; else answers false, with some of its outputs
/// perhaps added.
pub fn learn(known: &mut Bytes, atom: &Atom) -> Result<bool, AllocError>
    ensures { IfOk result (λ passes. (if passes then Some known.new else None) ≡ known_after known.old atom.now) }
{
    match atom {
        Atom::Call(call) => {
            if !are_known(known.as_slice(), call.inputs.as_slice()) {
                return Ok(false);
            }
            learn_outputs(known, call.outputs.as_slice())
        }
        Atom::Fill(slot, expr) => {
            if !is_known(known.as_slice(), expr) {
                return Ok(false);
            }
            known.push(*slot)?;
            Ok(true)
        }
        Atom::Test(expr) => Ok(is_known(known.as_slice(), expr)),
    }
}

fn learn_outputs(known: &mut Bytes, outputs: &[Expr]) -> Result<bool, AllocError>
    ensures { IfOk result (λ passes. (if passes then Some known.new else None) ≡ known_after_outputs known.old outputs.now) }
{
    for expr in outputs {
        if !learn_output(known, expr)? {
            return Ok(false);
        }
    }
    Ok(true)
}

#[tactic(auto, using(crate::proofs::Equations::expr_equations))]
fn learn_output(known: &mut Bytes, output: &Expr) -> Result<bool, AllocError>
    ensures { IfOk result (λ passes. (if passes then Some known.new else None) ≡ known_after_output known.old (bare_slot (out-Expr output.now)) (is_known known.old output.now)) }
{
    let Expr::Slot(slot) = output else {
        return Ok(is_known(known.as_slice(), output));
    };
    if !known.as_slice().contains(slot) {
        known.push(*slot)?;
    }
    Ok(true)
}

fn end_fault(params: &[Param], more: &[Var], known: &[u8], atoms: u32) -> Option<FlowFault>
    requires { length (plain_sorts (map (λ p. p.kind) params.now)) + length more.now ≤ 64 }
    ensures { result ≡ end_fault (map (λ p. p.kind) params.now) more.now known.now atoms }
{
    if let Some(slot) = unknown_output(params, known) {
        return Some(FlowFault {
            reason: 2,
            atom: atoms,
            slot,
        });
    }
    let slot = unknown_existential(count_plain(params) as u8, more, known)?;
    Some(FlowFault {
        reason: 3,
        atom: atoms,
        slot,
    })
}

fn unknown_output(params: &[Param], known: &[u8]) -> Option<u8>
    requires { length (plain_sorts (map (λ p. p.kind) params.now)) ≤ 64 }
    ensures { result ≡ unknown_in known.now (output_slots (map (λ p. p.kind) params.now)) }
{
    let mut slot = 0;
    for param in params {
        match param.kind {
            Kind::Term(_) => {}
            Kind::Input(_) => slot += 1,
            Kind::Output(_) => {
                if !known.contains(&slot) {
                    return Some(slot);
                }
                slot += 1;
            }
        }
    }
    None
}

fn unknown_existential(first: u8, more: &[Var], known: &[u8]) -> Option<u8>
    requires { first + length more.now ≤ 64 }
    ensures { result ≡ unknown_in known.now (numbers_from first more.now) }
{
    let mut slot = first;
    for _var in more {
        if !known.contains(&slot) {
            return Some(slot);
        }
        slot += 1;
    }
    None
}
