ghost use Rattle.std.specs.Prelude.{◌≡◌, ◌+◌, ◌<◌, ◌^◌, IfOk, map, slice_get};
ghost use Rattle.std.specs.Result.{result_err, result_ok};
ghost use Rattle.expr_core.specs.Sorts.{is_wanted, stated_result, wanted_sort};
ghost use Rattle.expr_core.specs.Expressions.{node_count, sort_in};
ghost use Rattle.expr_core.specs.Faults.{first_fault, first_fault_from, reason_in, reasons_in, stated_sort, survey};

use crate::expr::{Expr, Op};
use crate::table::takes;
use items::at;
use sig_core::{Sort, Value};

/// A bad node of an expression. Nodes count from 0 in pre-order: a node before its operands, these from the left.
///
/// The reasons are 1 for a slot out of scope, 2 for a number of operands that the operator doesn't take, and 3 for an
/// operand of another sort than the operator wants. Each node states a sort: a slot that of the scope, and Bool out of
/// scope; a literal its own; an operator that of its result, and `ite` that of its second operand, Bool without one.
/// `=` and `distinct` want the sort that their first operand states, the branches of `ite` that of the first branch.
#[derive(Clone, Copy, Debug, PartialEq, Eq)]
pub struct SortFault {
    /// the node's number in pre-order
    pub node: u32,
    /// 1, 2 or 3
    pub reason: u8,
}

impl Expr {
    /// The sort of the expression, where slot k has the sort `scope[k]`; else the bad node of least number, with its
    /// least reason.
    pub fn sort_of(&self, scope: &[Sort]) -> Result<Sort, SortFault>
        requires { node_count self.now < 2 ^ 32 }
        ensures sort { result_ok result ≡ sort_in scope.now self.now }
        ensures fault { result_err result ≡ first_fault scope.now self.now }
    {
        check(self, None, scope, 0)?;
        Ok(stated_sort(self, scope))
    }
}

/// Looks for the first bad node, where the parent wants this sort and the first node has this number; else answers the
/// number after the last node.
fn check(expr: &Expr, wanted: Option<Sort>, scope: &[Sort], node: u32) -> Result<u32, SortFault>
    requires { node + node_count expr.now < 2 ^ 32 }
    ensures fault { result_err result ≡ first_fault_from node (reasons_in wanted (survey scope.now expr.now)) }
    ensures next { IfOk result (λ next. next ≡ node + node_count expr.now) }
{
    if let Some(reason) = reason_at(expr, wanted, scope) {
        return Err(SortFault { node, reason });
    }
    let mut next = node + 1;
    if let Expr::Apply(op, kids) = expr {
        let kids = kids.as_slice();
        for i in 0..kids.len() {
            next = check(&kids[i], wanted_sort(*op, kids, scope, i), scope, next)?;
        }
    }
    Ok(next)
}

/// The least reason by which the node itself is bad, where its parent wants this sort.
fn reason_at(expr: &Expr, wanted: Option<Sort>, scope: &[Sort]) -> Option<u8>
    ensures { result ≡ reason_in wanted (survey scope.now expr.now) }
{
    match own_reason(expr, scope) {
        Some(reason) => Some(reason),
        None if is_wanted(wanted, stated_sort(expr, scope)) => None,
        None => Some(3),
    }
}

/// The reason by which the node is bad whatever its parent wants.
fn own_reason(expr: &Expr, scope: &[Sort]) -> Option<u8>
    ensures { result ≡ (survey scope.now expr.now).own }
{
    match expr {
        Expr::Slot(slot) if usize::from(*slot) < scope.len() => None,
        Expr::Slot(_) => Some(1),
        Expr::Lit(_) => None,
        Expr::Apply(op, kids) if takes(*op, kids.len()) => None,
        Expr::Apply(_, _) => Some(2),
    }
}

fn is_wanted(wanted: Option<Sort>, sort: Sort) -> bool
    ensures { result ≡ is_wanted wanted sort }
{
    match (wanted, sort) {
        (None, _) | (Some(Sort::Int), Sort::Int) | (Some(Sort::Bool), Sort::Bool) => true,
        _ => false,
    }
}

/// The sort that the operator wants of the operand at this place.
fn wanted_sort(op: Op, kids: &[Expr], scope: &[Sort], place: usize) -> Option<Sort>
    ensures { result ≡ wanted_sort op (map (stated_sort scope.now) kids.now) place }
{
    match op {
        Op::Not | Op::And | Op::Or | Op::Xor | Op::Implies => Some(Sort::Bool),
        Op::Ite if place == 0 => Some(Sort::Bool),
        Op::Ite => stated_at(kids, scope, 1),
        Op::Equal | Op::Distinct => stated_at(kids, scope, 0),
        Op::Add
        | Op::Minus
        | Op::Times
        | Op::Div
        | Op::Mod
        | Op::Abs
        | Op::Less
        | Op::AtMost
        | Op::Greater
        | Op::AtLeast => Some(Sort::Int),
    }
}

fn stated_at(kids: &[Expr], scope: &[Sort], place: usize) -> Option<Sort>
    ensures { result ≡ slice_get (map (stated_sort scope.now) kids.now) place }
{
    match at(kids, place) {
        Some(kid) => Some(stated_sort(kid, scope)),
        None => None,
    }
}

#[cycle(stated)]
fn stated_sort(expr: &Expr, scope: &[Sort]) -> Sort
    ensures { result ≡ stated_sort scope.now expr.now }
{
    match expr {
        Expr::Slot(slot) => at(scope, usize::from(*slot)).copied().unwrap_or(Sort::Bool),
        Expr::Lit(Value::Int(_)) => Sort::Int,
        Expr::Lit(Value::Bool(_)) => Sort::Bool,
        Expr::Apply(op, kids) => stated_result(*op, kids.as_slice(), scope),
    }
}

#[cycle(stated)]
fn stated_result(op: Op, kids: &[Expr], scope: &[Sort]) -> Sort
    ensures { result ≡ stated_result op (map (stated_sort scope.now) kids.now) }
{
    match op {
        Op::Ite => match kids {
            [_, second, ..] => stated_sort(second, scope),
            _ => Sort::Bool,
        },
        Op::Add | Op::Minus | Op::Times | Op::Div | Op::Mod | Op::Abs => Sort::Int,
        Op::Not
        | Op::And
        | Op::Or
        | Op::Xor
        | Op::Implies
        | Op::Equal
        | Op::Distinct
        | Op::Less
        | Op::AtMost
        | Op::Greater
        | Op::AtLeast => Sort::Bool,
    }
}
