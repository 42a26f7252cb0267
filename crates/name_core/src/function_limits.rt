//! The limits of relations and of their rules.
ghost use Rattle.std.specs.Prelude.{◌≡◌, ◌<◌, ◌≤◌, ◌+◌, ◌++◌, map, length, IfNone, IfOk};
ghost use Rattle.std.specs.List.{flat_map};
ghost use Rattle.std.specs.Result.{result_err};
ghost use Rattle.name_core.specs.Bodies.{sites_of};
ghost use Rattle.name_core.specs.Faults.{first, found_from};
ghost use Rattle.name_core.specs.Limits.{declaration_limits, functions_limits, long_name, pair_limits, pairs_limits};
ghost use Rattle.name_core.specs.Walks.{bodies_limits, body_limits, counted, rules_of_body, rules_of_site, site_limits, sites_limits, total};

use crate::limits::{long_name, past};
use sexpr_core::Atom;
use syntax_core::{Body, Case, Declaration, Fault, Function, Pair};

/// What limit a pair passes, or its name.
#[tactic(auto, using(crate::proofs::Firsts::firsts))]
fn pair_limit(most: usize, limit: u8, number: usize, pair: &Pair) -> Option<Fault>
    ensures value { result ≡ first (pair_limits most limit number pair.now) }
    ensures room { IfNone result (number < most) }
{
    if let Some(fault) = past(most, limit, number, pair.place) {
        return Some(fault);
    }
    long_name(&pair.name)
}

/// The number after the last of the pairs, where the first has this number; else the first that passes a limit.
#[tactic(auto, using(crate::proofs::Firsts::firsts))]
fn pairs_limit(most: usize, limit: u8, number: usize, pairs: &[Pair]) -> Result<usize, Fault>
    ensures fault { result_err result ≡ first (pairs_limits most limit number pairs.now) }
    ensures next { IfOk result (λ next. next ≡ number + length pairs.now) }
{
    let mut next = number;
    for pair in pairs {
        if let Some(fault) = pair_limit(most, limit, next, pair) {
            return Err(fault);
        }
        next += 1;
    }
    Ok(next)
}

/// The leftmost node of a declaration that passes a limit.
#[tactic(auto, using(crate::proofs::Firsts::firsts))]
fn declaration_limit(number: usize, declaration: &Declaration) -> Option<Fault>
    ensures value { result ≡ first (declaration_limits number declaration.now) }
    ensures room { IfNone result (number < 256) }
{
    if let Some(fault) = past(256, 8, number, declaration.place) {
        return Some(fault);
    }
    if let Some(fault) = long_name(&declaration.name) {
        return Some(fault);
    }
    pairs_limit(32, 9, 0, declaration.params.as_slice()).err()
}

/// The leftmost node of the declarations that passes a limit, where the first has this number.
#[tactic(auto, using(crate::proofs::Firsts::firsts))]
fn declarations_limit(number: usize, functions: &[Function]) -> Option<Fault>
    ensures { result ≡ first (found_from (λ n f. declaration_limits n f.declaration) number functions.now) }
{
    let mut next = number;
    for function in functions {
        if let Some(fault) = declaration_limit(next, &function.declaration) {
            return Some(fault);
        }
        next += 1;
    }
    None
}

/// The first of the names that is too long.
#[tactic(auto, using(crate::proofs::Firsts::firsts))]
fn names_limit(names: &[Atom]) -> Option<Fault>
    ensures { result ≡ first (flat_map long_name names.now) }
{
    for name in names {
        if let Some(fault) = long_name(name) {
            return Some(fault);
        }
    }
    None
}

/// The number of the rules up to the body's last, where so many slots are around it and so many rules come before it;
/// else its leftmost node that passes a limit.
#[cycle(body_limits)]
#[tactic(auto, using(crate::proofs::Walking::walkings))]
fn body_limit(slots: usize, rules: usize, body: &Body) -> Result<usize, Fault>
    ensures fault { result_err result ≡ first (body_limits slots rules body.now) }
    ensures next { IfOk result (λ next. next ≡ rules + rules_of_body body.now) }
{
    match body {
        Body::Fork(scope) => {
            let inside = pairs_limit(64, 10, slots, scope.pairs.as_slice())?;
            bodies_limit(inside, rules, scope.bodies.as_slice())
        }
        Body::Leaf(leaf) => match past(16384, 11, rules, leaf.place) {
            Some(fault) => Err(fault),
            None => Ok(rules + 1),
        },
    }
}

/// The number of the rules up to the last of the bodies, or their leftmost node that passes a limit.
#[cycle(body_limits)]
#[tactic(auto, using(crate::proofs::Walking::walkings))]
fn bodies_limit(slots: usize, rules: usize, bodies: &[Body]) -> Result<usize, Fault>
    ensures fault { result_err result ≡ first (bodies_limits slots rules bodies.now) }
    ensures next { IfOk result (λ next. next ≡ rules + total rules_of_body bodies.now) }
{
    let mut next = rules;
    for body in bodies {
        next = body_limit(slots, next, body)?;
    }
    Ok(next)
}

/// The number of the rules up to the case's last, where so many come before it; else its leftmost node that passes a
/// limit.
#[tactic(auto, using(crate::proofs::Walking::walkings))]
fn case_limit(rules: usize, function: &Function, case: &Case) -> Result<usize, Fault>
    ensures fault { result_err result ≡ first (site_limits rules (record { function = function.now; case = case.now })) }
    ensures next { IfOk result (λ next. next ≡ rules + rules_of_body case.now.body) }
{
    if let Some(fault) = names_limit(case.pattern.variables.as_slice()) {
        return Err(fault);
    }
    body_limit(function.declaration.params.len(), rules, &case.body)
}

/// The number of the rules up to the last of a function's cases, or their leftmost node that passes a limit.
#[tactic(auto, using(crate::proofs::Walking::walkings))]
fn cases_limit(rules: usize, function: &Function, cases: &[Case]) -> Result<usize, Fault>
    ensures fault { result_err result ≡ first (sites_limits rules (map (λ case. record { function = function.now; case = case }) cases.now)) }
    ensures next { IfOk result (λ next. next ≡ rules + total rules_of_site (map (λ case. record { function = function.now; case = case }) cases.now)) }
{
    let mut next = rules;
    for case in cases {
        next = case_limit(next, function, case)?;
    }
    Ok(next)
}

/// The leftmost node of definitions that passes a limit, where so many rules come before them.
#[tactic(auto, using(crate::proofs::Walking::walkings))]
fn definitions_limit(rules: usize, functions: &[Function]) -> Option<Fault>
    ensures { result ≡ first (sites_limits rules (sites_of functions.now)) }
{
    let mut next = rules;
    for function in functions {
        match cases_limit(next, function, function.definition.cases.as_slice()) {
            Ok(after) => next = after,
            Err(fault) => return Some(fault),
        }
    }
    None
}

/// The leftmost node of functions that passes a limit, where so many relations and rules come before them.
#[tactic(auto, using(crate::proofs::WalkLaws::first_functions))]
pub(crate) fn functions_limit(
    relations: usize,
    rules: usize,
    functions: &[Function],
) -> Option<Fault>
    ensures { result ≡ first (functions_limits relations rules functions.now) }
{
    if let Some(fault) = declarations_limit(relations, functions) {
        return Some(fault);
    }
    definitions_limit(rules, functions)
}
