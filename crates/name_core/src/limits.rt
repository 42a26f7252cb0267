//! The limits of declared types, constructors, nonterminals and productions, and of names.
ghost use Rattle.std.specs.Prelude.{◌≡◌, ◌<◌, ◌≤◌, ◌+◌, ◌++◌, map, length, IfNone, IfOk};
ghost use Rattle.std.specs.List.{flat_map};
ghost use Rattle.std.specs.Result.{result_err};
ghost use Rattle.sexpr_core.specs.Access.{place_of, parts_of, item_of, others_of};
ghost use Rattle.syntax_core.specs.Syntax.{atom_of, items_at, pair_of};
ghost use Rattle.name_core.specs.Faults.{first, found_from, past};
ghost use Rattle.name_core.specs.Limits.{constructor_limits, long_name, pair_limits, production_limits, type_limits, types_limits, wanted_limits};

use sexpr_core::{Atom, Sexpr, item_of, others_of, parts_of};
use syntax_core::{Fault, items_at};

fn passed(limit: u8, place: u32) -> Fault
    ensures { result ≡ record { place = place; reason = 50; limit = limit } }
{
    Fault {
        place,
        reason: 50,
        limit,
    }
}

/// The fault of a node of this number, from 0, where at most so many may stand.
pub(crate) fn past(most: usize, limit: u8, number: usize, place: u32) -> Option<Fault>
    ensures value { result ≡ first (past most limit number place) }
    ensures room { IfNone result (number < most) }
{
    if number < most {
        None
    } else {
        Some(passed(limit, place))
    }
}

/// The fault of a declared name that is longer than 1,024 bytes.
pub(crate) fn long_name(name: &Atom) -> Option<Fault>
    ensures { result ≡ first (long_name name.now) }
{
    if name.bytes.len() <= 1024 {
        None
    } else {
        Some(passed(4, name.place))
    }
}

/// The same of a symbol.
fn long_symbol(form: &Sexpr) -> Option<Fault>
    ensures { result ≡ first (long_name (atom_of form.now)) }
{
    match form.symbol() {
        Some(name) if name.len() > 1024 => Some(passed(4, form.place())),
        _ => None,
    }
}

/// What limit a type passes, or its name.
#[tactic(auto, using(crate::proofs::Firsts::firsts))]
fn type_limit(number: usize, pair: &Sexpr) -> Option<Fault>
    ensures value { result ≡ first (type_limits number (pair_of pair.now).name) }
    ensures room { IfNone result (number < 256) }
{
    let name = item_of(0, pair);
    if let Some(fault) = long_symbol(name) {
        return Some(fault);
    }
    past(256, 5, number, name.place())
}

/// The first of the types that passes a limit, where the first has this number.
#[tactic(auto, using(crate::proofs::Firsts::firsts))]
fn each_type_limit(number: usize, pairs: &[Sexpr]) -> Option<Fault>
    ensures { result ≡ first (found_from type_limits number (map (λ pair. (pair_of pair).name) pairs.now)) }
{
    let mut next = number;
    for pair in pairs {
        if let Some(fault) = type_limit(next, pair) {
            return Some(fault);
        }
        next += 1;
    }
    None
}

/// What limit a constructor passes that is a list.
#[tactic(auto, using(crate::proofs::Firsts::firsts))]
fn list_limit(number: usize, form: &Sexpr) -> Option<Fault>
    ensures value { result ≡ first (past 4096 6 number (place_of form.now)
        ++ past 17 7 (length (others_of form.now)) (place_of form.now) ++ long_name (atom_of (item_of 0 form.now))) }
    ensures room { IfNone result (number < 4096) }
{
    let place = form.place();
    if let Some(fault) = past(4096, 6, number, place) {
        return Some(fault);
    }
    if let Some(fault) = past(17, 7, others_of(form).len(), place) {
        return Some(fault);
    }
    long_symbol(item_of(0, form))
}

/// What limit a constructor passes that is a symbol.
#[tactic(auto, using(crate::proofs::Firsts::firsts))]
fn symbol_limit(number: usize, form: &Sexpr) -> Option<Fault>
    ensures value { result ≡ first (long_name (atom_of form.now) ++ past 4096 6 number (place_of form.now)) }
    ensures room { IfNone result (number < 4096) }
{
    if let Some(fault) = long_symbol(form) {
        return Some(fault);
    }
    past(4096, 6, number, form.place())
}

/// What limit a constructor passes, or its name.
fn constructor_limit(number: usize, form: &Sexpr) -> Option<Fault>
    ensures value { result ≡ first (constructor_limits number form.now) }
    ensures room { IfNone result (number < 4096) }
{
    if form.symbol().is_some() {
        symbol_limit(number, form)
    } else {
        list_limit(number, form)
    }
}

/// The number after the last constructor of a group, where the first has this number; else the first that passes a
/// limit.
#[tactic(auto, using(crate::proofs::Firsts::firsts))]
fn group_limit(number: usize, forms: &[Sexpr]) -> Result<usize, Fault>
    ensures fault { result_err result ≡ first (found_from constructor_limits number forms.now) }
    ensures next { IfOk result (λ next. next ≡ number + length forms.now) }
{
    let mut next = number;
    for form in forms {
        if let Some(fault) = constructor_limit(next, form) {
            return Err(fault);
        }
        next += 1;
    }
    Ok(next)
}

/// The first constructor of the groups that passes a limit, where the first has this number.
#[tactic(auto, using(crate::proofs::Numbering::numbered))]
fn each_constructor_limit(number: usize, groups: &[Sexpr]) -> Option<Fault>
    ensures { result ≡ first (found_from constructor_limits number (flat_map parts_of groups.now)) }
{
    let mut next = number;
    for group in groups {
        match group_limit(next, parts_of(group)) {
            Ok(after) => next = after,
            Err(fault) => return Some(fault),
        }
    }
    None
}

/// The leftmost node of a `declare-term-types` that passes a limit, where so many types and constructors come before it.
#[tactic(auto, using(crate::proofs::Firsts::firsts))]
pub(crate) fn types_limit(types: usize, constructors: usize, form: &Sexpr) -> Option<Fault>
    ensures { result ≡ first (types_limits types constructors form.now) }
{
    if let Some(fault) = each_type_limit(types, items_at(1, form)) {
        return Some(fault);
    }
    each_constructor_limit(constructors, items_at(2, form))
}

#[tactic(auto, using(crate::proofs::Firsts::firsts))]
fn nonterminal_limit(number: usize, pair: &Sexpr) -> Option<Fault>
    ensures value { result ≡ first (pair_limits 256 12 number (pair_of pair.now)) }
    ensures room { IfNone result (number < 256) }
{
    if let Some(fault) = past(256, 12, number, pair.place()) {
        return Some(fault);
    }
    long_symbol(item_of(0, pair))
}

/// The first of the nonterminals that passes a limit.
#[tactic(auto, using(crate::proofs::Firsts::firsts))]
fn each_nonterminal_limit(pairs: &[Sexpr]) -> Option<Fault>
    ensures { result ≡ first (found_from (pair_limits 256 12) 0 (map pair_of pairs.now)) }
{
    let mut next = 0;
    for pair in pairs {
        if let Some(fault) = nonterminal_limit(next, pair) {
            return Some(fault);
        }
        next += 1;
    }
    None
}

/// The number after the last of the productions, where the first has this number; else the first past the limit.
#[tactic(auto, using(crate::proofs::Firsts::firsts))]
fn productions_limit(number: usize, forms: &[Sexpr]) -> Result<usize, Fault>
    ensures fault { result_err result ≡ first (found_from production_limits number forms.now) }
    ensures next { IfOk result (λ next. next ≡ number + length forms.now) }
{
    let mut next = number;
    for form in forms {
        if let Some(fault) = past(4096, 13, next, form.place()) {
            return Err(fault);
        }
        next += 1;
    }
    Ok(next)
}

/// The first production of the groups past the limit.
#[tactic(auto, using(crate::proofs::Numbering::numbered))]
fn each_production_limit(groups: &[Sexpr]) -> Option<Fault>
    ensures { result ≡ first (found_from production_limits 0 (flat_map (items_at 2) groups.now)) }
{
    let mut next = 0;
    for group in groups {
        match productions_limit(next, items_at(2, group)) {
            Ok(after) => next = after,
            Err(fault) => return Some(fault),
        }
    }
    None
}

/// The leftmost node of a `synth-fun` that passes a limit.
#[tactic(auto, using(crate::proofs::Firsts::firsts))]
pub(crate) fn wanted_limit(form: &Sexpr) -> Option<Fault>
    ensures { result ≡ first (wanted_limits form.now) }
{
    if let Some(fault) = long_symbol(item_of(1, form)) {
        return Some(fault);
    }
    if let Some(fault) = each_nonterminal_limit(items_at(4, form)) {
        return Some(fault);
    }
    each_production_limit(items_at(5, form))
}
