//! The functions of a command, with their names looked up.
ghost use Rattle.std.specs.Prelude.{◌≡◌, ◌≤◌, ◌<◌, ◌+◌, ◌++◌, None, unwrap_or, [], map, length, All, ◌^◌, IfErr, OnOk, IfOk};
ghost use Rattle.std.specs.List.{flat_map};
ghost use Rattle.sort_core.specs.Branches.{HasNarrowCases, IsNarrow, open_case, open_cases};
ghost use Rattle.sort_core.specs.Errors.{IsDue};
ghost use Rattle.name_core.specs.Faults.{first};
ghost use Rattle.name_core.specs.Names.{term_pairs};
ghost use Rattle.sort_core.specs.Relations.{sort_of_pair, type_named};
ghost use Rattle.sort_core.specs.Sorts.{case_faults, declaration_faults, definition_faults, functions_faults, matched_type};

use crate::branch::OpenCases;
use crate::cases::open_case;
use crate::error::ElabError;
use name_core::is_plain;
use sig_core::{RelId, Signature, TypeId};
use std::alloc::Global;
use syntax_core::{Case, Fault, Function, Pair, refusal};

/// The name of the sort or type that the pair with this name has, empty where there is none.
fn sort_of_pair<'p>(pairs: &'p [Pair], name: &[u8]) -> &'p [u8]
    ensures { result.now ≡ unwrap_or (sort_of_pair pairs.now name.now) [] }
{
    for pair in pairs {
        if pair.name.bytes.as_slice() == name {
            return pair.sort.bytes.as_slice();
        }
    }
    &[]
}

/// The type of this name.
pub fn type_named(signature: &Signature, name: &[u8]) -> TypeId
    ensures { result ≡ type_named signature.now name.now }
{
    match signature.type_named(name) {
        Some(found) => found,
        None => TypeId(signature.types()),
    }
}

/// The type of the term that a function matches.
fn matched_type(signature: &Signature, function: &Function) -> TypeId
    ensures { result ≡ matched_type signature.now function.now }
{
    let params = function.declaration.params.as_slice();
    type_named(
        signature,
        sort_of_pair(params, function.definition.matched.bytes.as_slice()),
    )
}

/// Puts the cases of a function last, which defines this relation and matches terms of this type.
#[tactic(auto, using(name_core::proofs::Firsts::firsts))]
fn put_cases(
    alloc: Global,
    signature: &Signature,
    relation: RelId,
    function: &Function,
    owner: TypeId,
    cases: &[Case],
    out: &mut OpenCases,
) -> Result<(), ElabError>
    requires { All (IsNarrow function.now) cases.now }
    ensures fault { IfErr result (IsDue (first (flat_map (case_faults signature.now function.now owner) cases.now))) }
    ensures fine { OnOk result (first (flat_map (case_faults signature.now function.now owner) cases.now) ≡ None) }
    ensures made { OnOk result (out.new ≡ out.old ++ map (open_case signature.now relation function.now) cases.now) }
{
    for case in cases {
        match open_case(alloc, signature, relation, function, owner, case) {
            Ok(made) => out.push(made)?,
            Err(error) => return Err(error),
        }
    }
    Ok(())
}

/// Puts the cases of a function last, which defines this relation.
fn put_function(
    alloc: Global,
    signature: &Signature,
    relation: RelId,
    function: &Function,
    out: &mut OpenCases,
) -> Result<(), ElabError>
    requires { HasNarrowCases function.now }
    ensures fault { IfErr result (IsDue (first (definition_faults signature.now function.now))) }
    ensures fine { OnOk result (first (definition_faults signature.now function.now) ≡ None) }
    ensures made { OnOk result (out.new ≡ out.old ++ map (open_case signature.now relation function.now) function.now.definition.cases) }
{
    let owner = matched_type(signature, function);
    let cases = function.definition.cases.as_slice();
    put_cases(alloc, signature, relation, function, owner, cases, out)
}

/// How many of the parameters are terms.
fn term_count(pairs: &[Pair]) -> usize
    ensures { result ≡ length (term_pairs pairs.now) }
{
    pairs.iter().filter(|pair| !is_plain(*pair)).count()
}

/// The fault of a declaration that hasn't exactly one parameter for terms.
fn declaration_fault(function: &Function) -> Option<Fault>
    ensures { result ≡ first (declaration_faults function.now) }
{
    if term_count(function.declaration.params.as_slice()) == 1 {
        None
    } else {
        Some(refusal(function.declaration.place, 30))
    }
}

/// The leftmost declaration that has not exactly one parameter for terms: reason 30.
#[tactic(auto, using(name_core::proofs::Firsts::firsts))]
pub fn declarations_fault(functions: &[Function]) -> Option<Fault>
    ensures { result ≡ first (flat_map declaration_faults functions.now) }
{
    for function in functions {
        if let Some(fault) = declaration_fault(function) {
            return Some(fault);
        }
    }
    None
}

/// Puts the cases of functions last, of which the first defines the relation with this number.
#[tactic(auto, using(name_core::proofs::Firsts::firsts))]
fn put_functions(
    alloc: Global,
    signature: &Signature,
    number: u16,
    functions: &[Function],
    out: &mut OpenCases,
) -> Result<(), ElabError>
    requires numbers { number + length functions.now ≤ 2 ^ 16 }
    requires narrow { All HasNarrowCases functions.now }
    ensures fault { IfErr result (IsDue (first (flat_map (definition_faults signature.now) functions.now))) }
    ensures fine { OnOk result (first (flat_map (definition_faults signature.now) functions.now) ≡ None) }
    ensures made { OnOk result (out.new ≡ out.old ++ open_cases signature.now number functions.now) }
{
    for (k, function) in functions.iter().enumerate() {
        let relation = RelId(number + k as u16);
        match put_function(alloc, signature, relation, function, out) {
            Ok(()) => {}
            Err(error) => return Err(error),
        }
    }
    Ok(())
}

/// The cases of functions, of which the first defines the relation with this number.
///
/// The signature has the relations of these functions. `Fault` is the leftmost node of a wrong sort (reason 30) or number
/// out of range (reason 31).
#[tactic(auto, using(name_core::proofs::Firsts::firsts))]
pub fn open_functions(
    alloc: Global,
    signature: &Signature,
    number: u16,
    functions: &[Function],
) -> Result<OpenCases, ElabError>
    requires numbers { number + length functions.now ≤ 2 ^ 16 }
    requires narrow { All HasNarrowCases functions.now }
    ensures fault { IfErr result (IsDue (first (functions_faults signature.now functions.now))) }
    ensures fine { OnOk result (first (functions_faults signature.now functions.now) ≡ None) }
    ensures made { IfOk result (λ cases. cases ≡ open_cases signature.now number functions.now) }
{
    if let Some(fault) = declarations_fault(functions) {
        return Err(ElabError::Fault(fault));
    }
    let mut cases = OpenCases::new(alloc);
    match put_functions(alloc, signature, number, functions, &mut cases) {
        Ok(()) => Ok(cases),
        Err(error) => Err(error),
    }
}
