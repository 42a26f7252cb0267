//! The cases of functions, with their names looked up.
ghost use Rattle.std.specs.Prelude.{◌≡◌, ◌≤◌, ◌<◌, ◌+◌, ◌++◌, None, Some, IsTrue, length, slice_get, IfOk, IfErr, OnOk, []};
ghost use Rattle.std.specs.List.{flat_map};
ghost use Rattle.std.specs.Result.{result_err};
ghost use Rattle.sort_core.specs.Branches.{IsNarrow, constructor_named, open_branches, open_case};
ghost use Rattle.sort_core.specs.Errors.{IsDue};
ghost use Rattle.name_core.specs.Faults.{first};
ghost use Rattle.name_core.specs.Names.{is_plain, names_in, plain_pairs, term_pairs, texts};
ghost use Rattle.sort_core.specs.Opens.{variables_of};
ghost use Rattle.sort_core.specs.Sorts.{branch_faults, case_faults, makes, pattern_faults, sorts_of};
ghost use Rattle.sig_core.specs.Signatures.{plain_sorts};
ghost use Rattle.sort_core.specs.Relations.{sort_named};

use crate::atom_sorts::atoms_fault;
use crate::branch::{OpenBranch, OpenBranches, OpenCase};
use crate::branching::put_branches;
use crate::error::ElabError;
use crate::variables::Variables;
use items::{Items, at};
use name_core::is_plain;
use rule_core::Names;
use sexpr_core::Atom;
use sig_core::{ConId, Constructor, RelId, Signature, Sort, TypeId, is_word};
use std::alloc::{AllocError, Global};
use syntax_core::{Case, Fault, Function, Pair, Pattern, refusal};

type Sorts = Items<Sort>;

/// The names of the parameters that aren't terms.
fn plain_names(alloc: Global, pairs: &[Pair]) -> Result<Names, AllocError>
    ensures { IfOk result (λ names. names ≡ names_in (plain_pairs pairs.now)) }
{
    let mut names = Names::new(alloc);
    for pair in pairs {
        if is_plain(pair) {
            names.push(pair.name.bytes.copy(alloc)?)?;
        }
    }
    Ok(names)
}

/// The names of the parameters that are terms.
fn term_names(alloc: Global, pairs: &[Pair]) -> Result<Names, AllocError>
    ensures { IfOk result (λ names. names ≡ names_in (term_pairs pairs.now)) }
{
    let mut names = Names::new(alloc);
    for pair in pairs {
        if !is_plain(pair) {
            names.push(pair.name.bytes.copy(alloc)?)?;
        }
    }
    Ok(names)
}

/// The names of symbols.
fn texts(alloc: Global, symbols: &[Atom]) -> Result<Names, AllocError>
    ensures { IfOk result (λ names. names ≡ texts symbols.now) }
{
    let mut names = Names::new(alloc);
    for symbol in symbols {
        names.push(symbol.bytes.copy(alloc)?)?;
    }
    Ok(names)
}

/// The variables of a function's case.
fn variables_of(alloc: Global, function: &Function, case: &Case) -> Result<Variables, AllocError>
    ensures { IfOk result (λ variables. variables ≡ variables_of function.now case.now) }
{
    let params = function.declaration.params.as_slice();
    Ok(Variables {
        slots: plain_names(alloc, params)?,
        own: term_names(alloc, params)?,
        children: texts(alloc, case.pattern.variables.as_slice())?,
    })
}

/// The sorts of the parameters that aren't terms.
fn plain_sorts(alloc: Global, pairs: &[Pair]) -> Result<Sorts, AllocError>
    ensures { IfOk result (λ sorts. sorts ≡ sorts_of (plain_pairs pairs.now)) }
{
    let mut sorts = Sorts::new(alloc);
    for pair in pairs {
        if is_plain(pair) {
            sorts.push(sort_named(pair.sort.bytes.as_slice()))?;
        }
    }
    Ok(sorts)
}

/// Sorts, and those of pairs after them.
fn with_sorts(alloc: Global, sorts: &[Sort], pairs: &[Pair]) -> Result<Sorts, AllocError>
    ensures { IfOk result (λ all. all ≡ sorts.now ++ sorts_of pairs.now) }
{
    let mut all = Sorts::new(alloc);
    all.append(sorts)?;
    for pair in pairs {
        all.push(sort_named(pair.sort.bytes.as_slice()))?;
    }
    Ok(all)
}

/// The leftmost fault of a branch's atoms, where the slots before its existentials are of these sorts.
fn branch_fault(
    alloc: Global,
    signature: &Signature,
    con: &Constructor,
    sorts: &[Sort],
    branch: &OpenBranch,
) -> Result<Option<Fault>, AllocError>
    ensures { IfOk result (λ fault. fault ≡ first (branch_faults signature.now (Some con.now) sorts.now branch.now)) }
{
    let slots = with_sorts(alloc, sorts, branch.around.as_slice())?;
    Ok(atoms_fault(signature, con, slots.as_slice(), branch.atoms.as_slice()))
}

/// The leftmost fault of branches.
#[tactic(auto, using(name_core::proofs::Firsts::firsts))]
fn branches_fault(
    alloc: Global,
    signature: &Signature,
    con: &Constructor,
    sorts: &[Sort],
    branches: &[OpenBranch],
) -> Result<Option<Fault>, AllocError>
    ensures { IfOk result (λ fault. fault ≡ first (flat_map (branch_faults signature.now (Some con.now) sorts.now) branches.now)) }
{
    for branch in branches {
        if let Some(fault) = branch_fault(alloc, signature, con, sorts, branch)? {
            return Ok(Some(fault));
        }
    }
    Ok(None)
}

/// Whether the constructor makes terms of this type from so many children, which are at most 16.
fn makes(owner: TypeId, count: usize, signature: &Signature, con: ConId) -> bool
    requires { con.0 < length signature.now.constructors }
    ensures value { result ≡ makes owner count (slice_get signature.now.constructors con.0) }
    ensures few { IsTrue result → count ≤ 16 }
{
    let _types = signature.types();
    let constructor = signature.constructor(con);
    constructor.owner.0 == owner.0 && constructor.args.len() == count
}

/// The constructor of a pattern, where terms of this type are matched: reason 30 where it makes none of that type, or has
/// another number of children.
fn pattern_constructor(
    signature: &Signature,
    owner: TypeId,
    pattern: &Pattern,
) -> Result<ConId, Fault>
    ensures fault { result_err result ≡ first (pattern_faults signature.now owner pattern.now) }
    ensures named { IfOk result (λ con. con ≡ constructor_named signature.now pattern.now.name.bytes) }
    ensures within { IfOk result (λ con. con.0 < length signature.now.constructors) }
    ensures few { OnOk result (length pattern.now.variables ≤ 16) }
{
    let Some(con) = signature.constructor_named(pattern.name.bytes.as_slice()) else {
        return Err(refusal(pattern.place, 30));
    };
    if makes(owner, pattern.variables.len(), signature, con) {
        Ok(con)
    } else {
        Err(refusal(pattern.place, 30))
    }
}

/// The branches of a function's case.
fn open_branches(
    alloc: Global,
    signature: &Signature,
    function: &Function,
    case: &Case,
) -> Result<OpenBranches, AllocError>
    requires slots { IsNarrow function.now case.now }
    requires children { length case.now.pattern.variables ≤ 16 }
    ensures { IfOk result (λ branches. branches ≡ open_branches signature.now function.now case.now) }
{
    let variables = variables_of(alloc, function, case)?;
    let mut branches = OpenBranches::new(alloc);
    put_branches(alloc, signature, &variables, &[], &case.body, &mut branches)?;
    Ok(branches)
}

/// The leftmost fault of a case's branches, where its constructor is this one.
fn opened_fault(
    alloc: Global,
    signature: &Signature,
    function: &Function,
    con: ConId,
    branches: &[OpenBranch],
) -> Result<Option<Fault>, AllocError>
    requires { con.0 < length signature.now.constructors }
    ensures { IfOk result (λ fault. fault ≡ first (flat_map
        (branch_faults signature.now (slice_get signature.now.constructors con.0) (sorts_of (plain_pairs function.now.declaration.params))) branches.now)) }
{
    let sorts = plain_sorts(alloc, function.declaration.params.as_slice())?;
    let constructor = signature.constructor(con);
    Ok(branches_fault(alloc, signature, constructor, sorts.as_slice(), branches)?)
}

/// How many of the parameters aren't terms.
fn plain_count(pairs: &[Pair]) -> usize
    ensures { result ≡ length (plain_pairs pairs.now) }
{
    pairs.iter().filter(|pair| is_plain(*pair)).count()
}

/// A case of a function that defines this relation, where terms of this type are matched.
#[tactic(auto, using(name_core::proofs::Firsts::firsts))]
pub(crate) fn open_case(
    alloc: Global,
    signature: &Signature,
    relation: RelId,
    function: &Function,
    owner: TypeId,
    case: &Case,
) -> Result<OpenCase, ElabError>
    requires { IsNarrow function.now case.now }
    ensures fault { IfErr result (IsDue (first (case_faults signature.now function.now owner case.now))) }
    ensures fine { OnOk result (first (case_faults signature.now function.now owner case.now) ≡ None) }
    ensures made { IfOk result (λ made. made ≡ open_case signature.now relation function.now case.now) }
{
    let con = match pattern_constructor(signature, owner, &case.pattern) {
        Ok(con) => con,
        Err(fault) => return Err(ElabError::Fault(fault)),
    };
    let branches = open_branches(alloc, signature, function, case)?;
    if let Some(fault) = opened_fault(alloc, signature, function, con, branches.as_slice())? {
        return Err(ElabError::Fault(fault));
    }
    Ok(OpenCase {
        relation,
        con,
        kids: texts(alloc, case.pattern.variables.as_slice())?,
        slots: plain_count(function.declaration.params.as_slice()),
        branches,
    })
}

/// `Int`, or else Bool.
pub fn sort_named(name: &[u8]) -> Sort
    ensures { result ≡ sort_named name.now }
{
    if is_word(name, b"Int") {
        Sort::Int
    } else {
        Sort::Bool
    }
}
