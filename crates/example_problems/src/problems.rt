ghost use Rattle.std.specs.Prelude.{◌≡◌, ◌<◌, ◌≤◌, ◌+◌, IfOk, OnOk, length, All};
ghost use Rattle.problem_core.specs.Soundness.{IsSoundConstraint, IsSoundGrammar, IsSoundRule, wanted_type};
ghost use Rattle.rule_core.specs.Rulebooks.{IsRuleOf};
ghost use Rattle.example_problems.specs.Examples.{example, gives_value, the_type, wanted_value};

use crate::language::{TERM, example};
use expr_core::Expr;
use grammar_core::{Grammar, GrammarError};
use problem_core::{Constraint, Constraints, Infos, Problem};
use rule_core::{AddError, Atom, Atoms, Names, Rule, Rulebook, Vars};
use sig_core::{Bytes, ConId, RelId, Signature, Value, Values};
use std::alloc::{AllocError, Global};

/// The relation that gives a number.
const GIVES: RelId = RelId(0);

/// A rule that gives the constant this value.
fn rule(alloc: Global, constant: ConId, value: u8) -> Result<Rule, AllocError>
    requires { constant.0 < 2 }
    ensures value { IfOk result (λ rule. rule ≡ gives_value constant value) }
    ensures fits { IfOk result (IsRuleOf example) }
{
    let mut atoms = Atoms::new(alloc);
    atoms.push(Atom::Fill(0, Expr::Lit(Value::Int(i128::from(value)))))?;
    Ok(Rule {
        relation: GIVES,
        con: constant,
        kid_names: Names::new(alloc),
        more: Vars::new(alloc),
        atoms,
    })
}

fn add_rule(
    alloc: Global,
    signature: &Signature,
    book: &mut Rulebook,
    constant: ConId,
    value: u8,
) -> Result<(), AddError>
    requires signature { signature.now ≡ example }
    requires constant { constant.0 < 2 }
    requires room { length book.old < 3 }
    requires sound { All (IsSoundRule example) book.old }
    ensures sound { OnOk result (All (IsSoundRule example) book.new) }
    ensures grown { OnOk result (length book.new ≡ length book.old + 1) }
{
    let rule = rule(alloc, constant, value)?;
    book.add(signature, rule)?;
    Ok(())
}

/// The first constant gives 1. The second gives 0, by its first rule, and 1.
fn rules(alloc: Global, signature: &Signature) -> Result<Rulebook, AddError>
    requires { signature.now ≡ example }
    ensures sound { IfOk result (All (IsSoundRule example)) }
    ensures few { IfOk result (λ book. length book ≤ 3) }
{
    let mut book = Rulebook::new(alloc);
    add_rule(alloc, signature, &mut book, ConId(0), 1)?;
    add_rule(alloc, signature, &mut book, ConId(1), 0)?;
    add_rule(alloc, signature, &mut book, ConId(1), 1)?;
    Ok(book)
}

fn wanted(alloc: Global, value: u8) -> Result<Constraint, AllocError>
    ensures { IfOk result (λ constraint. constraint ≡ wanted_value value) }
{
    let mut args = Values::new(alloc);
    args.push(Value::Int(i128::from(value)))?;
    Ok(Constraint {
        relation: GIVES,
        args,
    })
}

fn constraint(alloc: Global, value: u8) -> Result<Constraint, AllocError>
    ensures { IfOk result (IsSoundConstraint example the_type) }
{
    let constraint = wanted(alloc, value)?;
    Ok(constraint)
}

/// A constraint for each of these values.
fn constraints(alloc: Global, values: &[u8]) -> Result<Constraints, AllocError>
    ensures sound { IfOk result (All (IsSoundConstraint example the_type)) }
    ensures count { IfOk result (λ constraints. length constraints ≡ length values.now) }
{
    let mut constraints = Constraints::new(alloc);
    for value in values {
        let constraint = constraint(alloc, *value)?;
        constraints.push(constraint)?;
    }
    Ok(constraints)
}

fn whole(alloc: Global, signature: &Signature) -> Result<Grammar, AllocError>
    requires { signature.now ≡ example }
    ensures sound { IfOk result (IsSoundGrammar example) }
    ensures wanted { IfOk result (λ grammar. wanted_type grammar ≡ the_type) }
{
    let grammar = Grammar::all(alloc, signature, TERM)?;
    Ok(grammar)
}

/// The grammar of the first constant alone.
fn narrow(alloc: Global, signature: &Signature) -> Result<Grammar, GrammarError>
    requires { signature.now ≡ example }
    ensures sound { IfOk result (IsSoundGrammar example) }
    ensures wanted { IfOk result (λ grammar. wanted_type grammar ≡ the_type) }
{
    let mut grammar = Grammar::new(alloc);
    let start = grammar.add_nonterminal(b"A", TERM)?;
    grammar.add_production(signature, start, ConId(0), &[])?;
    Ok(grammar)
}

/// A term of the grammar is wanted that gives each of these values. None where memory is refused.
fn problem_over(
    alloc: Global,
    signature: Signature,
    grammar: Grammar,
    values: &[u8],
) -> Option<Problem>
    requires signature { signature ≡ example }
    requires grammar { IsSoundGrammar example grammar }
    requires wanted { wanted_type grammar ≡ the_type }
    requires few { length values.now ≤ 9 }
{
    // Its contract says that the signature is well-formed.
    let _types = signature.types();
    let Ok(rules) = rules(alloc, &signature) else {
        return None;
    };
    let Ok(constraints) = constraints(alloc, values) else {
        return None;
    };
    let infos = Infos::new(alloc);
    let wanted = Bytes::new(alloc);
    Some(Problem::new(infos, signature, rules, grammar, wanted, constraints))
}

/// Any term is wanted that gives each of these values. None where memory is refused, or there are more than nine.
pub fn problem(alloc: Global, values: &[u8]) -> Option<Problem> {
    if values.len() > 9 {
        return None;
    }
    let Ok(signature) = example(alloc) else {
        return None;
    };
    let Ok(grammar) = whole(alloc, &signature) else {
        return None;
    };
    problem_over(alloc, signature, grammar, values)
}

/// The first constant is wanted, and it is to give 1. None where memory is refused.
pub fn narrow_problem(alloc: Global) -> Option<Problem> {
    let Ok(signature) = example(alloc) else {
        return None;
    };
    let Ok(grammar) = narrow(alloc, &signature) else {
        return None;
    };
    problem_over(alloc, signature, grammar, &[1])
}
