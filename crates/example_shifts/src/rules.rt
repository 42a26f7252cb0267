ghost use Rattle.std.specs.Prelude.{◌≡◌, ◌<◌, ◌++◌, [], ◌∷◌, None, length, All, IfOk, OnOk};
ghost use Rattle.rule_core.specs.Flow.{flow_fault};
ghost use Rattle.rule_core.specs.Rulebooks.{IsRuleOf};
ghost use Rattle.rule_core.specs.declared.rule.Atom.TheVariants.{Fill};
ghost use Rattle.eval_core.specs.ShiftExample.{call_at_next, shift_problem, shift_rule, shifts, x_rule, zero_rule};

use crate::language::{GIVES, SHIFT, X, ZERO};
use expr_core::{Expr, Kids, Op};
use rule_core::{AddError, Atom, Atoms, Call, Names, Rule, Rulebook, Var, Vars, Who};
use sig_core::{ConId, Signature, Sort, Value, bytes_of};
use std::alloc::{AllocError, Global};

/// `(= r e)`, in a rule of a constant.
fn rule_of(alloc: Global, con: ConId, output: Expr) -> Result<Rule, AllocError>
    ensures { IfOk result (λ rule. rule ≡ record zero_rule { con = con; atoms = Fill 1 output ∷ [] }) }
{
    let mut atoms = Atoms::new(alloc);
    atoms.push(Atom::Fill(1, output))?;
    Ok(Rule {
        relation: GIVES,
        con,
        kid_names: Names::new(alloc),
        more: Vars::new(alloc),
        atoms,
    })
}

fn zero_rule(alloc: Global) -> Result<Rule, AllocError>
    ensures { IfOk result (λ rule. rule ≡ zero_rule) }
{
    rule_of(alloc, ZERO, Expr::Lit(Value::Int(0)))
}

fn x_rule(alloc: Global) -> Result<Rule, AllocError>
    ensures { IfOk result (λ rule. rule ≡ x_rule) }
{
    rule_of(alloc, X, Expr::Slot(0))
}

/// `(gives u (+ x 1) q)`
fn call_at_next(alloc: Global) -> Result<Call, AllocError>
    ensures { IfOk result (λ call. call ≡ call_at_next) }
{
    let mut kids = Kids::new(alloc);
    kids.push(Expr::Slot(0))?;
    kids.push(Expr::Lit(Value::Int(1)))?;
    let mut inputs = Kids::new(alloc);
    inputs.push(Expr::Apply(Op::Add, kids))?;
    let mut outputs = Kids::new(alloc);
    outputs.push(Expr::Slot(2))?;
    Ok(Call {
        relation: GIVES,
        who: Who::Child(0),
        inputs,
        outputs,
    })
}

/// `(exists ((q Int)) (and (gives u (+ x 1) q) (= r q)))`
fn shift_rule(alloc: Global) -> Result<Rule, AllocError>
    ensures { IfOk result (λ rule. rule ≡ shift_rule) }
{
    let mut kid_names = Names::new(alloc);
    kid_names.push(bytes_of(alloc, b"u")?)?;
    let mut more = Vars::new(alloc);
    more.push(Var {
        name: bytes_of(alloc, b"q")?,
        sort: Sort::Int,
    })?;
    let mut atoms = Atoms::new(alloc);
    atoms.push(Atom::Call(call_at_next(alloc)?))?;
    atoms.push(Atom::Fill(1, Expr::Slot(2)))?;
    Ok(Rule {
        relation: GIVES,
        con: SHIFT,
        kid_names,
        more,
        atoms,
    })
}

/// Puts a rule last in a short book.
fn add(book: &mut Rulebook, signature: &Signature, rule: Rule) -> Result<(), AddError>
    requires signature { signature.now ≡ shifts }
    requires short { length book.old < 3 }
    requires rule { IsRuleOf shifts rule }
    ensures added { OnOk result (book.new ≡ book.old ++ rule ∷ []) }
    ensures flows { OnOk result (flow_fault shifts rule ≡ None) }
{
    book.add(signature, rule)
}

fn add_zero(alloc: Global, signature: &Signature, book: &mut Rulebook) -> Result<(), AddError>
    requires signature { signature.now ≡ shifts }
    requires short { length book.old < 3 }
    ensures added { OnOk result (book.new ≡ book.old ++ zero_rule ∷ []) }
    ensures flows { OnOk result (flow_fault shifts zero_rule ≡ None) }
{
    let rule = zero_rule(alloc)?;
    add(book, signature, rule)
}

fn add_x(alloc: Global, signature: &Signature, book: &mut Rulebook) -> Result<(), AddError>
    requires signature { signature.now ≡ shifts }
    requires short { length book.old < 3 }
    ensures added { OnOk result (book.new ≡ book.old ++ x_rule ∷ []) }
    ensures flows { OnOk result (flow_fault shifts x_rule ≡ None) }
{
    let rule = x_rule(alloc)?;
    add(book, signature, rule)
}

fn add_shift(alloc: Global, signature: &Signature, book: &mut Rulebook) -> Result<(), AddError>
    requires signature { signature.now ≡ shifts }
    requires short { length book.old < 3 }
    ensures added { OnOk result (book.new ≡ book.old ++ shift_rule ∷ []) }
    ensures flows { OnOk result (flow_fault shifts shift_rule ≡ None) }
{
    let rule = shift_rule(alloc)?;
    add(book, signature, rule)
}

/// Adds the three rules to an empty book.
fn fill(alloc: Global, signature: &Signature, book: &mut Rulebook) -> Result<(), AddError>
    requires signature { signature.now ≡ shifts }
    requires empty { book.old ≡ [] }
    ensures value { OnOk result (book.new ≡ shift_problem.rules) }
    ensures flows { OnOk result (All (λ rule. flow_fault shifts rule ≡ None) shift_problem.rules) }
{
    add_zero(alloc, signature, book)?;
    add_x(alloc, signature, book)?;
    add_shift(alloc, signature, book)?;
    Ok(())
}

pub fn book(alloc: Global, signature: &Signature) -> Result<Rulebook, AddError>
    requires { signature.now ≡ shifts }
    ensures value { IfOk result (λ book. book ≡ shift_problem.rules) }
    ensures flows { IfOk result (λ book. All (λ rule. flow_fault shifts rule ≡ None) shift_problem.rules) }
{
    let mut book = Rulebook::new(alloc);
    fill(alloc, signature, &mut book)?;
    Ok(book)
}
