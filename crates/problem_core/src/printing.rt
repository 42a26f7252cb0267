//! The canonical text of a problem.
ghost use Rattle.std.specs.Prelude.{◌≡◌, ◌<◌, ◌∷◌, ◌++◌, map, length, IfOk, OnOk};
ghost use Rattle.std.specs.List.{flat_map};
ghost use Rattle.sexpr_core.specs.Texts.{form_text};
ghost use Rattle.problem_core.specs.Soundness.{wanted_type};
ghost use Rattle.problem_core.specs.Texts.{constraint_form, functions_forms, info_line, line, literal_form, next_text, problem_text, symbol_form, synth_form, types_form, value_text, with_term};

use crate::atom_texts::put_next_name;
use crate::expr_texts::put_literal;
use crate::grammar_texts::put_synth;
use crate::names::{params_of, relation_name};
use crate::parts::{Constraint, Info};
use crate::problem::Problem;
use crate::rule_texts::put_functions;
use crate::type_texts::put_types;
use grammar_core::Grammar;
use rule_core::Rulebook;
use sig_core::{Bytes, Kind, Param, Signature, Value, put_symbol};
use std::alloc::{AllocError, Global};

impl Problem {
    /// The canonical text of the problem, as a file states it: each command stands on a line of its own, in canonical
    /// spelling. The format is this project's own.
    pub fn print(&self, alloc: Global) -> Result<Bytes, AllocError>
        ensures { IfOk result (λ text. text ≡ problem_text self.now) }
    {
        let signature = self.signature();
        let wanted = self.wanted().as_slice();
        let mut text = Bytes::new(alloc);
        put_infos(self.infos(), &mut text)?;
        put_declarations(signature, self.rulebook(), &mut text)?;
        put_wanted(alloc, signature, self.grammar(), wanted, &mut text)?;
        put_constraints(signature, wanted, self.constraints(), &mut text)?;
        text.append(b"(check-synth)\n")?;
        Ok(text)
    }
}

fn put_infos(infos: &[Info], out: &mut Bytes) -> Result<(), AllocError>
    ensures { OnOk result (out.new ≡ out.old ++ flat_map info_line infos.now) }
{
    for info in infos {
        put_info(info, out)?;
    }
    Ok(())
}

fn put_info(info: &Info, out: &mut Bytes) -> Result<(), AllocError>
    ensures { OnOk result (out.new ≡ out.old ++ info_line info.now) }
{
    out.append(b"(set-info :")?;
    out.append(info.key.as_slice())?;
    put_info_value(info.value.as_slice(), out)?;
    out.append(b")\n")?;
    Ok(())
}

/// A space and the value, if there is one.
fn put_info_value(value: &[u8], out: &mut Bytes) -> Result<(), AllocError>
    ensures { OnOk result (out.new ≡ out.old ++ value_text value.now) }
{
    if value.is_empty() {
        return Ok(());
    }
    out.push(b' ')?;
    out.append(value)?;
    Ok(())
}

/// The types and, if there are any, the relations.
#[tactic(auto, using(crate::proofs::Forms::no_functions_lines, crate::proofs::Forms::functions_lines))]
fn put_declarations(
    signature: &Signature,
    rulebook: &Rulebook,
    out: &mut Bytes,
) -> Result<(), AllocError>
    ensures { OnOk result (out.new ≡ out.old ++ line (types_form signature.now) ++ flat_map line (functions_forms signature.now rulebook.now)) }
{
    put_types(signature, out)?;
    out.push(b'\n')?;
    if signature.relations() == 0 {
        return Ok(());
    }
    put_functions(signature, rulebook, out)?;
    out.push(b'\n')?;
    Ok(())
}

/// The wanted function and its grammar.
fn put_wanted(
    alloc: Global,
    signature: &Signature,
    grammar: &Grammar,
    wanted: &[u8],
    out: &mut Bytes,
) -> Result<(), AllocError>
    requires start { 0 < length grammar.now }
    requires declared { (wanted_type grammar.now).0 < length signature.now.types }
    ensures { OnOk result (out.new ≡ out.old ++ line (synth_form signature.now grammar.now wanted.now)) }
{
    put_synth(alloc, signature, grammar, wanted, out)?;
    out.push(b'\n')?;
    Ok(())
}

fn put_constraints(
    signature: &Signature,
    wanted: &[u8],
    constraints: &[Constraint],
    out: &mut Bytes,
) -> Result<(), AllocError>
    ensures { OnOk result (out.new ≡ out.old ++ flat_map (λ c. line (constraint_form signature.now wanted.now c)) constraints.now) }
{
    for constraint in constraints {
        put_constraint(signature, wanted, constraint, out)?;
    }
    Ok(())
}

#[tactic(auto, using(crate::proofs::Forms::constraint_text))]
fn put_constraint(
    signature: &Signature,
    wanted: &[u8],
    constraint: &Constraint,
    out: &mut Bytes,
) -> Result<(), AllocError>
    ensures { OnOk result (out.new ≡ out.old ++ line (constraint_form signature.now wanted.now constraint.now)) }
{
    out.push(b'(')?;
    put_symbol(b"constraint", out)?;
    out.append(b" (")?;
    put_symbol(relation_name(signature, constraint.relation), out)?;
    put_args(
        params_of(signature, constraint.relation),
        wanted,
        constraint.args.as_slice(),
        out,
    )?;
    out.append(b"))")?;
    out.push(b'\n')?;
    Ok(())
}

/// A space and the argument, for each parameter.
fn put_args(
    params: &[Param],
    wanted: &[u8],
    values: &[Value],
    out: &mut Bytes,
) -> Result<(), AllocError>
    ensures { OnOk result (out.new ≡ out.old ++ flat_map next_text (with_term (map (λ p. p.kind) params.now) (symbol_form wanted.now) (map literal_form values.now))) }
{
    let [param, rest @ ..] = params else {
        return Ok(());
    };
    if let Kind::Term(_) = param.kind {
        put_next_name(wanted, out)?;
        return put_args(rest, wanted, values, out);
    }
    let [first, others @ ..] = values else {
        return Ok(());
    };
    put_next_literal(first, out)?;
    put_args(rest, wanted, others, out)
}

/// A space and the literal.
fn put_next_literal(value: &Value, out: &mut Bytes) -> Result<(), AllocError>
    ensures { OnOk result (out.new ≡ out.old ++ next_text (literal_form value.now)) }
{
    out.push(b' ')?;
    put_literal(value, out)?;
    Ok(())
}
