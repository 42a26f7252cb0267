//! The names of expressions, looked up.
ghost use Rattle.std.specs.Prelude.{◌≡◌, ◌≤◌, ◌++◌, Some, length, map, IfOk};
ghost use Rattle.sort_core.specs.Opens.{application_node, literal_node, negated_literal, negated_in, opened, opened_application, operation_node, relation_named, symbol_node};
ghost use Rattle.sort_core.specs.declared.open.OpenNode.{out-OpenNode};

use crate::open::{OpenExp, OpenExps, OpenNode};
use crate::variables::Variables;
use expr_core::Op;
use name_core::place_of;
use rule_core::Who;
use sexpr_core::Atom;
use sig_core::{RelId, Signature};
use std::alloc::{AllocError, Global};
use syntax_core::{Application, Exp, Literal, literal_named, negative, operator_named, positive};

/// A symbol that is no variable.
fn literal_node(atom: &Atom) -> OpenNode
    ensures { result ≡ literal_node atom.now }
{
    match literal_named(atom.bytes.as_slice()) {
        Some(literal) => OpenNode::Literal(atom.place, literal),
        None => OpenNode::Literal(atom.place, Literal::Truth(false)),
    }
}

/// What a symbol stands for.
fn symbol_node(variables: &Variables, atom: &Atom) -> OpenNode
    requires slots { length variables.now.slots ≤ 256 }
    requires children { length variables.now.children ≤ 256 }
    ensures { result ≡ symbol_node variables.now atom.now }
{
    let name = atom.bytes.as_slice();
    if let Some(slot) = place_of(variables.slots.as_slice(), name) {
        return OpenNode::Slot(slot as u8);
    }
    if let Some(child) = place_of(variables.children.as_slice(), name) {
        return OpenNode::Term(Who::Child(child as u8));
    }
    if place_of(variables.own.as_slice(), name).is_some() {
        OpenNode::Term(Who::Own)
    } else {
        literal_node(atom)
    }
}

/// The literal of the negated number, of a number that is 0 or more.
fn negated_literal(place: u32, literal: Literal) -> Option<OpenNode>
    ensures { result ≡ negated_literal place literal }
{
    match literal {
        Literal::Number(Some(number)) if number >= 0 => Some(OpenNode::Literal(
            place,
            Literal::Number(Some(-number)),
        )),
        _ => None,
    }
}

fn negated(e: &OpenExp) -> Option<OpenNode>
    ensures { result ≡ negated_in (out-OpenNode e.now.node) }
{
    match &e.node {
        OpenNode::Literal(place, literal) => negated_literal(*place, *literal),
        _ => None,
    }
}

/// An operator and its operands; a minus over a literal of 0 or more is read as a literal.
fn operation_node(op: Op, args: OpenExps) -> OpenNode
    ensures { result ≡ operation_node op args }
{
    if let (Op::Minus, [operand]) = (op, args.as_slice()) {
        if let Some(node) = negated(operand) {
            return node;
        }
    }
    OpenNode::Apply(op, args)
}

pub fn relation_named(signature: &Signature, name: &[u8]) -> RelId
    ensures { result ≡ relation_named signature.now name.now }
{
    match signature.relation_named(name) {
        Some(relation) => relation,
        None => RelId(signature.relations()),
    }
}

fn application_node(signature: &Signature, head: &[u8], args: OpenExps) -> OpenNode
    ensures { result ≡ application_node signature.now head.now args }
{
    match operator_named(head) {
        Some(op) => operation_node(op, args),
        None => OpenNode::Call(relation_named(signature, head), args),
    }
}

/// An expression over these variables.
#[cycle(opening)]
pub fn opened(
    alloc: Global,
    signature: &Signature,
    variables: &Variables,
    e: &Exp,
) -> Result<OpenExp, AllocError>
    requires slots { length variables.now.slots ≤ 256 }
    requires children { length variables.now.children ≤ 256 }
    ensures { IfOk result (λ made. made ≡ opened signature.now variables.now e.now) }
{
    match e {
        Exp::Symbol(atom) => Ok(OpenExp {
            place: atom.place,
            node: symbol_node(variables, atom),
        }),
        Exp::Numeral(atom) => Ok(OpenExp {
            place: atom.place,
            node: OpenNode::Literal(atom.place, positive(atom.bytes.as_slice())),
        }),
        Exp::Negative(negated) => Ok(OpenExp {
            place: negated.place,
            node: OpenNode::Literal(
                negated.numeral.place,
                negative(negated.numeral.bytes.as_slice()),
            ),
        }),
        Exp::Apply(application) => Ok(opened_application(
            alloc,
            signature,
            variables,
            application,
        )?),
    }
}

#[cycle(opening)]
fn opened_application(
    alloc: Global,
    signature: &Signature,
    variables: &Variables,
    application: &Application,
) -> Result<OpenExp, AllocError>
    requires slots { length variables.now.slots ≤ 256 }
    requires children { length variables.now.children ≤ 256 }
    ensures { IfOk result (λ made. made ≡ opened_application signature.now
        (record { place = application.now.place; head = application.now.head; args = map (opened signature.now variables.now) application.now.args })) }
{
    let args = opened_all(alloc, signature, variables, application.args.as_slice())?;
    Ok(OpenExp {
        place: application.place,
        node: application_node(signature, application.head.bytes.as_slice(), args),
    })
}

/// Expressions over these variables.
#[cycle(opening)]
pub fn opened_all(
    alloc: Global,
    signature: &Signature,
    variables: &Variables,
    expressions: &[Exp],
) -> Result<OpenExps, AllocError>
    requires slots { length variables.now.slots ≤ 256 }
    requires children { length variables.now.children ≤ 256 }
    ensures { IfOk result (λ opens. opens ≡ map (opened signature.now variables.now) expressions.now) }
{
    let mut opens = OpenExps::new(alloc);
    for e in expressions {
        opens.push(opened(alloc, signature, variables, e)?)?;
    }
    Ok(opens)
}
