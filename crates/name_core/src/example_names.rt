//! The limits and the names of the calls of examples.
ghost use Rattle.std.specs.Prelude.{◌≡◌, ◌≤◌, ◌+◌, Some, None, length, IfNone};
ghost use Rattle.std.specs.List.{flat_map};
ghost use Rattle.name_core.specs.Faults.{first, found_from};
ghost use Rattle.name_core.specs.Limits.{call_limits};
ghost use Rattle.name_core.specs.Names.{argument_names, call_names};

use sig_core::Signature;
use syntax_core::{Application, Exp, Fault, literal_named, refusal};

/// The first call past the limit of 1,024, where the first of these has this number.
#[tactic(auto, using(crate::proofs::Firsts::firsts))]
pub fn calls_limit(number: usize, calls: &[Application]) -> Option<Fault>
    requires { number ≤ 1024 }
    ensures value { result ≡ first (found_from call_limits number calls.now) }
    ensures room { IfNone result (number + length calls.now ≤ 1024) }
{
    let mut next = number;
    for call in calls {
        if next >= 1024 {
            return Some(Fault {
                place: call.place,
                reason: 50,
                limit: 14,
            });
        }
        next += 1;
    }
    None
}

/// The fault of an argument that is a symbol, and neither the wanted function nor a literal.
fn argument_name(wanted: &[u8], e: &Exp) -> Option<Fault>
    ensures { result ≡ first (argument_names wanted.now e.now) }
{
    match e {
        Exp::Symbol(atom) => {
            let name = atom.bytes.as_slice();
            if wanted == name || literal_named(name).is_some() {
                None
            } else {
                Some(refusal(atom.place, 20))
            }
        }
        Exp::Numeral(_) | Exp::Negative(_) | Exp::Apply(_) => None,
    }
}

/// The leftmost wrong name of arguments.
#[tactic(auto, using(crate::proofs::Firsts::firsts))]
fn arguments_name(wanted: &[u8], args: &[Exp]) -> Option<Fault>
    ensures { result ≡ first (flat_map (argument_names wanted.now) args.now) }
{
    for arg in args {
        if let Some(fault) = argument_name(wanted, arg) {
            return Some(fault);
        }
    }
    None
}

/// The leftmost wrong name of a call.
#[tactic(auto, using(crate::proofs::Firsts::firsts))]
fn call_name(signature: &Signature, wanted: &[u8], call: &Application) -> Option<Fault>
    ensures { result ≡ first (call_names signature.now wanted.now call.now) }
{
    if signature
        .relation_named(call.head.bytes.as_slice())
        .is_none()
    {
        return Some(refusal(call.head.place, 20));
    }
    arguments_name(wanted, call.args.as_slice())
}

/// The leftmost wrong name of calls, where the wanted function has this name.
#[tactic(auto, using(crate::proofs::Firsts::firsts))]
pub fn calls_name(signature: &Signature, wanted: &[u8], calls: &[Application]) -> Option<Fault>
    ensures { result ≡ first (flat_map (call_names signature.now wanted.now) calls.now) }
{
    for call in calls {
        if let Some(fault) = call_name(signature, wanted, call) {
            return Some(fault);
        }
    }
    None
}
