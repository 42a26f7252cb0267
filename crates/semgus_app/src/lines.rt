ghost use Rattle.std.specs.Prelude.{◌≡◌, ◌==◌, [], ◌∷◌, ◌++◌, if◌then◌else◌, IfOk, OnOk, decimal};
ghost use Rattle.answer_core.specs.AnswerText.{word};
ghost use Rattle.semgus_app.specs.Lines.{cannot_open_line, read_fault_line, refusal_start, refusal_line, flaw_line, flaw_text};

use crate::due::Due;
use crate::status::{Status, Which};
use answer_core::put_number;
use checking_core::Flaw;
use sig_core::Bytes;
use std::alloc::{AllocError, Global};
use syntax_core::Fault;

/// The reason of a file that passes a limit, whose number is printed with it.
const LIMIT_PASSED: u8 = 50;

/// The line that says that a file could not be begun.
pub fn cannot_open(alloc: Global, name: &str) -> Result<Due, AllocError>
    ensures { IfOk result (λ d. (d.status ≡ Status.CannotOpen) × (d.text ≡ cannot_open_line name.now)) }
{
    let mut text = Bytes::new(alloc);
    text.append(b"cannot open ")?;
    text.append(name.as_bytes())?;
    text.push(b'\n')?;
    Ok(Due {
        status: Status::CannotOpen,
        text,
    })
}

/// The line that says that a read failed.
pub fn read_fault(alloc: Global) -> Result<Due, AllocError>
    ensures { IfOk result (λ d. (d.status ≡ Status.ReadFault) × (d.text ≡ read_fault_line)) }
{
    Ok(Due::line(alloc, Status::ReadFault, b"read fault\n")?)
}

/// The line of a file that is refused.
pub fn refusal(alloc: Global, which: Which, fault: Fault) -> Result<Due, AllocError>
    ensures { IfOk result (λ d. (d.status ≡ Status.Refused which fault) × (d.text ≡ refusal_line which fault)) }
{
    let mut text = Bytes::new(alloc);
    put_start(which, &mut text)?;
    put_number(u64::from(fault.place), &mut text)?;
    put_number(u64::from(fault.reason), &mut text)?;
    put_limit(fault, &mut text)?;
    text.push(b'\n')?;
    Ok(Due {
        status: Status::Refused(which, fault),
        text,
    })
}

/// The words that a refusal begins with.
fn put_start(which: Which, out: &mut Bytes) -> Result<(), AllocError>
    ensures { OnOk result (out.new ≡ out.old ++ refusal_start which) }
{
    match which {
        Which::Problem => out.append(b"refused"),
        Which::Answer => out.append(b"answer refused"),
    }
}

/// The number of the limit, where one is passed.
fn put_limit(fault: Fault, out: &mut Bytes) -> Result<(), AllocError>
    ensures { OnOk result (out.new ≡ out.old ++ (if fault.reason == 50 then word (decimal fault.limit) else [])) }
{
    if fault.reason == LIMIT_PASSED {
        put_number(u64::from(fault.limit), out)?;
    }
    Ok(())
}

/// The line of an answer file that holds no answer to the problem.
pub fn invalid(alloc: Global, flaw: Flaw) -> Result<Due, AllocError>
    ensures { IfOk result (λ d. (d.status ≡ Status.Invalid flaw) × (d.text ≡ flaw_line flaw)) }
{
    let mut text = Bytes::new(alloc);
    text.append(b"invalid")?;
    put_flaw(flaw, &mut text)?;
    text.push(b'\n')?;
    Ok(Due {
        status: Status::Invalid(flaw),
        text,
    })
}

/// The number of a flaw, and where it is.
fn put_flaw(flaw: Flaw, out: &mut Bytes) -> Result<(), AllocError>
    ensures { OnOk result (out.new ≡ out.old ++ flaw_text flaw) }
{
    match flaw {
        Flaw::Form(fault) => put_place(b" 1", u64::from(fault.place), fault.reason, out),
        Flaw::Nodes => out.append(b" 2"),
        Flaw::Size => out.append(b" 3"),
        Flaw::Grammar => out.append(b" 4"),
        Flaw::Step(bad) => put_place(b" 5", bad.step as u64, bad.reason, out),
        Flaw::Constraint(number) => {
            out.append(b" 6")?;
            put_number(u64::from(number), out)
        }
    }
}

/// The number of a flaw, a place and a reason.
fn put_place(start: &[u8], place: u64, reason: u8, out: &mut Bytes) -> Result<(), AllocError>
    ensures { OnOk result (out.new ≡ out.old ++ (start.now ++ word (decimal place) ++ word (decimal reason))) }
{
    out.append(start)?;
    put_number(place, out)?;
    put_number(u64::from(reason), out)
}
