ghost use Rattle.std.specs.Prelude.{◌<◌};

use crate::running::{check_over, file_of, words_of};
use example_files::{MAX2, MAX2_ANSWER};
use semgus_app::{Status, run};
use semgus_io::MemorySink;
use std::alloc::{AllocError, Global};
use std::process::Abort;
use std::test::Fail;

/// Solves MAX2, whose file comes in pieces of so many bytes, where this take fails, and then once more.
fn check_take(rt: &impl Abort, alloc: Global, piece: usize, failing: u64) -> Result<(), AllocError>
    requires { 0 < piece }
{
    let mut files = file_of(alloc, MAX2)?;
    files.piece(piece);
    files.fail_take(failing)?;
    let line = "solve p.sl 3 6";
    let fault = Status::ReadFault;
    check_over(rt, alloc, line, &mut files, fault, "read fault\n")?;
    check_over(rt, alloc, line, &mut files, Status::Found, MAX2_ANSWER)
}

#[test]
fn a_take_that_fails(rt: HostRuntime) -> Result<(), Fail> {
    check_take(&rt, rt.alloc(), 100, 2)?;
    check_take(&rt, rt.alloc(), 1, 150)?;
    Ok(())
}

/// What a sink holds that takes 3 bytes at a time, where this put fails.
fn written_until(
    rt: &impl Abort,
    alloc: Global,
    failing: u64,
    wanted: &[u8],
) -> Result<(), AllocError> {
    let mut files = file_of(alloc, MAX2)?;
    let words = words_of(alloc, "solve p.sl 3 6")?;
    let mut out = MemorySink::new(alloc, 4096)?;
    out.piece(3);
    out.fail_put(failing)?;
    let status = run(alloc, &words, &mut files, &mut out);
    assert!(rt; status == Status::WriteFault);
    assert!(rt; out.written() == wanted);
    Ok(())
}

#[test]
fn a_put_that_fails(rt: HostRuntime) -> Result<(), Fail> {
    written_until(&rt, rt.alloc(), 1, b"")?;
    written_until(&rt, rt.alloc(), 2, b"(an")?;
    written_until(&rt, rt.alloc(), 5, b"(answer 1)\n(")?;
    Ok(())
}
