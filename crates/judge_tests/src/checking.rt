//! Whether files are refused where they are due to be, or taken.
use crate::judging::{Refusal, append_marked, refusal_of};
use sig_core::Bytes;
use std::alloc::{AllocError, Global};
use std::process::Abort;

/// Whether the file with these lines is refused at the mark `[` among them, for this reason.
fn check_one(
    rt: &impl Abort,
    alloc: Global,
    frame: (&str, &str),
    lines: &str,
    reason: u8,
) -> Result<(), AllocError> {
    let (front, back) = frame;
    let mut text = Bytes::new(alloc);
    text.append(front.as_bytes())?;
    let place = append_marked(&mut text, lines)?;
    text.append(back.as_bytes())?;
    let refusal = Refusal {
        place,
        reason,
        limit: 0,
    };
    assert_eq!(rt;
        refusal_of(alloc, text.as_slice())?,
        Some(refusal),
        "{lines}"
    );
    Ok(())
}

/// Whether each file is refused at its mark `[` for its reason. Each stands between the two parts of the frame.
pub(crate) fn check_refused(
    rt: &impl Abort,
    alloc: Global,
    frame: (&str, &str),
    cases: &[(&str, u8)],
) -> Result<(), AllocError> {
    for (lines, reason) in cases {
        check_one(rt, alloc, frame, lines, *reason)?;
    }
    Ok(())
}

/// Whether each file states a problem. Each stands between the two parts of the frame.
pub(crate) fn check_taken(
    rt: &impl Abort,
    alloc: Global,
    frame: (&str, &str),
    cases: &[&str],
) -> Result<(), AllocError> {
    let (front, back) = frame;
    for lines in cases {
        let mut text = Bytes::new(alloc);
        text.append(front.as_bytes())?;
        text.append(lines.as_bytes())?;
        text.append(back.as_bytes())?;
        assert_eq!(rt; refusal_of(alloc, text.as_slice())?, None, "{lines}");
    }
    Ok(())
}
