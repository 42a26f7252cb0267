//! The command `semgus`.
#![tactic(auto)]

use semgus_app::{Status, run};
use semgus_io::{HostFiles, HostSink, Words};
use std::alloc::AllocError;
use std::env;
use std::io::ErrorKind;
use std::process::ExitCode;
use std::rt::Env;

/// Runs the words of the command line over the files of the system and standard output.
///
/// The exit status is the number of the run's status, or that of `Memory` where there is no memory for the words.
fn main(rt: HostRuntime) -> ExitCode {
    let status = match words_of(&rt) {
        Ok(words) => {
            let mut files = HostFiles::new(&rt);
            let mut out = HostSink::new(&rt);
            run(rt.alloc(), &words, &mut files, &mut out)
        }
        Err(_) => Status::Memory,
    };
    ExitCode::from(status.number())
}

/// The words of the command line without the program's name. Words that aren't text count as none.
fn words_of<R: Env + AllocGlobal>(rt: &R) -> Result<Words, AllocError> {
    let mut words = Words::new(rt.alloc());
    match env::args(rt) {
        Ok(arguments) => {
            for argument in arguments.skip(1) {
                words.push(argument.as_str())?;
            }
            Ok(words)
        }
        Err(error) if error.kind() == ErrorKind::InvalidData => Ok(words),
        Err(_) => Err(AllocError),
    }
}
