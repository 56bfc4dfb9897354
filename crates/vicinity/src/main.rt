//! Whether a list of vicinity tags is complete, from the log of the session that found them.
#![tactic(auto)]

ghost use Rattle.std.specs.Prelude.{[], ⊤};

use std::fs::File;
use std::io::ErrorKind;
use std::process::ExitCode;
use std::{env, fs, io};
use vic_log::{FromRead, ToWrite};
use vic_program::{Files, run_program};
use vic_words::WordsFault;

/// The files of the machine.
#[derive(Drop)]
struct HostFiles<'a> {
    rt: &'a HostRuntime,
}

impl<'a> Files for HostFiles<'a> {
    type File = FromRead<File>;

    ghost origin = { λ _ _. [] };

    ghost Refuses = { λ _ _. ⊤ };

    fn open(&self, name: &str) -> io::Result<FromRead<File>> {
        Ok(FromRead::new(fs::open(self.rt, name)?))
    }
}

/// The words of the command line, the program's name first.
fn given_words(rt: &HostRuntime) -> Result<Vec<String>, WordsFault> {
    match env::args(rt) {
        Ok(words) => Ok(words.collect(rt.alloc())?),
        Err(error) => match error.kind() {
            ErrorKind::OutOfMemory => Err(WordsFault::Memory),
            _ => Err(WordsFault::Usage),
        },
    }
}

fn main(rt: HostRuntime) -> ExitCode {
    let status = run_program(
        rt.alloc(),
        given_words(&rt),
        &HostFiles { rt: &rt },
        &mut FromRead::new(rt.stdin()),
        &mut ToWrite::new(rt.stdout()),
        &mut ToWrite::new(rt.stderr()),
    );
    ExitCode::from(status)
}
