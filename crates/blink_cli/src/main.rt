// Runs the program over the streams of the system.
#![tactic(auto)]

ghost use Rattle.std.specs.Prelude.{◌≡◌, ◌⊎◌, IfErr};

use blink_edge::{Folder, StdIn, StdOut};
use blink_run::{Status, run};
use std::alloc::Global;
use std::env;
use std::io::{self, ErrorKind};
use std::process::ExitCode;
use std::rt::Env;

/// The number that the program ends with where a word is not UTF-8.
const NOT_TEXT: u8 = 8;

// The words behind the program's own name, or the number to end with: 5 where there is no memory for them, 8 where one is
// not UTF-8.
fn words<R: Env + AllocGlobal>(rt: &R) -> Result<Vec<String>, u8>
    ensures { IfErr result (λ number. (number ≡ 5) ⊎ (number ≡ 8)) }
{
    let mut given = match env::args(rt) {
        Ok(given) => given,
        Err(fault) if fault.kind() == ErrorKind::InvalidData => return Err(NOT_TEXT),
        Err(_) => return Err(Status::Memory.code()),
    };
    let _ = given.next();
    let mut words = Vec::new(rt.alloc());
    for word in given {
        if words.push(word).is_err() {
            return Err(Status::Memory.code());
        }
    }
    Ok(words)
}

// Runs the program over standard input, standard output and the files of the system, from the current folder.
fn main(rt: HostRuntime) -> ExitCode {
    let words = match words(&rt) {
        Ok(words) => words,
        Err(code) => return ExitCode::from(code),
    };
    let alloc: Global = rt.alloc();
    let mut input = StdIn::new(rt.reader());
    let mut output = StdOut::new(io::writer(&rt));
    let mut store = Folder::new(&rt);
    let status = run(alloc, words.as_slice(), &mut input, &mut output, &mut store);
    ExitCode::from(status.code())
}
