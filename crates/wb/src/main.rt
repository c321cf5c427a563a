//! `wb run` runs a script of a whiteboard: what it prints goes to standard output, and a fault to
//! standard error. `wb check` only says whether each of its lines parses. `wb hex` and `wb words`
//! are filters, with which people write and read the datagrams of scripts.
#![tactic(auto)]

mod command;
mod constants;
mod serving;

use serving::{refuse_words, report_no_memory, serve};
use std::env;
use std::process::ExitCode;
use wb_names::{FromRead, ToWrite};

fn main(rt: HostRuntime) -> ExitCode {
    let mut errors = ToWrite::new(rt.stderr());
    let arguments = match env::args(&rt) {
        Ok(arguments) => arguments,
        Err(error) => return ExitCode::from(refuse_words(&mut errors, error.kind())),
    };
    let Ok(texts) = arguments.skip(1).collect::<Vec<String>>(rt.alloc()) else {
        return ExitCode::from(report_no_memory(&mut errors));
    };
    let Ok(words) = texts
        .iter()
        .map(|text| text.as_str())
        .collect::<Vec<&str>>(rt.alloc())
    else {
        return ExitCode::from(report_no_memory(&mut errors));
    };
    let mut source = FromRead::new(rt.stdin());
    let mut sink = ToWrite::new(rt.stdout());
    let status = serve(&rt, words.as_slice(), &mut source, &mut sink, &mut errors);
    ExitCode::from(status)
}
