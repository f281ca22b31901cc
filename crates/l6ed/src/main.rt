//! The program `l6ed`: decks in editors. `l6ed lsp` is a language server and `l6ed dap` a debug adapter, each over standard
//! input and standard output.
#![tactic(auto)]

mod fault;
mod files;
mod request;
mod wire;

use fault::EdFault;
use files::HostFiles;
use l6_dap::{Adapter, serve};
use l6_device::Host;
use l6_lsp::serve_decks;
use request::{Request, request_of};
use std::env;
use std::io::Write;
use std::process::ExitCode;
use wire::Wire;

/// What `l6ed --help` says.
const HELP: &str = "\
Decks of L6 in editors

Usage: l6ed lsp | dap

  lsp        Answers as a language server, over standard input and standard output
  dap        Answers as a debug adapter, over standard input and standard output
  --help     Says this
  --version  Says which version this is
";

fn main(rt: HostRuntime) -> ExitCode {
    match run(&rt) {
        Ok(status) => ExitCode::from(status),
        Err(fault) => {
            if let Ok(text) = format!(in rt.alloc(); "l6ed: {fault}\n") {
                let _ = rt.stderr().write_all(text.as_bytes());
            }
            ExitCode::from(fault.status())
        }
    }
}

/// Does what the words of the command line ask for. Answers the exit status.
fn run(rt: &HostRuntime) -> Result<u8, EdFault> {
    let words: Vec<String> = env::args(rt)?.collect(rt.alloc())?;
    match request_of(words.as_slice()) {
        None => Err(EdFault::Usage),
        Some(Request::Help) => say(rt, HELP),
        Some(Request::Version) => say(rt, "l6ed 1.0\n"),
        Some(Request::Lsp) => serve_as_server(rt),
        Some(Request::Dap) => serve_as_adapter(rt),
    }
}

/// Serves as a language server until the input ends. Answers the exit status.
fn serve_as_server(rt: &HostRuntime) -> Result<u8, EdFault> {
    let mut wire = Wire::new(rt.alloc(), Host::new(rt.stdin()), Host::new(rt.stdout()))?;
    Ok(serve_decks(rt.alloc(), &mut wire)?)
}

/// Serves as a debug adapter until the input ends. Answers the exit status.
fn serve_as_adapter(rt: &HostRuntime) -> Result<u8, EdFault> {
    let mut wire = Wire::new(rt.alloc(), Host::new(rt.stdin()), Host::new(rt.stdout()))?;
    let mut adapter = Adapter::new(rt.alloc());
    let mut files = HostFiles { rt };
    Ok(serve(rt.alloc(), &mut adapter, &mut files, &mut wire)?)
}

/// Writes a text. Answers the exit status.
fn say(rt: &HostRuntime, text: &str) -> Result<u8, EdFault> {
    match rt.stdout().write_all(text.as_bytes()) {
        Ok(()) => Ok(0),
        Err(_) => Err(EdFault::NoOutput),
    }
}
