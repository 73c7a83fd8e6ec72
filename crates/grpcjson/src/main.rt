//! `grpcjson`: a gRPC-JSON transcoding gateway. This crate has the real files and streams, and hands
//! the words of its command line to `gateway_run`.
#![tactic(auto)]

mod help;
mod std_files;
mod std_streams;
#[cfg(test)]
mod tests;

use gateway_run::{NoFields, Status, run_offline, write_all};
use help::help_of;
use std::alloc::Global;
use std::env::Env;
use std::process::ExitCode;
use std::{env, io, rt};
use std_files::StdFiles;
use std_streams::{StdSink, StdSource, Stream};

/// The words behind the program's name, or None where one of them is not UTF-8.
fn words(rt: &(impl Env + Alloc<A = Global>)) -> io::Result<Option<Vec<String>>> {
    match env::args(rt) {
        Ok(args) => {
            let mut words = Vec::new(rt.alloc());
            for word in args.skip(1) {
                words.push(word)?;
            }
            Ok(Some(words))
        }
        Err(e) => match e.kind() {
            io::ErrorKind::InvalidData => Ok(None),
            _ => Err(e),
        },
    }
}

/// Answers a call for help, or runs the command of the words.
fn answer<R: rt::Files>(
    alloc: Global,
    rt: &R,
    words: &[String],
    input: &mut StdSource<io::Stdin>,
    out: &mut StdSink,
    err: &mut StdSink,
) -> Status {
    match help_of(words) {
        Some(text) => {
            if write_all(out, text.as_bytes()).is_ok() {
                return Status::Done;
            }
            let _ = write_all(err, b"write fault\n");
            Status::WriteFault
        }
        None => run_offline(
            alloc,
            words,
            &mut StdFiles::new(rt),
            input,
            out,
            err,
            NoFields,
        ),
    }
}

fn main(rt: HostRuntime) -> io::Result<ExitCode> {
    let mut input = StdSource::new(rt.stdin());
    let mut out = StdSink::new(Stream::Out(rt.stdout()));
    let mut err = StdSink::new(Stream::Err(rt.stderr()));
    let status = match words(&rt) {
        Ok(Some(words)) => answer(
            rt.alloc(),
            &rt,
            words.as_slice(),
            &mut input,
            &mut out,
            &mut err,
        ),
        Ok(None) => {
            let _ = write_all(&mut err, b"usage\n");
            Status::Usage
        }
        Err(_) => {
            let _ = write_all(&mut err, b"out of memory\n");
            Status::NoMemory
        }
    };
    Ok(ExitCode::from(status.number()))
}
