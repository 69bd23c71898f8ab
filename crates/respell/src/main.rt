// Respells one telegram, which it reads from standard input, into the framing that its argument names.
#![tactic(auto)]

use framed::read::LONGEST;
use framing::respell::respell;
use known::{Known, lettered, told};
use std::env::FillError;
use std::io::{Read, Write};
use std::process::ExitCode;
use std::rt::Env;

const USAGE: &str = "usage: respell A|B < TELEGRAM";

// One byte more than is allowed, so that an input that is too long shows as such. A constant has no `From`. `sheet` reads its input by the same lines; a crate for three of them would be no plainer.
const INPUT: u64 = LONGEST as u64 + 1;

// The framing that the only argument names, if there is just one and it names one. Words are asked for one by one, into a buffer of the length that counts: std's list of them is refused whole where one of them, the program's own name too, is no UTF-8.
fn target(rt: &impl Env) -> Option<Known> {
    let mut word = [0; 2];
    let length = rt.arg(1, &mut word).ok()?;
    match rt.arg(2, &mut [0; 1]) {
        Err(FillError::NotPresent) => lettered(&word[..length]),
        _ => None,
    }
}

// Reads a telegram, and writes it respelt, or else its refusal.
fn run(rt: &HostRuntime, to: &Known) -> anyhow::Result<ExitCode> {
    let heap = rt.alloc();
    let mut bytes = Vec::new(heap);
    rt.stdin().take(INPUT).read_to_end(&mut bytes)?;
    let telegram = bytes.as_slice();
    let mut out = vec![in heap; 0; LONGEST]?;
    match respell(&told(telegram), to, telegram, out.as_mut_slice()) {
        Ok(n) => {
            // Writing `&out[..n]` in its place was tried, and its proof did not close.
            out.truncate(n);
            rt.stdout().write_all(out.as_slice())?;
            Ok(ExitCode::SUCCESS)
        }
        Err(refusal) => {
            eprintln!(rt; "{refusal}")?;
            Ok(ExitCode::FAILURE)
        }
    }
}

fn main(rt: HostRuntime) -> anyhow::Result<ExitCode> {
    let Some(to) = target(&rt) else {
        eprintln!(rt; "{USAGE}")?;
        return Ok(ExitCode::FAILURE);
    };
    run(&rt, &to)
}
