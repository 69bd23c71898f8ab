// Prints the sheet of one telegram, which it reads from standard input.
#![tactic(auto)]

use framed::read::LONGEST;
use page::sheet::sheet;
use std::env::FillError;
use std::io::{Read, Write};
use std::process::ExitCode;
use std::rt::Env;

// One byte more than is allowed, so that an input that is too long shows as such. A constant has no `From`. `respell` reads its input by the same lines; a crate for three of them would be no plainer.
const INPUT: u64 = LONGEST as u64 + 1;

// Whether any word stands behind the program's name. It is asked for alone: std's list of words is refused whole where one of them, the program's own name too, is no UTF-8.
fn has_arguments(rt: &impl Env) -> bool {
    !matches!(rt.arg(1, &mut [0; 1]), Err(FillError::NotPresent))
}

// Reads a telegram, and writes its sheet.
fn run(rt: &HostRuntime) -> anyhow::Result<()> {
    let heap = rt.alloc();
    let mut bytes = Vec::new(heap);
    rt.stdin().take(INPUT).read_to_end(&mut bytes)?;
    let text = sheet(heap, bytes.as_slice())?;
    rt.stdout().write_all(text.as_slice())?;
    Ok(())
}

fn main(rt: HostRuntime) -> anyhow::Result<ExitCode> {
    if has_arguments(&rt) {
        eprintln!(rt; "usage: sheet < TELEGRAM")?;
        return Ok(ExitCode::FAILURE);
    }
    run(&rt)?;
    Ok(ExitCode::SUCCESS)
}
