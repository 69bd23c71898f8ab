// Reads a table of cases from standard input and prints each with what reading says of it. A case is a line: the framing, A or B, a blank, and the bytes.
#![tactic(auto)]

mod answer;

use answer::put_answer;
use known::lettered;
use notation::decode;
use std::alloc::AllocError;
use std::io::{Read, Write};

// The line of a case, and what reading says of its bytes.
fn put_case(out: &mut Vec<u8>, case: &str) -> Result<(), AllocError> {
    out.extend_from_slice(b"> ")?;
    out.extend_from_slice(case.as_bytes())?;
    out.push(b'\n')?;
    if let Some((letter, text)) = case.split_once(' ')
        && let Some(framing) = lettered(letter.as_bytes())
    {
        let bytes = decode(*out.allocator(), text.as_bytes())?;
        return put_answer(out, &framing, bytes.as_slice());
    }
    out.extend_from_slice(b"no case\n")
}

fn run(rt: &HostRuntime) -> anyhow::Result<()> {
    let heap = rt.alloc();
    let mut table = String::new(heap);
    rt.stdin().read_to_string(&mut table)?;
    let mut out = Vec::new(heap);
    for case in table.lines() {
        put_case(&mut out, case)?;
    }
    rt.stdout().write_all(out.as_slice())?;
    Ok(())
}

fn main(rt: HostRuntime) -> anyhow::Result<()> {
    run(&rt)
}
