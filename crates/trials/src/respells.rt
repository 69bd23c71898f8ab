// Trials of respelling.
use crate::full::*;
use crate::outputs::*;
use crate::pairs::*;
use crate::refused::*;
use crate::rows::*;
use cola_a::read::{COLA_A, ColaA};
use cola_b::read::{COLA_B, ColaB};
use framing::choice::Choice;
use prefixed::prefixed::PREFIXED;
use std::alloc::{AllocError, Global};
use std::test::Fail;

// A choice of text or binary, either way.
const CHOSE_TEXT: Choice<ColaA, ColaB> = Choice::First(COLA_A);

const CHOSE_BINARY: Choice<ColaA, ColaB> = Choice::Second(COLA_B);

// Every row, from every framing to every framing.
#[test]
fn rows(rt: HostRuntime) -> Result<(), Fail> {
    for row in ROWS.lines() {
        assert!(rt; spell(rt.alloc(), &[row])?.agree(rt.alloc())?);
    }
    Ok(())
}

// Whether a scan agrees in its spellings with every choice of the optional parts behind its channels.
fn agrees(heap: Global, front: [&str; 4]) -> Result<bool, AllocError> {
    let [scan, head, encoders, channels] = front;
    for position in POSITIONS {
        for name in NAMES {
            for comment in COMMENTS {
                for time in TIMES {
                    let pieces = [
                        scan, head, encoders, channels, position, name, comment, time, END,
                    ];
                    if !spell(heap, &pieces)?.agree(heap)? {
                        return Ok(false);
                    }
                }
            }
        }
    }
    Ok(true)
}

// Scans with 0 to 3 encoders, with channels of either depth, and with every choice of the optional parts, from every framing to every framing.
#[test]
fn scans(rt: HostRuntime) -> Result<(), Fail> {
    for scan in SCANS {
        for encoders in ENCODERS {
            for channels in CHANNELS {
                assert!(rt; agrees(rt.alloc(), [scan, FRONT, encoders, channels])?);
            }
        }
    }
    Ok(())
}

// Two inputs that are one telegram come to the same canonical spellings in every framing.
#[test]
fn pairs(rt: HostRuntime) -> Result<(), Fail> {
    for pair in PAIRS.lines() {
        assert!(rt; settles(rt.alloc(), &CHOSE_TEXT, &CHOSE_BINARY, pair)?);
    }
    Ok(())
}

// A scan with signs and leading zeros, and the same scan in binary, where the framings are chosen.
#[test]
fn full_scan(rt: HostRuntime) -> Result<(), Fail> {
    assert!(rt; Way::new(rt.alloc(), &COLA_A, &COLA_A).turns(ODD, FULL)?);
    assert!(rt; Way::new(rt.alloc(), &CHOSE_TEXT, &CHOSE_BINARY).turns(ODD, BINARY)?);
    assert!(rt; Way::new(rt.alloc(), &COLA_B, &CHOSE_TEXT).turns(BINARY, FULL)?);
    Ok(())
}

// A refusal of the input is passed on as it is, whatever the output.
#[test]
fn refusals(rt: HostRuntime) -> Result<(), Fail> {
    assert!(rt; Way::new(rt.alloc(), &COLA_A, &COLA_B).are_refused(&IN_TEXT)?);
    assert!(rt; Way::new(rt.alloc(), &COLA_B, &PREFIXED).are_refused(&IN_BINARY)?);
    assert!(rt; Way::new(rt.alloc(), &PREFIXED, &COLA_A).are_refused(&IN_PREFIXED)?);
    Ok(())
}
