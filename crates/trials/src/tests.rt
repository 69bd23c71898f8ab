// The trials.
use crate::build::*;
use crate::full::*;
use crate::judge::*;
use cola_a::read::{COLA_A, ColaA};
use cola_b::read::{COLA_B, ColaB};
use framing::accepted::accept;
use framing::framing::Framing;
use layout::records::{Parts, Position, Time};
use notation::decode;
use std::alloc::{AllocError, Global};
use std::test::Fail;
use telegram::refusal::Reason;

const POSITION: Position = Position {
    x: 0x3FC0_0000,
    y: 0xC000_0000,
    z: 0x4049_0FDB,
    x_rotation: 0,
    y_rotation: 0x8000_0000,
    z_rotation: 0x42B4_0000,
    rotation_type: 3,
    sends_name: 1,
};

const TIME: Time = Time {
    year: 2025,
    month: 6,
    day: 30,
    hour: 15,
    minute: 39,
    second: 31,
    microsecond: 875_000,
};

// The optional parts of the full scan.
const PARTS: Parts<'static> = Parts {
    position: Some(POSITION),
    name: Some(b"Belt 7 north"),
    comment: Some(b"ok, 2 of 3"),
    time: Some(TIME),
};

// Whether bytes are accepted, with the optional parts of the full scan.
fn is_full<F: Framing>(heap: Global, framing: &F, input: &str) -> Result<bool, AllocError> {
    let bytes = decode(heap, input.as_bytes())?;
    let telegram = accept(framing, bytes.as_slice());
    Ok(telegram.is_ok_and(|telegram| telegram.parts() == PARTS))
}

#[test]
fn full_scan(rt: HostRuntime) -> Result<(), Fail> {
    assert!(rt; is_full(rt.alloc(), &COLA_A, FULL)?);
    assert!(rt; is_full(rt.alloc(), &COLA_A, ODD)?);
    assert!(rt; is_full(rt.alloc(), &COLA_B, BINARY)?);
    Ok(())
}

// A scan's channels of 16 bits and of 8 bits, and what reading says of it in text and in binary.
#[derive(Clone, Copy)]
struct Scan {
    sixteen: Channels,
    eight: Channels,
    in_text: Verdict,
    in_binary: Verdict,
}

// A framing, and the pieces in it of a scan with no encoders.
#[derive(Drop)]
struct Pieces<F> {
    framing: F,
    // What stands before the number of channels.
    front: &'static [u8],
    // What stands before a channel's amount.
    channel: &'static [u8],
    // One value of 16 bits, and one of 8 bits.
    sixteen: &'static [u8],
    eight: &'static [u8],
    // What stands behind the channels.
    end: &'static [u8],
}

const IN_TEXT: Pieces<ColaA> = Pieces {
    framing: COLA_A,
    front: b"sSN LMDscandata 0 1 9F14CE 0 0 2 3 A B 0 0 7 0 0 9C4 21C 0",
    channel: b" DIST1 3F800000 00000000 0 1",
    sixteen: b" 0",
    eight: b" 0",
    end: b" 0 0 0 0 0",
};

const IN_BINARY: Pieces<ColaB> = Pieces {
    framing: COLA_B,
    front: b"sSN LMDscandata \0\0\0\x01\0\x9f\x14\xce\0\0\0\x02\0\x03\0\0\0\x0a\0\0\0\x0b\0\0\x07\0\0\0\0\0\x09\xc4\0\0\x02\x1c\0\0",
    channel: b"DIST1\x3f\x80\0\0\0\0\0\0\0\0\0\0\0\x01",
    sixteen: b"\0\0",
    eight: b"\0",
    end: b"\0\0\0\0\0\0\0\0\0\0",
};

impl<F: Framing + Build> Pieces<F> {
    // What reading says of a scan.
    fn judge(&self, heap: Global, scan: Scan) -> Result<Verdict, AllocError> {
        let framing = &self.framing;
        let sixteen = scan
            .sixteen
            .build(heap, framing, self.channel, self.sixteen)?;
        let eight = scan.eight.build(heap, framing, self.channel, self.eight)?;
        let pieces = [self.front, sixteen.as_slice(), eight.as_slice(), self.end];
        Ok(judge(framing, framing.telegram(heap, &pieces)?.as_slice()))
    }
}

// So many channels, of so many values each.
fn of(count: u16, amount: u16) -> Channels {
    Channels { count, amount }
}

// A scan that is within the limits, with so many items.
fn fits(sixteen: Channels, eight: Channels, items: usize) -> Scan {
    Scan {
        sixteen,
        eight,
        in_text: Ok(items),
        in_binary: Ok(items),
    }
}

// A scan that passes a limit, with the places of the item that does.
fn exceeds(sixteen: Channels, eight: Channels, in_text: usize, in_binary: usize) -> Scan {
    Scan {
        sixteen,
        eight,
        in_text: Err(Reason::Limit.at(in_text)),
        in_binary: Err(Reason::Limit.at(in_binary)),
    }
}

// Channels and amounts up to their limits and past them.
fn scans_at_limits() -> [Scan; 24] {
    [
        fits(of(1, 8191), of(1, 1), 8228),
        exceeds(of(1, 8191), of(1, 2), 16506, 16488),
        fits(of(1, 8192), of(1, 0), 8228),
        exceeds(of(1, 8192), of(1, 1), 16508, 16490),
        fits(of(1, 0), of(1, 8192), 8228),
        exceeds(of(1, 0), of(1, 8193), 121, 106),
        fits(of(0, 0), of(1, 8192), 8222),
        fits(of(1, 8192), of(0, 0), 8222),
        exceeds(of(1, 8193), of(0, 0), 89, 83),
        fits(of(1, 4096), of(1, 4096), 8228),
        exceeds(of(1, 4096), of(1, 4097), 8316, 8298),
        fits(of(12, 0), of(12, 0), 168),
        exceeds(of(13, 0), of(0, 0), 59, 62),
        exceeds(of(0, 0), of(13, 0), 61, 64),
        exceeds(of(12, 0), of(13, 0), 421, 316),
        fits(of(12, 682), of(0, 0), 8280),
        exceeds(of(12, 683), of(0, 0), 15467, 15340),
        fits(of(8, 512), of(8, 512), 8312),
        exceeds(of(8, 512), of(8, 513), 15945, 12183),
        fits(of(4, 2048), of(12, 0), 8312),
        exceeds(of(4, 2048), of(12, 1), 16603, 16553),
        fits(of(2, 4096), of(0, 0), 8228),
        exceeds(of(2, 4097), of(0, 0), 8316, 8298),
        fits(of(0, 0), of(0, 0), 24),
    ]
}

#[test]
fn scans(rt: HostRuntime) -> Result<(), Fail> {
    for scan in scans_at_limits() {
        assert_eq!(rt; IN_TEXT.judge(rt.alloc(), scan)?, scan.in_text);
        assert_eq!(rt; IN_BINARY.judge(rt.alloc(), scan)?, scan.in_binary);
    }
    Ok(())
}

// Inputs of one byte.
#[test]
fn single_bytes(rt: HostRuntime) {
    for byte in 0..=u8::MAX {
        assert_eq!(rt; judge(&COLA_A, &[byte]), Err(Reason::Envelope.at(0)));
        assert_eq!(rt; judge(&COLA_B, &[byte]), Err(Reason::Envelope.at(1)));
    }
}

// What reading in a framing says of a body of so many letters.
fn letters<F: Framing + Build>(
    heap: Global,
    framing: &F,
    times: usize,
) -> Result<Verdict, AllocError> {
    let body = b"x".repeat(heap, times)?;
    let bytes = framing.telegram(heap, &[body.as_slice()])?;
    Ok(judge(framing, bytes.as_slice()))
}

// A scan in text with 5,453 values, all but one in ten digits, which is as long as an input may be; or longer by so many zeros.
fn longest(heap: Global, more: usize) -> Result<Verdict, AllocError> {
    let values = b" +0000000000".repeat(heap, 5452)?;
    let zeros = b"0".repeat(heap, more)?;
    let text = COLA_A.telegram(
        heap,
        &[
            IN_TEXT.front,
            b" 1",
            IN_TEXT.channel,
            b" 154D",
            values.as_slice(),
            b" +000",
            zeros.as_slice(),
            b" 0 0 0 0 0 0",
        ],
    )?;
    Ok(judge(&COLA_A, text.as_slice()))
}

// Inputs of 65,536 bytes and of one more.
#[test]
fn long_inputs(rt: HostRuntime) -> Result<(), Fail> {
    let size = Err(Reason::Size.at(0));
    let text = Err(Reason::Unknown.at(1));
    let binary = Err(Reason::Unknown.at(8));
    for (times, in_text, in_binary) in [
        (65_527, text, binary),
        (65_528, text, size),
        (65_534, text, size),
        (65_535, size, size),
    ] {
        assert_eq!(rt; letters(rt.alloc(), &COLA_A, times)?, in_text);
        assert_eq!(rt; letters(rt.alloc(), &COLA_B, times)?, in_binary);
    }
    assert_eq!(rt; longest(rt.alloc(), 0)?, Ok(5483));
    assert_eq!(rt; longest(rt.alloc(), 1)?, size);
    Ok(())
}

// Whether bytes are accepted, with a head and a body that stand so.
fn stands<F: Framing>(framing: &F, bytes: &[u8], place: usize, end: usize, body: &[u8]) -> bool {
    accept(framing, bytes).is_ok_and(|telegram| {
        let head = telegram.head();
        head.place == place && head.end == end && telegram.body() == body
    })
}

// The spans of head and body; in binary a blank behind a head that has no items belongs to the head.
#[test]
fn spans(rt: HostRuntime) {
    assert!(rt; stands(&COLA_A, b"\x02sMN Run\x03", 1, 8, b"sMN Run"));
    assert!(rt; stands(&COLA_A, b"\x02sAN Run 1\x03", 1, 8, b"sAN Run 1"));
    assert!(rt;
        stands(
            &COLA_B,
            b"\x02\x02\x02\x02\0\0\0\x08sMN Run \x39",
            8,
            16,
            b"sMN Run ",
        )
    );
}
