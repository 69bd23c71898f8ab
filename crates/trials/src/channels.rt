// Trials of channel views.
use crate::build::Build;
use cola_a::read::COLA_A;
use cola_b::read::COLA_B;
use framing::accepted::accept;
use framing::framing::FullFraming;
use std::test::Fail;
use telegram::item::Placed;
use views::find::channel;
use views::view::Front;

// Two channels of 16 bits, the second of them empty, and one of 8 bits; in text, with signs, and in binary.
const TEXT: &[u8] =
    b"\x02sSN LMDscandata 0 1 9F14CE 0 0 2 3 A B 0 0 7 0 0 9C4 21C 1 3AD FFFF 2 DIST1 3F800000 00000000 FFF92230 1388 3 8A1 8A5 8AB DIST2 40000000 80000000 2710 7D0 0 1 RSSI1 3F800000 00000000 -2147483648 +10 +2 D FF 0 0 0 0 0\x03";

const BODY: &[u8] =
    b"sSN LMDscandata \0\0\0\x01\0\x9f\x14\xce\0\0\0\x02\0\x03\0\0\0\x0a\0\0\0\x0b\0\0\x07\0\0\0\0\0\x09\xc4\0\0\x02\x1c\0\x01\x03\xad\xff\xff\0\x02DIST1\x3f\x80\0\0\0\0\0\0\xff\xf9\x22\x30\x13\x88\0\x03\x08\xa1\x08\xa5\x08\xabDIST2\x40\0\0\0\x80\0\0\0\0\0\x27\x10\x07\xd0\0\0\0\x01RSSI1\x3f\x80\0\0\0\0\0\0\x80\0\0\0\0\x0a\0\x02\x0d\xff\0\0\0\0\0\0\0\0\0\0";

// What a channel is to tell, each value with its angle: all but the place of its content is the same in either framing.
struct Told {
    content: &'static [u8],
    place_in_text: usize,
    place_in_binary: usize,
    scale: u32,
    offset: u32,
    start: i32,
    step: u16,
    values: &'static [(u32, i64)],
}

const TOLD: [Told; 3] = [
    Told {
        content: b"DIST1",
        place_in_text: 71,
        place_in_binary: 68,
        scale: 0x3F80_0000,
        offset: 0,
        start: -450_000,
        step: 5000,
        values: &[(0x8A1, -450_000), (0x8A5, -445_000), (0x8AB, -440_000)],
    },
    Told {
        content: b"DIST2",
        place_in_text: 123,
        place_in_binary: 95,
        scale: 0x4000_0000,
        offset: 0x8000_0000,
        start: 10_000,
        step: 2000,
        values: &[],
    },
    Told {
        content: b"RSSI1",
        place_in_text: 160,
        place_in_binary: 118,
        scale: 0x3F80_0000,
        offset: 0,
        start: -2_147_483_648,
        step: 10,
        values: &[(0x0D, -2_147_483_648), (0xFF, -2_147_483_638)],
    },
];

// Whether a channel of some bytes tells what it is to tell, its content standing at a place.
fn tells<F: FullFraming>(
    framing: &F,
    bytes: &[u8],
    number: usize,
    told: &Told,
    place: usize,
) -> bool {
    let Ok(telegram) = accept(framing, bytes) else {
        return false;
    };
    let Some(mut view) = channel(&telegram, number) else {
        return false;
    };
    let amount = told.values.len();
    let content = Placed {
        value: told.content,
        place,
        end: place.wrapping_add(5),
    };
    let front = Front {
        content,
        scale: told.scale,
        offset: told.offset,
        start: told.start.cast_unsigned(),
        step: told.step,
        // Checked by itself below.
        amount: view.front.amount,
    };
    let is_told = view.front == front
        && view.content() == content
        && view.start() == told.start
        && usize::from(view.front.amount) == amount
        && view.angle(amount).is_none();
    if !is_told {
        return false;
    }
    for (i, (value, angle)) in told.values.iter().enumerate() {
        match (view.next(), view.angle(i)) {
            (Some(next), Some(at)) if next.value == *value && at == *angle => {}
            _ => return false,
        }
    }
    view.next().is_none()
}

#[test]
fn channels_of_both(rt: HostRuntime) -> Result<(), Fail> {
    let octets = COLA_B.telegram(rt.alloc(), &[BODY])?;
    let binary = octets.as_slice();
    for (number, told) in TOLD.iter().enumerate() {
        assert!(rt; tells(&COLA_A, TEXT, number, told, told.place_in_text));
        assert!(rt; tells(&COLA_B, binary, number, told, told.place_in_binary));
    }
    Ok(())
}

// Whether bytes are accepted and have no channel with a number.
fn lacks<F: FullFraming>(framing: &F, bytes: &[u8], number: usize) -> bool {
    accept(framing, bytes).is_ok_and(|telegram| channel(&telegram, number).is_none())
}

#[test]
fn no_such_channel(rt: HostRuntime) -> Result<(), Fail> {
    let octets = COLA_B.telegram(rt.alloc(), &[BODY])?;
    for number in [3, 4, usize::MAX] {
        assert!(rt; lacks(&COLA_A, TEXT, number));
        assert!(rt; lacks(&COLA_B, octets.as_slice(), number));
    }
    assert!(rt; lacks(&COLA_A, b"\x02sMN Run\x03", 0));
    assert!(rt; lacks(&COLA_A, b"\x02sRA DeviceIdent 5 LMS10 1 V\x03", 0));
    Ok(())
}
