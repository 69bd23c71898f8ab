// The spelling, which has its items from the binary one, and the framing.
ghost use Rattle.std.specs.Prelude.{false};
ghost use Rattle.cola_b.specs.Canon.{canon_binary};
ghost use Rattle.cola_b.specs.Items.{find_binary};
ghost use Rattle.prefixed.specs.Envelope.{open_prefixed, wrap_prefixed};
ghost use Rattle.prefixed.specs.Wraps.{prefixed_inside, prefixed_snug, prefixed_reopens};
ghost use Rattle.cola_b.specs.Sounds.{binary_sound, binary_adjoining};
ghost use Rattle.cola_b.specs.Backs.{binary_written};
ghost use Rattle.cola_b.specs.Wraps.{binary_slim, binary_parted};

use crate::envelope::{FRONT, open, put_length};
use cola_b::octets::Octets;
use framed::framed::Framed;
use spelling::put::Output;
use spelling::terms::{Extent, FullSpelling, Spelling};
use telegram::item::{Item, Want};
use telegram::refusal::{Fault, Refusal};

#[derive(Clone, Copy)]
pub struct Prefixed;

impl Spelling for Prefixed {
    ghost opens = { open_prefixed };

    ghost spare = { false };

    ghost finds = { find_binary };

    ghost canon = { canon_binary };

    ghost inside = { prefixed_inside };

    ghost sound = { binary_sound };

    ghost back = { binary_written };

    fn open(bytes: &[u8]) -> Result<Extent, Refusal> {
        open(bytes)
    }

    fn spares_blank() -> bool {
        false
    }

    fn find<'b>(first: bool, want: Want, bytes: &'b [u8]) -> Result<(Item<'b>, usize), Fault> {
        Octets::find(first, want, bytes)
    }
}

impl FullSpelling for Prefixed {
    ghost wrap = { wrap_prefixed };

    ghost adjoining = { binary_adjoining };

    ghost slim = { binary_slim };

    ghost parted = { binary_parted };

    ghost snug = { prefixed_snug };

    ghost reopens = { prefixed_reopens };

    fn size(first: bool, item: Item<'_>) -> usize {
        Octets::size(first, item)
    }

    fn put(first: bool, item: Item<'_>, out: &mut Output<'_>) {
        Octets::put(first, item, out)
    }

    fn margins() -> (usize, usize) {
        (FRONT, 0)
    }

    fn enclose(out: &mut [u8], to: usize) {
        put_length(out, to)
    }
}

// The framing.
pub const PREFIXED: Framed<Prefixed> = Framed { spelling: Prefixed };
