// The spelling: a blank before the first item, and before no other.
ghost use Rattle.std.specs.Prelude.{true};
ghost use Rattle.cola_b.specs.Canon.{canon_binary};
ghost use Rattle.cola_b.specs.Items.{find_binary};
ghost use Rattle.cola_b.specs.Envelope.{open_binary, wrap_binary};
ghost use Rattle.cola_b.specs.Sounds.{binary_inside, binary_sound, binary_adjoining};
ghost use Rattle.cola_b.specs.Backs.{binary_written};
ghost use Rattle.cola_b.specs.Wraps.{binary_slim, binary_parted, binary_snug, binary_reopens};

use crate::envelope::{FRONT, put_envelope};
use crate::items::{bare_size, blanked_of, item_of, put_bare, put_blanked};
use spelling::put::Output;
use spelling::terms::{Extent, FullSpelling, Spelling};
use telegram::item::{Item, Want};
use telegram::refusal::{Fault, Refusal};

#[derive(Clone, Copy)]
pub struct Octets;

impl Spelling for Octets {
    ghost opens = { open_binary };

    ghost spare = { true };

    ghost finds = { find_binary };

    ghost canon = { canon_binary };

    ghost inside = { binary_inside };

    ghost sound = { binary_sound };

    ghost back = { binary_written };

    fn open(bytes: &[u8]) -> Result<Extent, Refusal> {
        crate::envelope::open(bytes)
    }

    fn spares_blank() -> bool {
        true
    }

    fn find<'b>(first: bool, want: Want, bytes: &'b [u8]) -> Result<(Item<'b>, usize), Fault> {
        if first {
            blanked_of(want, bytes)
        } else {
            item_of(want, bytes)
        }
    }
}

impl FullSpelling for Octets {
    ghost wrap = { wrap_binary };

    ghost adjoining = { binary_adjoining };

    ghost slim = { binary_slim };

    ghost parted = { binary_parted };

    ghost snug = { binary_snug };

    ghost reopens = { binary_reopens };

    fn size(first: bool, item: Item<'_>) -> usize {
        // With its blank, which stands before the first alone.
        usize::from(first) + bare_size(item)
    }

    fn put(first: bool, item: Item<'_>, out: &mut Output<'_>) {
        if first {
            put_blanked(item, out)
        } else {
            put_bare(item, out)
        }
    }

    fn margins() -> (usize, usize) {
        (FRONT, 1)
    }

    fn enclose(out: &mut [u8], to: usize) {
        put_envelope(out, to)
    }
}
