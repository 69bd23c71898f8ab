// The spelling of CoLa A.
ghost use Rattle.std.specs.Prelude.{◌≡◌, false};
ghost use Rattle.cola_a.specs.Canon.{canon_text};
ghost use Rattle.cola_a.specs.Envelope.{open_text, wrap_text};
ghost use Rattle.cola_a.specs.Items.{find_text};
ghost use Rattle.cola_a.specs.Insides.{text_inside};
ghost use Rattle.cola_a.specs.Sounds.{text_sound, text_adjoining};
ghost use Rattle.cola_a.specs.Backs.{text_written};
ghost use Rattle.cola_a.specs.Wraps.{text_slim, text_parted, text_snug, text_reopens};

use crate::canon::{letter_count, put_item};
use crate::envelope::{open_text, put_envelope};
use crate::items::item_of;
use spelling::put::Output;
use spelling::terms::{Extent, FullSpelling, Spelling};
use telegram::item::{Item, Want};
use telegram::refusal::{Fault, Refusal};

// Items are letters, with a blank before each.
#[derive(Clone, Copy)]
pub struct Letters;

impl Spelling for Letters {
    ghost opens = { open_text };

    ghost spare = { false };

    ghost finds = { find_text };

    ghost canon = { canon_text };

    ghost inside = { text_inside };

    ghost sound = { text_sound };

    ghost back = { text_written };

    fn open(bytes: &[u8]) -> Result<Extent, Refusal> {
        open_text(bytes)
    }

    fn spares_blank() -> bool {
        false
    }

    fn find<'b>(_first: bool, want: Want, bytes: &'b [u8]) -> Result<(Item<'b>, usize), Fault> {
        item_of(want, bytes)
    }
}

impl FullSpelling for Letters {
    ghost wrap = { wrap_text };

    ghost adjoining = { text_adjoining };

    ghost slim = { text_slim };

    ghost parted = { text_parted };

    ghost snug = { text_snug };

    ghost reopens = { text_reopens };

    fn size(_first: bool, item: Item<'_>) -> usize {
        1 + letter_count(item)
    }

    fn put(_first: bool, item: Item<'_>, out: &mut Output<'_>) {
        put_item(item, out)
    }

    fn margins() -> (usize, usize) {
        (1, 1)
    }

    fn enclose(out: &mut [u8], to: usize) {
        put_envelope(out, to)
    }
}
