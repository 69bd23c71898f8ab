// How a family of framings differs: in the envelope, and in how one item is spelt.
ghost use Rattle.std.specs.Prelude.{◌≡◌, ℕ, ◌+◌, ◌-◌, ◌≤◌, Bool, length};
ghost use Rattle.telegram.specs.Value.{value_of};
ghost use Rattle.spelling.specs.Canon.{Canon, Back};
ghost use Rattle.spelling.specs.Spell.{Opens, Find, Inside, Sound, Adjoining, Opening, Finds};
ghost use Rattle.spelling.specs.Write.{Wrap, Snug, Slim, Parted, Reopens, enclosed};
ghost use Rattle.spelling.specs.Output.{HasRoom, Puts};

use crate::put::Output;
use telegram::item::{Item, Want};
use telegram::refusal::{Fault, Refusal};

// Where a body stands in the whole input: its first byte, and the place behind its last.
#[derive(Clone, Copy)]
pub struct Extent {
    pub from: usize,
    pub to: usize,
}

pub trait Spelling {
    // The body that an envelope holds, or what is wrong with the envelope.
    ghost opens: { Opens };

    // Whether a head that has no items may have a blank behind it.
    ghost spare: { Bool };

    // The item that stands at the start of a list of bytes.
    ghost finds: { Find };

    // How an item is written.
    ghost canon: { Canon };

    fn open(bytes: &[u8]) -> Result<Extent, Refusal>
        ensures { Opening (opens bytes.now) result };

    fn spares_blank() -> bool
        ensures { result ≡ spare };

    // The item that bytes begin with, up to the body's end, and how many of them it takes; `first` says that no item came before; it is a fact about the place and no value's state, and so a bool.
    fn find<'b>(first: bool, want: Want, bytes: &'b [u8]) -> Result<(Item<'b>, usize), Fault>
        ensures { Finds bytes.now (finds first want bytes.now) result };

    ghost inside: { Inside opens };

    ghost sound: { Sound finds };

    ghost back: { Back finds canon };
}

// A spelling in which telegrams are also written.
pub trait FullSpelling: Spelling {
    // What is put around a body.
    ghost wrap: { Wrap };

    // How many bytes an item is written in, its blank included.
    fn size(first: bool, item: Item<'_>) -> usize
        requires { length (Self.Spelling.canon first (value_of item)) ≤ 65536 }
        ensures { result ≡ length (Self.Spelling.canon first (value_of item.entry)) };

    // Writes an item.
    fn put(first: bool, item: Item<'_>, out: &mut Output<'_>)
        requires { HasRoom out.old (length (Self.Spelling.canon first (value_of item))) }
        ensures { Puts out.old (Self.Spelling.canon first (value_of item.entry)) out.new };

    // How many bytes stand before a body, and how many behind it.
    fn margins() -> (usize, usize)
        ensures before { result.0 ≡ wrap.before }
        ensures after { result.1 ≡ wrap.after };

    // Puts the envelope around a body that ends at a place. An `Output` would not do: it only goes on, and an envelope stands before the body too.
    fn enclose(out: &mut [u8], to: usize)
        requires front { wrap.before ≤ to }
        requires room { to + wrap.after ≤ length out.old }
        requires short { to ≤ 65536 }
        ensures { out.new ≡ enclosed wrap out.old to };

    ghost adjoining: { Adjoining Self.Spelling.finds };

    ghost slim: { Slim Self.Spelling.canon };

    ghost parted: { Parted Self.Spelling.canon };

    ghost snug: { Snug wrap };

    ghost reopens: { Reopens Self.Spelling.opens Self.Spelling.canon wrap };
}
