// Every spelling is a framing.
ghost use Rattle.std.specs.Prelude.{◌≡◌};
ghost use Rattle.spelling.specs.Walk.{left as left_in};
ghost use Rattle.spelling.specs.Write.{spelled};
ghost use Rattle.framing.specs.Read.{reads as reads_in};
ghost use Rattle.framed.specs.Keepings.{keeps_in};
ghost use Rattle.framed.specs.Returns.{returns_in};
ghost use Rattle.framed.specs.Texts.{left_verbatim};

use crate::read::read;
use framing::framing::{Framing, FullFraming, Meaning};
use framing::head::Head;
use layout::cursor::Cursor;
use layout::source::Source;
use layout::telling::Telling;
use spelling::terms::{FullSpelling, Spelling};
use spelling::walk::next;
use telegram::item::{Item, Placed};
use telegram::refusal::Refusal;

#[derive(Clone, Copy)]
pub struct Framed<S> {
    pub spelling: S,
}

impl<S: Spelling> Framed<S> {
    pub fn new(spelling: S) -> Framed<S>
        ensures { result.spelling ≡ spelling }
    {
        Framed { spelling }
    }
}

impl<S: Spelling> Meaning for Framed<S> {
    ghost reads = { λ _. reads_in S.Spelling.opens S.Spelling.spare S.Spelling.finds };

    ghost left = { λ _. left_in S.Spelling.finds };
}

impl<S: Spelling> Framing for Framed<S> {
    ghost keeps = { λ f bs. keeps_in S.Spelling.opens S.Spelling.spare S.Spelling.finds S.Spelling.inside S.Spelling.sound bs };

    fn read<'b>(&self, bytes: &'b [u8]) -> Result<Head<'b>, Refusal> {
        read::<S>(bytes)
    }

    fn pull<'b>(&self, text: &'b [u8], at: Cursor) -> Option<(Placed<Item<'b>>, Cursor)> {
        next::<S>(text, at)
    }
}

impl<S: FullSpelling> FullFraming for Framed<S> {
    ghost spells = { λ _. spelled S.Spelling.canon S.FullSpelling.wrap };

    ghost back = { λ f t h.
        returns_in S.Spelling.opens S.Spelling.spare S.Spelling.finds S.Spelling.canon S.FullSpelling.wrap
        S.Spelling.back S.FullSpelling.slim S.FullSpelling.parted S.FullSpelling.snug S.FullSpelling.reopens t h };

    ghost verbatim = { λ f bs at. left_verbatim S.Spelling.finds S.FullSpelling.adjoining bs at };

    fn length<T: Source>(&self, telegram: &T) -> usize {
        writing::write::length::<S, T>(telegram)
    }

    fn write<T: Source>(&self, telling: &Telling<'_, T>, out: &mut [u8]) -> Result<usize, Refusal> {
        writing::write::write::<S, T>(telling, out)
    }
}
