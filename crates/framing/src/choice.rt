// A choice of two framings, which is a framing. Each call asks the one that was chosen, by a match: a `dyn` would need a heap or a borrow, and says no less.
ghost use Rattle.framing.specs.declared.choice.Choice.TheVariants.{First, Second};

use crate::framing::{Framing, FullFraming, Meaning};
use crate::head::Head;
use layout::cursor::Cursor;
use layout::source::Source;
use layout::telling::Telling;
use telegram::item::{Item, Placed};
use telegram::refusal::Refusal;

#[derive(Clone, Copy)]
pub enum Choice<F, G> {
    First(F),
    Second(G),
}

impl<F: Framing, G: Framing> Meaning for Choice<F, G> {
    ghost reads = { λ c. elim c [ First f ↦ F.Meaning.reads f | Second g ↦ G.Meaning.reads g ] };

    ghost left = { λ c. elim c [ First f ↦ F.Meaning.left f | Second g ↦ G.Meaning.left g ] };
}

impl<F: Framing, G: Framing> Framing for Choice<F, G> {
    ghost keeps = { elim [
      | First f ↦ λ bs. F.Framing.keeps f bs
      | Second h ↦ λ bs. G.Framing.keeps h bs
    ] };

    fn read<'b>(&self, bytes: &'b [u8]) -> Result<Head<'b>, Refusal> {
        match self {
            Choice::First(framing) => framing.read(bytes),
            Choice::Second(framing) => framing.read(bytes),
        }
    }

    fn pull<'b>(&self, text: &'b [u8], at: Cursor) -> Option<(Placed<Item<'b>>, Cursor)> {
        match self {
            Choice::First(framing) => framing.pull(text, at),
            Choice::Second(framing) => framing.pull(text, at),
        }
    }
}

impl<F: FullFraming, G: FullFraming> FullFraming for Choice<F, G> {
    ghost spells = { λ c. elim c [ First f ↦ F.FullFraming.spells f | Second g ↦ G.FullFraming.spells g ] };

    ghost back = { elim [
      | First f ↦ λ t w. F.FullFraming.back f t w
      | Second h ↦ λ t w. G.FullFraming.back h t w
    ] };

    ghost verbatim = { elim [
      | First f ↦ λ bs at. F.FullFraming.verbatim f bs at
      | Second h ↦ λ bs at. G.FullFraming.verbatim h bs at
    ] };

    fn length<T: Source>(&self, telegram: &T) -> usize {
        match self {
            Choice::First(framing) => framing.length(telegram),
            Choice::Second(framing) => framing.length(telegram),
        }
    }

    fn write<T: Source>(&self, telling: &Telling<'_, T>, out: &mut [u8]) -> Result<usize, Refusal> {
        match self {
            Choice::First(framing) => framing.write(telling, out),
            Choice::Second(framing) => framing.write(telling, out),
        }
    }
}
