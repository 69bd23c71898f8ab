// The terms of a framing: what bytes mean in it and how a telegram is spelt in it, with what every framing keeps to; the calls that read and the calls that write.
ghost use Rattle.std.specs.Prelude.{◌≡◌, ℕ, List, length};
ghost use Rattle.layout.specs.declared.cursor.Cursor.{Cursor as At};
ghost use Rattle.layout.specs.Source.{Telegram, Within, Seen, Pulled};
ghost use Rattle.spelling.specs.Write.{Wrote};
ghost use Rattle.framing.specs.Read.{Outcome, Keeps, Means, Verbatim, Reads};

use crate::head::Head;
use layout::cursor::Cursor;
use layout::source::Source;
use layout::telling::Telling;
use telegram::item::{Item, Placed};
use telegram::refusal::Refusal;

// What a framing means.
pub trait Meaning {
    // What bytes come to: accepted, with telegram, body and spans; or refused, by a number and a place.
    ghost reads: { Self → List ℕ → Outcome };

    // The items from a cursor on, in an input up to its body's end.
    ghost left: { Self → List ℕ → At → List Seen };
}

pub trait Framing: Meaning {
    fn read<'b>(&self, bytes: &'b [u8]) -> Result<Head<'b>, Refusal>
        ensures { Reads (Self.Meaning.left self.now) bytes.now (Self.Meaning.reads self.now bytes.now) result };

    fn pull<'b>(&self, text: &'b [u8], at: Cursor) -> Option<(Placed<Item<'b>>, Cursor)>
        ensures { Pulled (Self.Meaning.left self.now text.now) at result };

    // What is accepted is within the catalogue and the limits, and its spans join in order to the body; a refusal is one of 1 to 8.
    ghost keeps: { (f : Self) (bs : List ℕ) → Keeps bs (Self.Meaning.reads f bs) };
}

// A framing in which telegrams are also written.
pub trait FullFraming: Framing {
    // The one spelling of a telegram that is written.
    ghost spells: { Self → Telegram → List ℕ };

    // How long the canonical spelling of a telegram is. It takes no records, so it asks for the telegram alone and for the fact about it.
    fn length<T: Source>(&self, telegram: &T) -> usize
        requires { Within (T.Source.telegram telegram.now) }
        ensures { result ≡ length (spells self.now (T.Source.telegram telegram.now)) };

    // Writes the canonical spelling of a telegram, whose optional parts are given as records.
    fn write<T: Source>(&self, telling: &Telling<'_, T>, out: &mut [u8]) -> Result<usize, Refusal>
        ensures { Wrote (spells self.now (T.Source.telegram telling.now.telegram.now)) out.old out.new result };

    // The canonical spelling of every telegram within the catalogue and the limits is accepted, and means that telegram.
    ghost back: { (f : Self) (t : Telegram) → Within t → Means t (Self.Meaning.reads f (spells f t)) };

    // The texts among the items stand in the input as they are.
    ghost verbatim: { (f : Self) (bs : List ℕ) (at : At) → Verbatim bs (Self.Meaning.left f bs at) };
}
