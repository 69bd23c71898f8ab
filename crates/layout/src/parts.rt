// The optional parts, gathered while their items pass.
ghost use Rattle.std.specs.Prelude.{◌≡◌};
ghost use Rattle.telegram.specs.Value.{number, value_of};
ghost use Rattle.layout.specs.Layout.{wanted, is_scan};
ghost use Rattle.layout.specs.Follow.{todo, in_optional, Fitting};
ghost use Rattle.layout.specs.Passing.{no_parts, with_label, noted, noted_in};

use crate::progress::{set_field, set_hand};
use crate::records::Parts;
use crate::stage::{Label, OptionalStage, PositionField, Stage, TimeField};
use telegram::item::Item;
use telegram::row::Row;

// Whether a row carries scan data, and so may have optional parts.
pub fn is_scan(row: Row) -> bool
    ensures { result ≡ is_scan row }
{
    matches!(row, Row::SsnScanData | Row::SraScanData)
}

impl<'a> Parts<'a> {
    // No part is there.
    pub fn new() -> Parts<'a>
        ensures { result ≡ no_parts }
    {
        Parts::default()
    }

    fn labelled(self, label: Label, text: Option<&'a [u8]>) -> Parts<'a>
        ensures { result ≡ with_label label text.entry self.entry }
    {
        match label {
            Label::Name => Parts { name: text, ..self },
            Label::Comment => Parts {
                comment: text,
                ..self
            },
        }
    }

    fn note_optional(self, stage: OptionalStage, item: Item<'a>) -> Parts<'a>
        requires { Fitting (wanted (in_optional stage)) (number (value_of item)) }
        ensures { result ≡ noted_in stage item.entry self.entry }
    {
        let value = item.number();
        match stage {
            OptionalStage::PositionFlag => Parts {
                position: None,
                ..self
            },
            OptionalStage::InPosition(PositionField::SendsName, so_far) => Parts {
                position: Some(set_field(PositionField::SendsName, so_far, value)),
                ..self
            },
            OptionalStage::LabelFlag(label) => self.labelled(label, None),
            OptionalStage::LabelText(label, _) => match item {
                Item::Text(text) => self.labelled(label, Some(text)),
                _ => self,
            },
            OptionalStage::TimeFlag => Parts { time: None, ..self },
            OptionalStage::InTime(TimeField::Microsecond, so_far) => Parts {
                time: Some(set_hand(TimeField::Microsecond, so_far, value)),
                ..self
            },
            _ => self,
        }
    }

    // The parts once an item has passed at a stage.
    pub fn note(self, stage: Stage, item: Item<'a>) -> Parts<'a>
        requires { Fitting (wanted (todo stage)) (number (value_of item)) }
        ensures { result ≡ noted stage item.entry self.entry }
    {
        match stage {
            Stage::Optional(stage) => self.note_optional(stage, item),
            _ => self,
        }
    }
}
