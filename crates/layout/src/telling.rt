// A telegram with the records of its optional parts.
ghost use Rattle.std.specs.Prelude.{◌≡◌};
ghost use Rattle.layout.specs.Source.{Within, Told};

use crate::records::Parts;
use crate::source::Source;

// A telegram within the catalogue and the limits, and the records of its optional parts. That it is so, and that they are its own, is part of the type.
#[derive(Drop)]
pub struct Telling<'t, T: Source> {
    pub telegram: &'t T,
    pub parts: Parts<'t>,
    pub ghost within: { ∥ Within (T.Source.telegram telegram.now) ∥₁ },
    pub ghost told: { ∥ Told (T.Source.telegram telegram.now) parts ∥₁ },
}

impl<'t, T: Source> Telling<'t, T> {
    pub fn new(telegram: &'t T, parts: Parts<'t>) -> Telling<'t, T>
        requires within { Within (T.Source.telegram telegram.now) }
        requires told { Told (T.Source.telegram telegram.now) parts }
        ensures telegram { result.telegram.now ≡ telegram.now }
        ensures parts { result.parts ≡ parts.entry }
    {
        Telling { telegram, parts }
    }
}
