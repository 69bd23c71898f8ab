// The sample telegrams, as one statement over their list, and their canonical spellings, as another.
#![tactic(auto)]

ghost use Rattle.std.specs.Prelude.{◌≡◌, length};
ghost use Rattle.samples.specs.Samples.{samples, SamplesStand};
ghost use Rattle.samples.specs.Forms.{formings, FormsStand};

// How many sample telegrams the list has.
const SAMPLES: usize = 20;

// Of how many telegrams, samples and some more, the list has the canonical spellings.
const FORMS: usize = 24;

// How many sample telegrams there are; each comes to what the list says of it.
#[tactic(auto, using(crate::proofs::Stands::samples_are))]
pub fn samples_stand() -> usize
    ensures count { result ≡ 20 }
    ensures all { result ≡ length samples }
    ensures stand { SamplesStand }
{
    SAMPLES
}

// Of how many telegrams the list has the canonical spellings; each has those, and is respelt so.
#[tactic(auto, using(crate::proofs::Stands::forms_are))]
pub fn forms_stand() -> usize
    ensures count { result ≡ length formings }
    ensures stand { FormsStand }
{
    FORMS
}
