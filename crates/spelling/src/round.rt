// What is written is read, in every spelling.
ghost use Rattle.spelling.specs.Round.{Round};

use crate::terms::Spelling;

// Items in their canonical spelling are read as themselves, behind any head.
pub fn round_stands<S: Spelling>() -> u8
    ensures { Round S.Spelling.finds S.Spelling.canon }
{
    0
}
