// Reading in binary.
ghost use Rattle.std.specs.Prelude.{◌≡◌};
ghost use Rattle.spelling.specs.Walk.{left};
ghost use Rattle.framing.specs.Read.{Reads, Keeps};
ghost use Rattle.cola_b.specs.Items.{find_binary};
ghost use Rattle.cola_b.specs.Read.{reads_binary, Guarded};

use crate::octets::Octets;
use framed::framed::Framed;
use framing::accepted::read_in;
use framing::head::Head;
use telegram::refusal::Refusal;

// The binary framing.
pub type ColaB = Framed<Octets>;

pub const COLA_B: ColaB = Framed { spelling: Octets };

// What bytes come to, and what any one of them changed alone comes to.
fn read_guarded<'b>(bytes: &'b [u8]) -> Result<Head<'b>, Refusal>
    ensures answer { Reads (left find_binary) bytes.now (reads_binary bytes.now) result }
    ensures keeps { Keeps bytes.now (reads_binary bytes.now) }
    ensures guarded { Guarded bytes.now }
{
    read_in(&COLA_B, bytes)
}

// What bytes come to. Of bytes that are accepted, none can be changed alone without a refusal.
pub fn read<'b>(bytes: &'b [u8]) -> Result<Head<'b>, Refusal>
    ensures answer { Reads (left find_binary) bytes.now (reads_binary bytes.now) result }
    ensures keeps { Keeps bytes.now (reads_binary bytes.now) }
    ensures guarded { Guarded bytes.now }
{
    read_guarded(bytes)
}
