// An output on which telegrams are written.
ghost use Rattle.std.specs.Prelude.{◌+◌, ◌≤◌, [], ◌∷◌, length};
ghost use Rattle.spelling.specs.Write.{Put};
ghost use Rattle.spelling.specs.Output.{HasRoom, Puts};

// Bytes to be written, and the place up to which they are.
#[derive(Drop)]
pub struct Output<'o> {
    pub bytes: &'o mut [u8],
    pub at: usize,
}

// Copies bytes to a place.
fn copy_to(out: &mut [u8], at: usize, bytes: &[u8])
    requires { at + length bytes.now ≤ length out.old }
    ensures { Put out.old at bytes.now out.new (at + length bytes.now) }
{
    out[at..at + bytes.len()].copy_from_slice(bytes);
}

impl Output<'_> {
    // Writes bytes.
    pub fn put(&mut self, bytes: &[u8])
        requires { HasRoom self.old (length bytes.now) }
        ensures { Puts self.old bytes.now self.new }
    {
        copy_to(self.bytes, self.at, bytes);
        self.at += bytes.len();
    }

    // Writes a blank.
    pub fn put_blank(&mut self)
        requires { HasRoom self.old 1 }
        ensures { Puts self.old (32 ∷ []) self.new }
    {
        self.put(b" ")
    }
}
