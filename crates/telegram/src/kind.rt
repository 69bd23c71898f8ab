// The kinds of a number.
ghost use Rattle.std.specs.Prelude.{◌≡◌};
ghost use Rattle.telegram.specs.Kind.{bytes, patterns};

#[derive(Clone, Copy)]
pub enum Kind {
    Bool,
    Uint8,
    Uint16,
    Uint32,
    Int8,
    Int32,
}

impl Kind {
    // How many bytes a number of the kind takes in binary.
    pub fn width(self) -> usize
        ensures { result ≡ bytes self }
    {
        match self {
            Kind::Bool | Kind::Uint8 | Kind::Int8 => 1,
            Kind::Uint16 => 2,
            Kind::Uint32 | Kind::Int32 => 4,
        }
    }

    // How many patterns the kind has: its numbers are those below.
    pub fn span(self) -> u64
        ensures { result ≡ patterns self }
    {
        match self {
            Kind::Bool => 2,
            Kind::Uint8 | Kind::Int8 => 0x100,
            Kind::Uint16 => 0x1_0000,
            Kind::Uint32 | Kind::Int32 => 0x1_0000_0000,
        }
    }
}
