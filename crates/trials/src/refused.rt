// Inputs that are refused.
use telegram::refusal::Reason;

// An input, and the reason and the place of its refusal.
pub type Case = (&'static str, Reason, usize);

pub const IN_TEXT: [Case; 12] = [
    ("", Reason::Size, 0),
    ("[02]", Reason::Envelope, 0),
    ("[02]sMN Run", Reason::Envelope, 7),
    ("[02]sMN[02]Run[03]", Reason::Envelope, 4),
    ("[02 03]", Reason::Unknown, 1),
    ("[02]sMN run[03]", Reason::Unknown, 1),
    ("[02]sAN Run[03]", Reason::Cut, 8),
    ("[02]sWN LFPparticle 2 +500[03]", Reason::Misspelt, 16),
    ("[02]sWN LFPparticle 1 +65536[03]", Reason::Misspelt, 18),
    ("[02]sRA DeviceIdent 21 [03]", Reason::Limit, 16),
    ("[02]sMN Run [03]", Reason::Rest, 8),
    (
        "[02]sSN LMDscandata 0 1 9F14CE 0 0 2 3 A B 0 0 7 0 0 9C4 21C 0 0 0 2 0 0 0 0[03]",
        Reason::Limit,
        63,
    ),
];

pub const IN_BINARY: [Case; 10] = [
    ("", Reason::Size, 0),
    ("[02 02 02 02]", Reason::Envelope, 4),
    ("[02 02 02 03 00 00 00 07]sMN Run[19]", Reason::Envelope, 3),
    ("[02 02 02 02 00 00 00 08]sMN Run[19]", Reason::Envelope, 4),
    ("[02 02 02 02 00 00 00 07]sMN Run[18]", Reason::Checksum, 15),
    ("[02 02 02 02 00 00 00 07]sMN run[39]", Reason::Unknown, 8),
    ("[02 02 02 02 00 00 00 07]sAN Run[15]", Reason::Cut, 15),
    (
        "[02 02 02 02 00 00 00 09]sAN Run [02 37]",
        Reason::Misspelt,
        15,
    ),
    (
        "[02 02 02 02 00 00 00 12]sRA DeviceIdent [00 21 2B]",
        Reason::Limit,
        23,
    ),
    (
        "[02 02 02 02 00 00 00 0A]sAN Run [01 00 34]",
        Reason::Rest,
        17,
    ),
];

pub const IN_PREFIXED: [Case; 4] = [
    ("[00]", Reason::Envelope, 1),
    ("[00 08]sMN Run", Reason::Envelope, 0),
    ("[00 09]sAN Run [02]", Reason::Misspelt, 9),
    ("[00 08]sMN Run ", Reason::Rest, 9),
];
