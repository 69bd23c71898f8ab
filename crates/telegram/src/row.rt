// The rows of the catalogue: a type and a name each.
ghost use Rattle.std.specs.Prelude.{◌≡◌, ℕ, List};
ghost use Rattle.telegram.specs.Catalogue.{command, name, rows, called, listed};

// A row goes by the three letters of its type and by what its name stands for.
#[derive(Clone, Copy)]
pub enum Row {
    SsnScanData,
    SraScanData,
    SrnScanData,
    SenScanData,
    SeaScanData,
    SmnRun,
    SanRun,
    SmnSetAccessMode,
    SanSetAccessMode,
    SmnStoreAll,
    SanStoreAll,
    SmnResetOutputs,
    SanResetOutputs,
    SrnDeviceState,
    SraDeviceState,
    SrnSensorState,
    SraSensorState,
    SrnDeviceIdent,
    SraDeviceIdent,
    SwnParticle,
    SwaParticle,
    SwnMeanFilter,
    SwaMeanFilter,
    SwnOneOfN,
    SwaOneOfN,
    SwnGate,
    SwaGate,
}

// Every row, those of scans first.
const ROWS: [Row; 27] = [
    Row::SsnScanData,
    Row::SraScanData,
    Row::SrnScanData,
    Row::SenScanData,
    Row::SeaScanData,
    Row::SmnRun,
    Row::SanRun,
    Row::SmnSetAccessMode,
    Row::SanSetAccessMode,
    Row::SmnStoreAll,
    Row::SanStoreAll,
    Row::SmnResetOutputs,
    Row::SanResetOutputs,
    Row::SrnDeviceState,
    Row::SraDeviceState,
    Row::SrnSensorState,
    Row::SraSensorState,
    Row::SrnDeviceIdent,
    Row::SraDeviceIdent,
    Row::SwnParticle,
    Row::SwaParticle,
    Row::SwnMeanFilter,
    Row::SwaMeanFilter,
    Row::SwnOneOfN,
    Row::SwaOneOfN,
    Row::SwnGate,
    Row::SwaGate,
];

impl Row {
    // The type, as it stands at a body's start.
    pub fn command(self) -> &'static [u8]
        ensures { result.now ≡ command self }
    {
        match self {
            Row::SsnScanData => b"sSN",
            Row::SraScanData | Row::SraDeviceState | Row::SraSensorState | Row::SraDeviceIdent =>
                b"sRA",
            Row::SrnScanData | Row::SrnDeviceState | Row::SrnSensorState | Row::SrnDeviceIdent =>
                b"sRN",
            Row::SenScanData => b"sEN",
            Row::SeaScanData => b"sEA",
            Row::SmnRun | Row::SmnSetAccessMode | Row::SmnStoreAll | Row::SmnResetOutputs => b"sMN",
            Row::SanRun | Row::SanSetAccessMode | Row::SanStoreAll | Row::SanResetOutputs => b"sAN",
            Row::SwnParticle | Row::SwnMeanFilter | Row::SwnOneOfN | Row::SwnGate => b"sWN",
            Row::SwaParticle | Row::SwaMeanFilter | Row::SwaOneOfN | Row::SwaGate => b"sWA",
        }
    }

    // The name, as it stands behind the type and a blank.
    pub fn name(self) -> &'static [u8]
        ensures { result.now ≡ name self }
    {
        match self {
            Row::SsnScanData
            | Row::SraScanData
            | Row::SrnScanData
            | Row::SenScanData
            | Row::SeaScanData => b"LMDscandata",
            Row::SmnRun | Row::SanRun => b"Run",
            Row::SmnSetAccessMode | Row::SanSetAccessMode => b"SetAccessMode",
            Row::SmnStoreAll | Row::SanStoreAll => b"mEEwriteall",
            Row::SmnResetOutputs | Row::SanResetOutputs => b"LIDrstoutpcnt",
            Row::SrnDeviceState | Row::SraDeviceState => b"SCdevicestate",
            Row::SrnSensorState | Row::SraSensorState => b"LDMSenStat",
            Row::SrnDeviceIdent | Row::SraDeviceIdent => b"DeviceIdent",
            Row::SwnParticle | Row::SwaParticle => b"LFPparticle",
            Row::SwnMeanFilter | Row::SwaMeanFilter => b"LFPmeanfilter",
            Row::SwnOneOfN | Row::SwaOneOfN => b"LFPnto1filter",
            Row::SwnGate | Row::SwaGate => b"EIgate",
        }
    }

    // Whether a type and a name are the row's.
    pub fn answers_to(self, command: &[u8], name: &[u8]) -> bool
        ensures { result ≡ called command.now name.now self }
    {
        name == self.name() && command == self.command()
    }

    // The row with a type and a name, if the catalogue has it.
    pub fn find(command: &[u8], name: &[u8]) -> Option<Row>
        ensures { result ≡ listed command.now name.now }
    {
        catalogue()
            .iter()
            .copied()
            .find(|row| row.answers_to(command, name))
    }
}

// The catalogue.
#[tactic(auto, unfolding(crate::specs::Catalogue::rows))]
fn catalogue() -> &'static [Row]
    ensures { result.now ≡ rows }
{
    &ROWS
}
