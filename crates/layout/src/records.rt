// The optional parts of scan data, as plain records.

// Where the device stands: coordinates and rotations as Real patterns, the kind of rotation, and whether its name is sent. These two are kept as numbers, since every number of their kind is accepted.
#[derive(Clone, Copy, Debug, Default, PartialEq, Eq)]
pub struct Position {
    pub x: u32,
    pub y: u32,
    pub z: u32,
    pub x_rotation: u32,
    pub y_rotation: u32,
    pub z_rotation: u32,
    pub rotation_type: u8,
    pub sends_name: u8,
}

// When the scan was taken.
#[derive(Clone, Copy, Debug, Default, PartialEq, Eq)]
pub struct Time {
    pub year: u16,
    pub month: u8,
    pub day: u8,
    pub hour: u8,
    pub minute: u8,
    pub second: u8,
    pub microsecond: u32,
}

// Each part may be absent.
#[derive(Clone, Copy, Debug, Default, PartialEq, Eq)]
pub struct Parts<'a> {
    pub position: Option<Position>,
    pub name: Option<&'a [u8]>,
    pub comment: Option<&'a [u8]>,
    pub time: Option<Time>,
}
