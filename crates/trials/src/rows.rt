// Bodies of telegrams and their pieces in canonical spelling, in text and, behind a `#`, in binary.

// Every row of the catalogue but those of scan data.
pub const ROWS: &str = "sRN LMDscandata#sRN LMDscandata
sEN LMDscandata 0#sEN LMDscandata [00]
sEN LMDscandata 1#sEN LMDscandata [01]
sEN LMDscandata FF#sEN LMDscandata [FF]
sEA LMDscandata 0#sEA LMDscandata [00]
sEA LMDscandata 1#sEA LMDscandata [01]
sEA LMDscandata 20#sEA LMDscandata [20]
sMN Run#sMN Run
sAN Run 0#sAN Run [00]
sAN Run 1#sAN Run [01]
sMN SetAccessMode 0 0#sMN SetAccessMode [00 00 00 00 00]
sMN SetAccessMode 3 F4724744#sMN SetAccessMode [03 F4 72 47 44]
sMN SetAccessMode 7F 10000000#sMN SetAccessMode [7F 10 00 00 00]
sMN SetAccessMode 80 FFFFFFF#sMN SetAccessMode [80 0F FF FF FF]
sMN SetAccessMode FF FFFFFFFF#sMN SetAccessMode [FF FF FF FF FF]
sMN SetAccessMode 2 2020202#sMN SetAccessMode [02 02 02 02 02]
sMN SetAccessMode 3 3030303#sMN SetAccessMode [03 03 03 03 03]
sAN SetAccessMode 0#sAN SetAccessMode [00]
sAN SetAccessMode 1#sAN SetAccessMode [01]
sMN mEEwriteall#sMN mEEwriteall
sAN mEEwriteall 0#sAN mEEwriteall [00]
sAN mEEwriteall 1#sAN mEEwriteall [01]
sMN LIDrstoutpcnt#sMN LIDrstoutpcnt
sAN LIDrstoutpcnt 0#sAN LIDrstoutpcnt [00]
sAN LIDrstoutpcnt 1#sAN LIDrstoutpcnt [01]
sRN SCdevicestate#sRN SCdevicestate
sRA SCdevicestate 0#sRA SCdevicestate [00]
sRA SCdevicestate 3#sRA SCdevicestate [03]
sRA SCdevicestate 10#sRA SCdevicestate [10]
sRN LDMSenStat#sRN LDMSenStat
sRA LDMSenStat 0#sRA LDMSenStat [00 00 00 00]
sRA LDMSenStat 1#sRA LDMSenStat [00 00 00 01]
sRA LDMSenStat 100#sRA LDMSenStat [00 00 01 00]
sRA LDMSenStat FFFF#sRA LDMSenStat [00 00 FF FF]
sRA LDMSenStat 10000#sRA LDMSenStat [00 01 00 00]
sRA LDMSenStat ABCDEF#sRA LDMSenStat [00 AB CD EF]
sRN DeviceIdent#sRN DeviceIdent
sRA DeviceIdent 0  0 #sRA DeviceIdent [00 00 00 00]
sRA DeviceIdent 0  1  #sRA DeviceIdent [00 00 00 01][20]
sRA DeviceIdent 6 LMS 10 0 #sRA DeviceIdent [00 06]LMS 10[00 00]
sRA DeviceIdent 0  5 V1.36#sRA DeviceIdent [00 00 00 05]V1.36
sRA DeviceIdent 20 !\"$%&'()*+,-./0123456789:;<=>?@A 20 BCXYZ\\^_`abcdefghijklmnopqruvwx~#sRA DeviceIdent [00 20]!\"$%&'()*+,-./0123456789:;<=>?@A[00 20]BCXYZ\\^_`abcdefghijklmnopqruvwx~
sRA DeviceIdent 20                                  0 #sRA DeviceIdent [00 20]                                [00 00]
sRA DeviceIdent 0  20 +500 -1 01F4 FFF92230 3F800000 0#sRA DeviceIdent [00 00 00 20]+500 -1 01F4 FFF92230 3F800000 0
sWN LFPparticle 0 0#sWN LFPparticle [00 00 00]
sWN LFPparticle 1 1F4#sWN LFPparticle [01 01 F4]
sWN LFPparticle 1 FFFF#sWN LFPparticle [01 FF FF]
sWA LFPparticle#sWA LFPparticle
sWN LFPmeanfilter 0 0 0#sWN LFPmeanfilter [00 00 00 00]
sWN LFPmeanfilter 1 A FF#sWN LFPmeanfilter [01 00 0A FF]
sWA LFPmeanfilter#sWA LFPmeanfilter
sWN LFPnto1filter 1#sWN LFPnto1filter [01]
sWA LFPnto1filter#sWA LFPnto1filter
sWN EIgate C0 A8 0 1#sWN EIgate [C0 A8 00 01]
sWN EIgate FF 20 2 3#sWN EIgate [FF 20 02 03]
sWA EIgate#sWA EIgate";

// The types of scan data.
pub const SCANS: [&str; 2] = [
    "sSN LMDscandata#sSN LMDscandata ",
    "sRA LMDscandata#sRA LMDscandata ",
];

// What stands before the encoders.
pub const FRONT: &str =
    " 1 FFFF 9F14CE 0 80 2F 33 27477BA9 FFFFFFFF 3 0 7 FF 0 9C4 168#[00 01 FF FF 00 9F 14 CE 00 80 00 2F 00 33 27 47 7B A9 FF FF FF FF 03 00 07 FF 00 00 00 00 09 C4 00 00 01 68]";

pub const ENCODERS: [&str; 4] = [
    " 0#[00 00]",
    " 1 3AD 0#[00 01 03 AD 00 00]",
    " 2 3AD 0 FFFF 12C#[00 02 03 AD 00 00 FF FF 01 2C]",
    " 3 1 2 3 202 20 8000#[00 03 00 01 00 02 00 03 02 02 00 20 80 00]",
];

// Channels of 16 bits, and of 8 bits.
pub const CHANNELS: [&str; 4] = [
    " 0 0#[00 00 00 00]",
    " 1 DIST1 3F800000 00000000 FFF92230 1388 5 8A1 8A5 0 1 FFFF 0#[00 01]DIST1[3F 80 00 00 00 00 00 00 FF F9 22 30 13 88 00 05 08 A1 08 A5 00 00 00 01 FF FF 00 00]",
    " 0 1 RSSI1 7FC00000 80000000 186A0 1 3 D 0 FF#[00 00 00 01]RSSI1[7F C0 00 00 80 00 00 00 00 01 86 A0 00 01 00 03 0D 00 FF]",
    " 2 DIST1 00000001 FFFFFFFF 80000000 0 0 a b c 40000000 00000000 7FFFFFFF 29A 2 3 2 2       00000000 00000000 0 0 0 RSSI2 3F800000 00000000 1 2 1 20#[00 02]DIST1[00 00 00 01 FF FF FF FF 80 00 00 00 00 00 00 00]a b c[40 00 00 00 00 00 00 00 7F FF FF FF 02 9A 00 02 00 03 00 02 00 02]     [00 00 00 00 00 00 00 00 00 00 00 00 00 00 00 00]RSSI2[3F 80 00 00 00 00 00 00 00 00 00 01 00 02 00 01 20]",
];

pub const POSITIONS: [&str; 2] = [
    " 0#[00 00]",
    " 1 3FC00000 C0000000 40490FDB 00000000 80000000 42B40000 3 1#[00 01 3F C0 00 00 C0 00 00 00 40 49 0F DB 00 00 00 00 80 00 00 00 42 B4 00 00 03 01]",
];

pub const NAMES: [&str; 3] = [
    " 0#[00 00]",
    " 1 0 #[00 01 00]",
    " 1 C Belt 7 north#[00 01 0C]Belt 7 north",
];

pub const COMMENTS: [&str; 3] = [
    " 0#[00 00]",
    " 1 A ok, 2 of 3#[00 01 0A]ok, 2 of 3",
    " 1 20 32 bytes, and the last is blank #[00 01 20]32 bytes, and the last is blank ",
];

pub const TIMES: [&str; 2] = [
    " 0#[00 00]",
    " 1 7E9 6 1E F 27 1F D59F8#[00 01 07 E9 06 1E 0F 27 1F 00 0D 59 F8]",
];

// The event flag.
pub const END: &str = " 0#[00 00]";
