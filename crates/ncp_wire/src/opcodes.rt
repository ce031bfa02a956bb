//! The opcode of each command (NIC 8246).
pub const NOP: u8 = 0;

pub const RTS: u8 = 1;

pub const STR: u8 = 2;

pub const CLS: u8 = 3;

pub const ALL: u8 = 4;

pub const GVB: u8 = 5;

pub const RET: u8 = 6;

pub const INR: u8 = 7;

pub const INS: u8 = 8;

pub const ECO: u8 = 9;

pub const ERP: u8 = 10;

pub const ERR: u8 = 11;

pub const RST: u8 = 12;

pub const RRP: u8 = 13;
