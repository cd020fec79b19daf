// "Numbers given back": each number of the table under one name. `specs/Numbers.antt` has the same names for the definitions.
pub const DONE: u8 = 0;

pub const CONFIGURATION_WRONG: u8 = 1;

pub const NOT_SOUND: u8 = 2;

pub const ROW_WRONG: u8 = 3;

pub const OUT_OF_TURN: u8 = 4;

pub const NO_SENDER_CREDIT: u8 = 5;

pub const CREDIT_PAST_ROOM: u8 = 6;

pub const CHECK_WRONG: u8 = 7;

pub const BLOCK_WRONG: u8 = 8;

pub const BLOCK_SHORT: u8 = 9;

pub const RUN_FULL: u8 = 10;

pub const NO_ROOM: u8 = 11;

pub const OUT_OF_RANGE: u8 = 12;
