// The bounds that more than one crate keeps, each under one name, since later requests move some of them.
pub const PORTS: u8 = 8;

pub const VCS: u8 = 4;

// The places of an array over the ports, and of one over the channels.
pub const PORT_PLACES: usize = 8;

pub const CHANNEL_PLACES: usize = 32;

// "At most 1,000,000,000 accepted cycles in a run"; "flits at most 8·10^9".
pub const CYCLE_LIMIT: u64 = 1_000_000_000;

pub const FLIT_LIMIT: u64 = 8_000_000_000;

// Of an R line: "number 1..10, place 0..7".
pub const LARGEST_NUMBER: u8 = 10;

pub const LARGEST_PLACE: u8 = 7;

// "Each write .. asks for 376 bytes."
pub const ROOM: usize = 376;
