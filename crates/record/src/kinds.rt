// The kinds of records: the numbers that `numbers` of `specs/Record.antt` begins with.

pub const SUM: u32 = 1;

pub const DERIVATION: u32 = 2;

pub const CLAUSE: u32 = 3;

pub const DELETION: u32 = 4;
