// The codes of a derivation's tokens: those of `token_numbers` of `specs/Record.antt`.

pub const STEP: u32 = 0;

pub const AXIOM: u32 = 1;

pub const ADD: u32 = 2;

pub const DIVIDE: u32 = 3;

pub const SATURATE: u32 = 4;
