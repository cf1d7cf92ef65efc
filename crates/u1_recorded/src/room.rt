// How much is lent to the calls.

pub const STATE_ENTRIES: usize = 2048;

pub const STARTS: usize = 128;

pub const MATRIX_ENTRIES: usize = 1024;

pub const RESULT: usize = 256;
