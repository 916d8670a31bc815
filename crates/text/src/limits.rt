// The limits of document 01, in the code.

// The bytes of a text.
pub const TEXT_LENGTH: usize = 65536;

// The digits of a number that is read.
pub const DIGITS: usize = 10;

// The powers of ten that decide a printed number's width.
pub const POWERS: usize = 10;

pub const TASKS: u64 = 255;

pub const PROCESSORS: u64 = 16;

pub const EDGES: u64 = 1024;

pub const LOSSES: u64 = 7;

pub const RUN_TIME: u64 = 1000000;

pub const DELAY: u64 = 255;

pub const VOLUME: u64 = 4095;

pub const TICK: u64 = 4294967295;
