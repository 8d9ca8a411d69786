//! The options: their ranges, their values where they aren't given, and what they say.

use rm_base::Settings;

pub const MOST_DEPTH: u8 = 2;

pub const USUAL_DEPTH: u8 = 1;

pub const LEAST_BUDGET: u32 = 1;

pub const MOST_BUDGET: u32 = 1_048_576;

pub const USUAL_BUDGET: u32 = 256;

pub const MOST_TRIES: u32 = 1_000_000;

pub const USUAL_TRIES: u32 = 1_000_000;

pub const LEAST_WORKERS: u8 = 1;

pub const MOST_WORKERS: u8 = 64;

pub const USUAL_WORKERS: u8 = 1;

pub const MOST_MERGE: u8 = 2;

pub const USUAL_MERGE: u8 = 1;

pub const MOST_PERTURB: u8 = 64;

pub const USUAL_PERTURB: u8 = 0;

pub const MOST_WORK: u32 = 1_000_000;

pub const USUAL_WORK: u32 = 0;

pub const LEAST_WIDTH: u32 = 1;

pub const MOST_WIDTH: u32 = 65_536;

pub const MOST_SHIFT: u32 = 65_536;

pub const USUAL_SHIFT: u32 = 0;

/// What the options say: the settings of a run, and after how many wires the first window of a model ends, where it isn't 0.
#[derive(Clone, Copy)]
pub struct Options {
    pub settings: Settings,
    pub shift: u32,
}
