//! What a table is made of.

/// How many frames a table has, how many backends may come (`passes`), and how many lanes it has.
#[derive(Clone, Copy, PartialEq, Eq, Debug)]
pub struct Config {
    pub frames: u32,
    pub passes: u32,
    pub lanes: u32,
}
