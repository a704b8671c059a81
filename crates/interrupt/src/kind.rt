// How an interrupt comes to be pending.
#[derive(Clone, Copy, PartialEq, Eq)]
pub enum Kind {
    // pending from a raise until it is acknowledged
    Edge,
    // pending while its line is up
    Level,
}
