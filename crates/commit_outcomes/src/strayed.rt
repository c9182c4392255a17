/// The kept numbers of a token and of its keeper contradict each other: the token has seen more of the history than the keeper
/// has, or they count its worker's commits differently.
#[derive(Clone, Copy, PartialEq, Eq)]
pub struct Strayed {
    /// The place of the history that the token has seen.
    pub seen: u64,
    /// The place of the keeper's history.
    pub place: u64,
    /// How many commits were made with the token.
    pub made: u64,
    /// How many of the worker's commits the keeper has, the one that waits included.
    pub kept: u64,
}
