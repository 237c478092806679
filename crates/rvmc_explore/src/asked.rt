//! What a search is asked for.

/// What a search is asked for: the order of the harts of each rank, of how many states it makes the moves at most, how many
/// turns a rank takes by itself at once, whether lines are wanted that say how far it came, and whether standard sends always
/// buffer, so that ranks that need buffers aren't looked for.
#[derive(Clone, Copy, Drop)]
pub struct Asked<'a> {
    pub order: &'a [u8],
    pub states: usize,
    pub turns: u64,
    pub progress: bool,
    pub buffered: bool,
}
