//! What is to be done how often.

/// The size of the input, how often the work is done, and the words behind them: the files that the input is made of, or
/// what else says of which kind it is.
#[derive(Drop)]
pub struct Task<'a> {
    pub size: usize,
    pub times: u64,
    pub words: &'a [String],
}
