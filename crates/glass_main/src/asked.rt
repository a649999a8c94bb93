//! A run that is asked for.

use command_words::RunOrder;

/// A run that is asked for: by its words, and by what its files say, of one bank or of several.
#[derive(Drop)]
pub(crate) struct Asked<'a, P> {
    pub(crate) order: RunOrder<'a>,
    pub(crate) planned: P,
}
