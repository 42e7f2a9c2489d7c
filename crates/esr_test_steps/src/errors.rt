//! Why a scene can't be played on.
use std::fmt::Debug;

/// Why a scene can't be played on, in words.
#[derive(Clone, Copy)]
pub struct Trouble(pub &'static str);

/// What was wanted where a step is refused.
pub(crate) const REFUSED: &str = "a step that is not refused";

impl<E: Debug + Drop> From<E> for Trouble {
    fn from(_: E) -> Trouble {
        Trouble(REFUSED)
    }
}

/// Nothing, or why a scene can't be played on.
pub type Done = Result<(), Trouble>;
