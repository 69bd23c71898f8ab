// A place among the items of a telegram.
use crate::stage::Progress;

// Where the next item begins, whether it is the first of its telegram, and where the layout stands.
#[derive(Clone, Copy)]
pub struct Cursor {
    pub place: usize,
    pub first: bool,
    pub progress: Progress,
}
