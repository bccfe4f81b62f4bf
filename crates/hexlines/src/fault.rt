use refusals::refusal::Refusal;

// The layer at which a text is refused: its digits and lines, its frames, or the book that they make.
#[derive(Clone, Copy, Debug, PartialEq, Eq)]
pub enum Layer {
    Text,
    Frame,
    Book,
}

// Why a text is refused: at which line, counted from 1, at which layer, and by which refusal.
#[derive(Clone, Copy, Debug, PartialEq, Eq)]
pub struct Fault {
    pub line: usize,
    pub layer: Layer,
    pub refusal: Refusal,
}
