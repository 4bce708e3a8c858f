//! The sizes of the pieces in which an input comes.

/// The sizes of pieces, one after the other: always the same, or uneven ones.
#[derive(Clone, Copy, Drop)]
pub(crate) enum Pieces {
    Of(usize),
    Uneven,
}

static UNEVEN: [usize; 7] = [3, 1, 7, 2, 11, 1, 5];

impl Pieces {
    /// The size of the piece with this number.
    pub(crate) fn size(self, turn: usize) -> usize {
        match self {
            Pieces::Of(size) => size,
            Pieces::Uneven => UNEVEN[turn % 7],
        }
    }
}

/// Small, large and uneven pieces.
pub(crate) static PIECES: [Pieces; 6] = [
    Pieces::Of(1),
    Pieces::Of(2),
    Pieces::Of(3),
    Pieces::Of(8),
    Pieces::Of(1000),
    Pieces::Uneven,
];

/// Small and large windows.
pub(crate) static WINDOWS: [usize; 3] = [1, 4, 1000];
