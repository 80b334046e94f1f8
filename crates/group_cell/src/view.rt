//! What a seat at the table knows. A view stands in proofs alone: no value of one is made. A clause reads an array as a
//! list, of any length.

use flow_types::Shape;
use group_search::{BlockImage, Publication};
use std::marker::Model;

/// What a table was opened with: the cluster's shape, the images of its blocks, and the words in which they were laid.
#[derive(Drop)]
pub struct Opening {
    pub shape: Shape,
    pub images: Vec<BlockImage>,
    pub words: Vec<u64>,
}

impl Model for Opening {
    ghost use Rattle.group_cell.specs.Opening.{Opened};

    ghost Value = { Opened };

    ghost view = { λ o. record { size = o.shape; images = o.images.items; words = o.words.items } };
}

/// A group: its block, and its number there.
#[derive(Clone, Copy)]
pub struct Address {
    pub block: u16,
    pub group: u8,
}

/// A word that was loaded, and what was found there.
pub struct Load {
    pub word: u64,
    pub found: u64,
}

/// A look at a group: what the first load of its sequence word found and what the second did, and the words that were
/// loaded between.
pub struct Sight {
    pub at: Address,
    pub first: u64,
    pub second: Option<u64>,
    pub loads: [Load; 0],
}

/// What the writer's seat knows: all words, and all that was published.
pub struct WriterView {
    pub opening: Opening,
    pub published: [Publication; 0],
    pub words: [u64; 0],
    /// The group in writing.
    pub writing: Option<Address>,
    /// What the readers had seen that were joined into this seat.
    pub heard: [[Publication; 0]; 0],
}

/// What a reader's seat knows: how much it has seen of what was published.
pub struct ReaderView {
    pub opening: Opening,
    pub seen: [Publication; 0],
    /// What it and the readers joined into it had seen.
    pub heard: [[Publication; 0]; 0],
    /// How many first loads it has made.
    pub looks: u64,
    /// Its last look, while it isn't forgotten.
    pub last: Option<Sight>,
}

/// What a seat knows of the table.
pub enum View {
    Writer(WriterView),
    Reader(ReaderView),
    /// Nothing any more: what it had seen went to another seat.
    Spent,
}
