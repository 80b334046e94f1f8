/// What the program does.
#[derive(Clone, Copy, Debug, PartialEq, Eq)]
pub enum Task {
    /// It replays the rows on its standard input by one thread.
    Replay,
    /// It runs the rows on its standard input by threads: owners, lanes and appliers.
    Storm,
    /// It replays rows that it makes from a seed, and prints one line about them.
    Grind,
}

/// What the words ask for. Each task reads the options that it uses, and leaves the others alone.
#[derive(Clone, Copy, Debug, PartialEq, Eq)]
pub struct Command {
    /// What the program does.
    pub task: Task,
    /// How many workers build the table, 1..=64.
    pub workers: u8,
    /// How many lanes answer packets, 1..=8.
    pub lanes: u8,
    /// The seed of the rows that are made.
    pub seed: u32,
}
