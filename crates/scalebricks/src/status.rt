ghost use Rattle.std.specs.Prelude.{◌≡◌, MatchOption};
ghost use Rattle.scalebricks.specs.Status.{Status, code, sentence};

/// The most octets of input, in octets.
pub const INPUT_LIMIT: u64 = 67_108_864;

/// The whole output was written.
pub const DONE: u8 = 0;
/// The line of the first bad row, or of the first block past a limit, was written.
pub const INPUT_REFUSED: u8 = 1;
/// The words are no command.
pub const WORDS_REFUSED: u8 = 2;
/// The source failed.
pub const READ_FAULT: u8 = 3;
/// The sink failed.
pub const WRITE_FAULT: u8 = 4;
/// There was no memory.
pub const OUT_OF_MEMORY: u8 = 5;
/// The input is longer than the limit.
pub const TOO_LARGE: u8 = 6;

/// The sentence for standard error, where a status has one.
pub fn complaint(status: u8) -> Option<&'static str>
    ensures { (known : Status) → status ≡ code known →
        MatchOption result (sentence known ≡ None) (λ line. sentence known ≡ Some line.now) }
{
    match status {
        WORDS_REFUSED => Some("scalebricks: words refused"),
        READ_FAULT => Some("scalebricks: read fault"),
        WRITE_FAULT => Some("scalebricks: write fault"),
        OUT_OF_MEMORY => Some("scalebricks: out of memory"),
        TOO_LARGE => Some("scalebricks: input too large"),
        _ => None,
    }
}
