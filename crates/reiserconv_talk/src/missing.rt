/// What could not be had of the system.
#[derive(Clone, Copy, Debug, PartialEq, Eq)]
pub enum Missing {
    /// A file in the place of each standard stream that is closed.
    Streams,
    /// A word of the command line as text: it is not in UTF-8.
    Text,
    /// Memory for the words.
    Memory,
    /// The time.
    Time,
    /// Random numbers.
    Random,
}
