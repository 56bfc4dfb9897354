//! The commands of the program.

use vic_answer::WrittenText;

/// The commands of the program.
#[derive(Clone, Copy, Debug, PartialEq, Eq)]
pub enum Command {
    Check,
    Explain,
    Report,
    Margin,
    Simulate,
    /// The texts are a list of what is expected, and then logs or texts of surveys; or the same as
    /// for `Collection`.
    Reconcile,
    /// The text is a word.
    Frame,
    /// The texts are words.
    Spell,
    /// The texts are logs.
    Survey,
    /// The texts are a catalogue, a table of places if there is one, and logs or texts of surveys.
    Collection,
    Json,
    /// The same texts as for `Collection`.
    JsonCollection,
}

/// What a command writes for texts.
#[derive(Drop)]
pub enum Output {
    /// This, with this status.
    Answer(WrittenText),
    /// Nothing: they aren't operands of it.
    Usage,
}
