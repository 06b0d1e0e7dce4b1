//! A law of what a change takes from who types. No function here does anything.
ghost use Rattle.keymap_consequences.specs.Consequences.{SentencesStay};

/// Where no character is among those that keys can type no longer, no sentence that they could type before the change is
/// refused behind it since they can't type one of its characters.
pub fn sentences_stay()
    ensures { SentencesStay }
{}
