ghost use Rattle.std.specs.Prelude.{◌≡◌, IfSome};
ghost use Rattle.command_parser.specs.Word.{event_word_text};
ghost use Rattle.command_parser.specs.declared.event_word.EventWord.{EventWord as EventWordValue};

/// The word of an event, which says what kind of event it is.
#[derive(Clone, Copy, Debug, PartialEq, Eq)]
pub(crate) enum EventWord {
    Ride,
    Duty,
    Interim,
    Resume,
    Relieve,
    RideHome,
    Final,
    Other,
}

impl EventWord {
    /// The word that a field spells; `None` where it is the word of no event.
    pub(crate) fn read(text: &[u8]) -> Option<EventWord>
        ensures some { IfSome result (λ word. text.now ≡ event_word_text word) }
        ensures only { (word : EventWordValue) → text.now ≡ event_word_text word
            → result ≡ Some word }
    {
        if text == b"duty".as_slice() {
            Some(EventWord::Duty)
        } else if text == b"final".as_slice() {
            Some(EventWord::Final)
        } else if text == b"interim".as_slice() {
            Some(EventWord::Interim)
        } else if text == b"resume".as_slice() {
            Some(EventWord::Resume)
        } else if text == b"relieve".as_slice() {
            Some(EventWord::Relieve)
        } else if text == b"ride".as_slice() {
            Some(EventWord::Ride)
        } else if text == b"ridehome".as_slice() {
            Some(EventWord::RideHome)
        } else if text == b"other".as_slice() {
            Some(EventWord::Other)
        } else {
            None
        }
    }
}
