ghost use Rattle.std.specs.Prelude.{◌≡◌, IfSome};
ghost use Rattle.command_parser.specs.Word.{word_text};
ghost use Rattle.command_parser.specs.declared.word.Word.{Word as WordValue};

/// The word of a command's record, which says what kind of command it is.
#[derive(Clone, Copy, Debug, PartialEq, Eq)]
pub(crate) enum Word {
    Enrol,
    Board,
    List,
    Unlist,
    Off,
    On,
    Qualify,
    Past,
    Event,
    Vacancy,
    Relief,
    Next,
    Offer,
    Accept,
    Decline,
    NoAnswer,
    Withdraw,
    Annul,
    Drop,
    Hours,
    At,
    Explain,
    Vac,
}

impl Word {
    /// The word that a field spells; `None` where it is the word of no command.
    pub(crate) fn read(text: &[u8]) -> Option<Word>
        ensures some { IfSome result (λ word. text.now ≡ word_text word) }
        ensures only { (word : WordValue) → text.now ≡ word_text word → result ≡ Some word }
    {
        // Those of calls and of what is told every day come first, since most records have one of them.
        if text == b"next".as_slice() {
            Some(Word::Next)
        } else if text == b"event".as_slice() {
            Some(Word::Event)
        } else if text == b"accept".as_slice() {
            Some(Word::Accept)
        } else if text == b"vacancy".as_slice() {
            Some(Word::Vacancy)
        } else if text == b"at".as_slice() {
            Some(Word::At)
        } else if text == b"vac".as_slice() {
            Some(Word::Vac)
        } else if text == b"explain".as_slice() {
            Some(Word::Explain)
        } else if text == b"hours".as_slice() {
            Some(Word::Hours)
        } else if text == b"offer".as_slice() {
            Some(Word::Offer)
        } else if text == b"decline".as_slice() {
            Some(Word::Decline)
        } else if text == b"withdraw".as_slice() {
            Some(Word::Withdraw)
        } else if text == b"noanswer".as_slice() {
            Some(Word::NoAnswer)
        } else if text == b"on".as_slice() {
            Some(Word::On)
        } else if text == b"off".as_slice() {
            Some(Word::Off)
        } else if text == b"list".as_slice() {
            Some(Word::List)
        } else if text == b"enrol".as_slice() {
            Some(Word::Enrol)
        } else if text == b"past".as_slice() {
            Some(Word::Past)
        } else if text == b"relief".as_slice() {
            Some(Word::Relief)
        } else if text == b"drop".as_slice() {
            Some(Word::Drop)
        } else if text == b"annul".as_slice() {
            Some(Word::Annul)
        } else if text == b"unlist".as_slice() {
            Some(Word::Unlist)
        } else if text == b"qualify".as_slice() {
            Some(Word::Qualify)
        } else if text == b"board".as_slice() {
            Some(Word::Board)
        } else {
            None
        }
    }
}
