//! The laws of a journal's lines: each ends once, none begins another, and different replies have different texts.
ghost use Rattle.desk_model.specs.statements.Opening.{OpeningValue, IsOpening};
ghost use Rattle.desk_model.specs.statements.Entry.{EntryValue};
ghost use Rattle.desk_model.specs.statements.Fits.{Fits, FitsReply};
ghost use Rattle.desk_model.specs.texts.Journal.{opening_line, entry_line};
ghost use Rattle.line_writer.specs.Line.{IsLine};
ghost use Rattle.std.specs.Prelude.{◌≡◌, ◌≢◌, ◌++◌, [], ℕ, List};
ghost use Rattle.desk_model.specs.declared.reply.Reply.{Reply};
ghost use Rattle.desk_model.specs.texts.ReplyTexts.{reply_text};

/// Each line of a journal has one line feed, its last byte, and no carriage return: that of an opening, and that of an
/// entry whose values are in their ranges, as those of a legal history are. It does nothing: its clauses are the law.
pub fn each_line_ends_once()
    ensures opening { (o : OpeningValue) → IsOpening o → IsLine (opening_line o) }
    ensures entry { (e : EntryValue) → Fits e → IsLine (entry_line e) }
{}

/// Different replies have different texts: of two replies whose values are in their ranges, as those of a legal history
/// are, one text is that of one reply. It does nothing: its clause is the law.
pub fn different_replies_have_different_texts()
    ensures { (r s : Reply) → FitsReply r → FitsReply s → reply_text r ≡ reply_text s → r ≡ s }
{}

/// No line of a journal begins another: where the line of an entry begins that of an entry, they are one entry and one line,
/// and so with openings; and neither begins an opening's line an entry's, nor an entry's an opening's. It does nothing: its
/// clauses are the law.
pub fn no_line_begins_another()
    ensures entries { (a b : EntryValue) (rest : List ℕ) → Fits a → Fits b
        → entry_line b ≡ entry_line a ++ rest → (a ≡ b) × (rest ≡ []) }
    ensures openings { (a b : OpeningValue) (rest : List ℕ) → IsOpening a → IsOpening b
        → opening_line b ≡ opening_line a ++ rest → (a ≡ b) × (rest ≡ []) }
    ensures no_entry { (o : OpeningValue) (e : EntryValue) (rest : List ℕ) → IsOpening o → Fits e
        → entry_line e ≢ opening_line o ++ rest }
    ensures no_opening { (o : OpeningValue) (e : EntryValue) (rest : List ℕ) → IsOpening o
        → Fits e → opening_line o ≢ entry_line e ++ rest }
{}
