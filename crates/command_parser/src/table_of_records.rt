//! The laws of the table of records.
ghost use Rattle.std.specs.Prelude.{◌≡◌, ◌≤◌, ◌+◌, ◌++◌, ℕ, List, length, take};
ghost use Rattle.desk_model.specs.statements.Statement.{StatedValue};
ghost use Rattle.command_parser.specs.Spelled.{StatesCommand, StatesSome};
ghost use Rattle.command_parser.specs.RecordForms.{HasRow, IsWrongAt};

/// The fields of a record have all the forms of a row of the table exactly where they state a command. It does nothing:
/// its clauses are the law.
pub fn the_table_has_just_the_records_of_commands()
    ensures has { (fields : List (List ℕ)) (s : StatedValue) → StatesCommand fields s
        → HasRow fields }
    ensures states { (fields : List (List ℕ)) → HasRow fields → StatesSome fields }
{}

/// A record is wrong at one field at most. Where it breaks off in a command's record that is the number of the first field
/// that is missing, and where fields stand behind a command's record that of the first of these; so of a command's record
/// itself it is the number behind its last field. No command's record begins with the fields up to a wrong one. It does
/// nothing: its clauses are the law.
pub fn a_record_is_wrong_at_one_field()
    ensures one { (fields : List (List ℕ)) (p q : ℕ) → IsWrongAt fields p → IsWrongAt fields q
        → p ≡ q }
    ensures missing { (fields more : List (List ℕ)) (s : StatedValue)
        → StatesCommand (fields ++ more) s → IsWrongAt fields (length fields + 1) }
    ensures too_many { (fields more : List (List ℕ)) (s : StatedValue) → StatesCommand fields s
        → IsWrongAt (fields ++ more) (length fields + 1) }
    ensures no_command { (fields more : List (List ℕ)) (p : ℕ) (s : StatedValue)
        → IsWrongAt fields p → p ≤ length fields → ¬ StatesCommand (take p fields ++ more) s }
{}
