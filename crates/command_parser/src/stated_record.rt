//! A record that states a command.
ghost use Rattle.std.specs.Prelude.{◌≡◌, ℕ, List};
ghost use Rattle.desk_base.specs.Parts.{parts_by};
ghost use Rattle.desk_model.specs.statements.Statement.{StatedValue};
ghost use Rattle.command_parser.specs.Spelled.{SpellsStated, StatesCommand};

use desk_base::{Minute, PersonNo, YEARS_BEGIN};
use desk_model::{Cmd, Stated};

/// Some statement, for another to be put in its place.
pub fn some_statement() -> Stated {
    let minute = Minute::new(YEARS_BEGIN).unwrap();
    let person = PersonNo::new(1).unwrap();
    Stated::new(minute, Cmd::Drop { person }).unwrap()
}

/// The bytes between whose commas stand the fields of what is stated are the text of it. It does nothing: its clause is the law.
pub fn a_plain_record_is_its_statement()
    ensures { (text : List ℕ) (s : StatedValue) → StatesCommand (parts_by 44 text) s
        → SpellsStated text s }
{}
