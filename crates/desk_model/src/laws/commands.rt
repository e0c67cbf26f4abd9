//! What each command changes where it is accepted.
ghost use Rattle.std.specs.Prelude.{ℕ, Bool, List};
ghost use Rattle.qualifications.specs.declared.craft.Craft.{Craft};
ghost use Rattle.duty_events.specs.declared.event.Event.{Event};
ghost use Rattle.desk_model.specs.declared.command.Cmd.TheVariants as cmd;
ghost use Rattle.desk_model.specs.declared.reply.Reply.TheVariants as reply;
ghost use Rattle.desk_model.specs.statements.Job.{JobValue};
ghost use Rattle.desk_model.specs.laws.Accepted.{Answered, Accepted, Enrols, SetsUp, Lists, Unlists, MarksOff, MarksOn, Qualifies, TellsPast, Happens, Makes, Offers, Accepts, Declines, IsSilent, Withdraws, Annuls, Drops};

/// What the commands of persons and boards change where they are accepted in a legal history: whose enrolment,
/// qualifications, mark, past and events, and which boards' lists and orders. It does nothing: its clauses are the laws.
pub fn what_persons_and_boards_change()
    ensures enrol { (p : ℕ) (craft : Craft) (home : List ℕ) (quals : ℕ)
        → Accepted (cmd.Enrol p craft home quals) (Enrols p craft home quals) }
    ensures board { (b : List ℕ) (extra : Bool) (place : List ℕ)
        → Accepted (cmd.Board b extra place) (SetsUp b extra place) }
    ensures list { (p : ℕ) (b : List ℕ) → Accepted (cmd.List p b) (Lists p b) }
    ensures unlist { (p : ℕ) (b : List ℕ) → Accepted (cmd.Unlist p b) (Unlists p b) }
    ensures off { (p : ℕ) → Accepted (cmd.MarkOff p) (MarksOff p) }
    ensures on { (p : ℕ) → Accepted (cmd.MarkOn p) (MarksOn p) }
    ensures qualify { (p quals : ℕ) → Accepted (cmd.Qualify p quals) (Qualifies p quals) }
    ensures past { (p : ℕ) (e : Event) → Accepted (cmd.Past p e) (TellsPast p e) }
    ensures happened { (p : ℕ) (e : Event) → Accepted (cmd.Happened p e) (Happens p e) }
{}

/// What the commands of vacancies and offers change where they are accepted in a legal history, and `next` and `offer`
/// where they are answered with an offer: which vacancy and how it stands, which offer, whose assignment and mark, who
/// turned it down, until when a decline would hold whom, and the order of which board. It does nothing: its clauses are the laws.
pub fn what_vacancies_and_offers_change()
    ensures vacancy { (job : JobValue) → Accepted (cmd.Vacancy job) (Makes job) }
    ensures next { (v p k : ℕ) (b : List ℕ) → Answered (cmd.Next v) (reply.Offered p b k) (Offers v p b) }
    ensures offer { (v q p k : ℕ) (b : List ℕ) → Answered (cmd.Offer v q) (reply.Offered p b k) (Offers v p b) }
    ensures accept { (v p : ℕ) → Accepted (cmd.Accept v p) (Accepts v p) }
    ensures decline { (v p : ℕ) → Answered (cmd.Decline v p) reply.Done (Declines v p) }
    ensures no_answer { (v p : ℕ) → Accepted (cmd.NoAnswer v p) (IsSilent v p) }
    ensures withdraw { (v p : ℕ) → Accepted (cmd.Withdraw v p) (Withdraws v) }
    ensures annul { (v : ℕ) → Accepted (cmd.Annul v) (Annuls v) }
    ensures drop { (p : ℕ) → Accepted (cmd.Drop p) (Drops p) }
{}
