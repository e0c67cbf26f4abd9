//! The laws of records of tours.
ghost use Rattle.std.specs.Prelude.{◌≡◌, ℕ, [], map, codes};
ghost use Rattle.duty_events.specs.EndedTours as duty;
ghost use Rattle.desk_model.specs.histories.History.{History};
ghost use Rattle.desk_model.specs.histories.Duty.{events};
ghost use Rattle.rest_rules.specs.Excess.{excess};
ghost use Rattle.duty_record.specs.Deeds.{events_in, deeds};
ghost use Rattle.duty_record.specs.Tours.{tour_of, tours, last_excess};
ghost use Rattle.duty_record.specs.Json.{json_text};

/// What a person did by a history, legal or not, are their events in it; and there is just one record for each of the tours
/// that these end, in order, with its start, its end and its place. It does nothing: its clauses are the laws.
pub fn each_tour_has_one_record()
    ensures events { (h : History) (p : ℕ) → events_in (deeds h p) ≡ events h p }
    ensures tours { (h : History) (p : ℕ) → map tour_of (tours h p) ≡ duty.tours (events h p) }
{}

/// The excess of a person's last record is the one by which their rest is longer, 49 USC 21103(c)(4): what is summed up when a
/// tour ends stays its sum, whatever comes behind it. It does nothing: its clause is the law.
pub fn the_last_excess_is_owed_to_rest()
    ensures { (h : History) (p : ℕ) → last_excess (tours h p) ≡ excess (events h p) }
{}

/// The text of no records is `[]`. It does nothing: its clause is the law.
pub fn no_records_are_an_empty_array()
    ensures { json_text [] ≡ codes "[]" }
{}
