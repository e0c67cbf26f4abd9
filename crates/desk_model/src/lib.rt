//! What the desk is asked and what it answers, as values, and the rules of its answers as definitions.
#![tactic(auto)]

mod board_setup;
mod booked;
mod chain;
mod command;
mod desk_core;
mod edition;
mod entry;
mod entry_ref;
mod job;
mod laws;
mod limits;
mod link;
mod moment;
mod offer;
mod opening;
mod person;
mod reply;
mod stated;
mod vac_state;

pub use board_setup::BoardSetup;
pub use booked::Booked;
pub use chain::{Chain, ChainText};
pub use command::Cmd;
pub use desk_core::DeskCore;
pub use edition::Edition;
pub use entry::Entry;
pub use entry_ref::EntryRef;
pub use job::Job;
pub use laws::answers::{
    a_place_stays_from_the_latest_minute_on, each_vacancy_ends_in_the_window, no_event_lies_ahead,
    what_is_done_rests_on, who_is_on_a_board_is_listed,
};
pub use laws::calls::{
    each_denial_names_the_first_bar, each_offer_is_right, each_run_around_names_the_first,
    each_unfilled_vacancy_is_one, unfilled_where_all_are_barred, who_is_not_ready_is_barred,
};
pub use laws::commands::{what_persons_and_boards_change, what_vacancies_and_offers_change};
pub use laws::editions::{
    a_decline_holds_for_eight_hours, a_hold_is_by_boards, no_vacancy_plans_too_long,
    the_first_edition_stays_as_it_was,
};
pub use laws::entries::{
    a_refusal_changes_nothing, a_vacancy_is_in_one_state, each_moment_lies_in_the_window,
    moments_never_fall, no_event_is_left_out, one_offer_to_a_person, order_is_by_rank,
    what_a_command_leaves, what_an_entry_makes_of_the_desk, what_is_told_may_follow,
};
pub use laws::legal::{
    a_history_goes_on_with_commands, a_history_is_legal_in_one_way, a_legal_history_fits,
    boards_and_chains_are_bounded, one_history_is_legal, persons_boards_and_vacancies_are_bounded,
    the_first_entries_are_legal,
};
pub use laws::offers::{an_open_offer_may_be_settled, what_was_never_made_is_not_on_offer};
pub use limits::{
    BOARD_LIMIT, CHAIN_LIMIT, DUTY_PLAN_LIMIT, HOLD, LAST_CALLER, LIMBO_PLAN_LIMIT, LIST_LIMIT,
    MEMBER_LIMIT, PERSON_LIMIT, PLAN_LIMIT, POSITION_LIMIT, RELIEF_LIMIT, VACANCY_LIMIT,
    the_numbers_of_the_desk, the_numbers_of_the_law,
};
pub use link::Link;
pub use moment::last_moment;
pub use offer::Offer;
pub use opening::Opening;
pub use person::Person;
pub use reply::Reply;
pub use stated::Stated;
pub use vac_state::VacState;
