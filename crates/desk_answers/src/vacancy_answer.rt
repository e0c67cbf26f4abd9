ghost use Rattle.std.specs.Prelude.{◌≡◌, not};
ghost use Rattle.std.specs.List.{find};
ghost use Rattle.desk_model.specs.histories.History.{History};
ghost use Rattle.desk_model.specs.histories.Register.{board_of};
ghost use Rattle.desk_model.specs.answers.VacancyAnswer.{is_extra, unknown_in, bad_in, plan_answer, vacancy_answer};

use crate::Reads;
use desk_base::{Code, Minute};
use desk_model::{Edition, Job, Opening, PLAN_LIMIT, RELIEF_LIMIT, Reply, VACANCY_LIMIT};

// The code is an extra board.
fn is_extra<R: Reads>(reads: &R, board: &Code) -> bool
    ensures { (h : History) → R.tells reads.now h → result ≡ is_extra (board_of h board.now) }
{
    match reads.board(board) {
        Some(setup) => setup.extra,
        None => false,
    }
}

// The first of the codes that is no board.
fn unknown_in<R: Reads>(reads: &R, codes: &[Code]) -> Option<Code>
    ensures { (h : History) → R.tells reads.now h → result ≡ unknown_in h codes.now }
{
    for code in codes {
        if reads.board(code).is_none() {
            return Some(*code);
        }
    }
    None
}

// The first of the codes that is no extra board.
fn first_not_extra<R: Reads>(reads: &R, codes: &[Code]) -> Option<Code>
    ensures { (h : History) → R.tells reads.now h
        → result ≡ find (λ b. not (is_extra (board_of h b))) codes.now }
{
    for code in codes {
        if !is_extra(reads, code) {
            return Some(*code);
        }
    }
    None
}

// The first board behind the chain's first that is no extra board.
fn bad_in<R: Reads>(reads: &R, codes: &[Code]) -> Option<Code>
    ensures { (h : History) → R.tells reads.now h → result ≡ bad_in h codes.now }
{
    match codes {
        [_, later @ ..] => first_not_extra(reads, later),
        [] => None,
    }
}

// What the job's plan gives.
fn plan_answer(opening: &Opening, moment: Minute, job: &Job) -> Reply
    ensures { result ≡ plan_answer opening.now moment job.now }
{
    let report = job.report();
    let ends = report.number() + u64::from(job.duty()) + u64::from(job.limbo());
    if !job.is_relief() && job.duty() > PLAN_LIMIT {
        Reply::PlanTooLong
    } else if job.is_relief() && job.duty() > RELIEF_LIMIT {
        Reply::ReliefTooLong
    } else if report < moment {
        Reply::ReportPast(report)
    } else if opening.window().end().number() < ends {
        Reply::OutsideWindow
    } else {
        Reply::Done
    }
}

/// The answer to `vacancy` at a moment.
pub(crate) fn vacancy_answer<R: Reads>(reads: &R, moment: Minute, job: &Job) -> Reply
    ensures { (h : History) → R.tells reads.now h → result ≡ vacancy_answer h moment job.now }
{
    if job.is_relief() && reads.opening().edition() == Edition::One {
        return Reply::OtherEdition;
    }
    if reads.vacancy(job.vac()).is_some() {
        return Reply::Used;
    }
    if reads.vacancy_count() >= VACANCY_LIMIT {
        return Reply::VacanciesFull;
    }
    let chain = job.chain();
    if let Some(code) = unknown_in(reads, chain.codes()) {
        return Reply::UnknownBoard(code);
    }
    if let Some(code) = bad_in(reads, chain.codes()) {
        return Reply::BadChain(code);
    }
    plan_answer(&reads.opening(), moment, job)
}
