ghost use Rattle.std.specs.Prelude.{◌≡◌, ◌≤◌};
ghost use Rattle.desk_model.specs.declared.limits.TheConstants.{DUTY_PLAN_LIMIT, LIMBO_PLAN_LIMIT};
ghost use Rattle.std.specs.Option.{SomeIff};
ghost use Rattle.desk_base.specs.Minute.{IsInYears};
ghost use Rattle.desk_model.specs.statements.Job.{IsPlan, job_of};

use crate::{Chain, DUTY_PLAN_LIMIT, LIMBO_PLAN_LIMIT};
use desk_base::{Code, Minute, VacNo};
use qualifications::{Craft, Quals};
use std::marker::Model;

/// A job that is to be filled: what it asks for, when and where it begins, and how long it is planned to take.
#[derive(Clone, Copy, Debug, PartialEq, Eq)]
pub struct Job {
    quals: Quals,
    vac: VacNo,
    report: Minute,
    duty: u16,
    limbo: u16,
    place: Code,
    chain: Chain,
    craft: Craft,
    relief: bool,
}

impl Model for Job {
    ghost use Rattle.desk_model.specs.statements.Job.{JobValue, IsPlan, job_of};

    ghost Value = { JobValue };

    ghost view = { λ j. job_of j.vac j.craft j.quals j.place j.report j.duty j.limbo j.chain j.relief };

    ghost invariant = { λ j. IsPlan j.report j.duty j.limbo };

    ghost inverse = { λ v. record {
      vac = v.vac;
      craft = v.craft;
      quals = v.quals;
      place = v.place;
      report = v.report;
      duty = v.duty;
      limbo = v.limbo;
      chain = v.chain;
      relief = v.relief;
    } };
}

impl Job {
    /// A job of 1 to 9,999 minutes on duty and then at most 999 in limbo, whose report lies in the years 2000 to
    /// 2099; `None` for anything else.
    pub fn new(
        vac: VacNo,
        craft: Craft,
        quals: Quals,
        place: Code,
        report: Minute,
        duty: u16,
        limbo: u16,
        chain: Chain,
        relief: bool,
    ) -> Option<Job>
        ensures { SomeIff result (IsPlan report duty limbo)
            (job_of vac craft quals place report duty limbo chain relief) }
    {
        if report.is_in_years()
            && duty >= 1
            && duty <= DUTY_PLAN_LIMIT
            && limbo <= LIMBO_PLAN_LIMIT
        {
            Some(Job {
                vac,
                craft,
                quals,
                place,
                report,
                duty,
                limbo,
                chain,
                relief,
            })
        } else {
            None
        }
    }

    /// The vacancy's number.
    pub fn vac(&self) -> VacNo
        ensures { result ≡ self.now.vac }
    {
        self.vac
    }

    /// The craft that it asks for.
    pub fn craft(&self) -> Craft
        ensures { result ≡ self.now.craft }
    {
        self.craft
    }

    /// The qualifications that it asks for.
    pub fn quals(&self) -> Quals
        ensures { result ≡ self.now.quals }
    {
        self.quals
    }

    /// Where it begins.
    pub fn place(&self) -> Code
        ensures { result ≡ self.now.place }
    {
        self.place
    }

    /// The minute of the report, of the years 2000 to 2099.
    pub fn report(&self) -> Minute
        ensures value { result ≡ self.now.report }
        ensures range { IsInYears result }
    {
        self.report
    }

    /// The planned minutes on duty, 1 to 9,999.
    pub fn duty(&self) -> u16
        ensures value { result ≡ self.now.duty }
        ensures some { 1 ≤ result }
        ensures most { result ≤ DUTY_PLAN_LIMIT }
    {
        self.duty
    }

    /// The planned minutes in limbo behind these, at most 999.
    pub fn limbo(&self) -> u16
        ensures value { result ≡ self.now.limbo }
        ensures most { result ≤ LIMBO_PLAN_LIMIT }
    {
        self.limbo
    }

    /// The boards that it is filled from, in order.
    pub fn chain(&self) -> Chain
        ensures { result ≡ self.now.chain }
    {
        self.chain
    }

    /// Whether it is for a wreck or relief crew in an actual emergency, 49 USC 21103(d).
    pub fn is_relief(&self) -> bool
        ensures { result ≡ self.now.relief }
    {
        self.relief
    }
}
