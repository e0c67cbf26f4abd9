ghost use Rattle.std.specs.Prelude.{◌≡◌};
ghost use Rattle.duty_events.specs.MinuteKind.{is_worked, is_off_duty};
ghost use Rattle.duty_events.specs.Tours.{is_in_tour};

/// What a minute counts as.
#[derive(Clone, Copy, Debug, PartialEq, Eq)]
pub enum MinuteKind {
    /// Off duty.
    Off,
    /// On duty, 49 USC 21103(b)(1), (2) and (4) to (7).
    OnDuty,
    /// Neither on duty nor off: waiting for the ride from a duty assignment to the place of final release, or
    /// riding there, 21103(b)(4).
    Limbo,
    /// Other service for the railroad.
    Other,
    /// Of an interim that has not ended: nothing yet.
    Open,
}

impl MinuteKind {
    /// Whether it is worked: on duty, limbo or other service.
    pub fn is_worked(&self) -> bool
        ensures { result ≡ is_worked self.now }
    {
        matches!(
            self,
            MinuteKind::OnDuty | MinuteKind::Limbo | MinuteKind::Other
        )
    }

    /// Whether it is off duty. A minute of an interim that has not ended is neither worked nor off.
    pub fn is_off_duty(&self) -> bool
        ensures { result ≡ is_off_duty self.now }
    {
        matches!(self, MinuteKind::Off)
    }

    /// Whether it is on duty or limbo, as a tour's minutes are that are summed.
    pub fn is_in_tour(&self) -> bool
        ensures { result ≡ is_in_tour self.now }
    {
        matches!(self, MinuteKind::OnDuty | MinuteKind::Limbo)
    }
}
