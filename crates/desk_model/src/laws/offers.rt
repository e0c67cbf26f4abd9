//! What each legal history holds of open offers.
ghost use Rattle.std.specs.Prelude.{◌≡◌, ◌≤◌, ◌<◌, ℕ, None, Some, true};
ghost use Rattle.desk_model.specs.declared.offer.Offer.{Offer};
ghost use Rattle.desk_model.specs.declared.reply.Reply.TheVariants as reply;
ghost use Rattle.desk_model.specs.statements.Job.{JobValue};
ghost use Rattle.desk_model.specs.histories.History.{History};
ghost use Rattle.desk_model.specs.histories.Register.{vacancy_of};
ghost use Rattle.desk_model.specs.offers.Offers.{open_offer, is_to, deadline};
ghost use Rattle.desk_model.specs.answers.SettleAnswer.{accept_answer, decline_answer, no_answer};
ghost use Rattle.desk_model.specs.laws.RestsOn.{MaySettle};
ghost use Rattle.desk_model.specs.histories.Legal.{IsLegal};

/// In a legal history the vacancy of an open offer was made and whom it names is enrolled, so the offer may be settled: declining
/// or withdrawing it is done; accepting it is done up to the report, and lapsed after that; and that it was not answered is done
/// from its deadline on, and too early before that. It does nothing: its clauses are the laws.
pub fn an_open_offer_may_be_settled()
    ensures may { (h : History) → IsLegal h → (v p : ℕ) → is_to p (open_offer h v) ≡ true → MaySettle h v p }
    ensures decline { (h : History) → IsLegal h → (v p : ℕ) → is_to p (open_offer h v) ≡ true
        → decline_answer h v p ≡ reply.Done }
    ensures accept { (h : History) → IsLegal h → (m v : ℕ) (job : JobValue) (offer : Offer)
        → vacancy_of h v ≡ Some job → open_offer h v ≡ Some offer → m ≤ job.report
        → accept_answer h m v offer.person ≡ reply.Done }
    ensures lapsed { (h : History) → IsLegal h → (m v : ℕ) (job : JobValue) (offer : Offer)
        → vacancy_of h v ≡ Some job → open_offer h v ≡ Some offer → job.report < m
        → accept_answer h m v offer.person ≡ reply.Lapsed job.report }
    ensures no_answer { (h : History) → IsLegal h → (m v : ℕ) (offer : Offer) → open_offer h v ≡ Some offer
        → deadline h.opening offer ≤ m → no_answer h m v offer.person ≡ reply.Done }
    ensures early { (h : History) → IsLegal h → (m v : ℕ) (offer : Offer) → open_offer h v ≡ Some offer
        → m < deadline h.opening offer
        → no_answer h m v offer.person ≡ reply.EarlyNoAnswer (deadline h.opening offer) }
{}

/// In a legal history a vacancy that was never made has no open offer. It does nothing: its clause is the law.
pub fn what_was_never_made_is_not_on_offer()
    ensures { (h : History) → IsLegal h → (v : ℕ) → vacancy_of h v ≡ None → open_offer h v ≡ None }
{}
