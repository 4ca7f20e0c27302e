//! Laws about lists of events: each is the contract of a function that does nothing.

ghost use Rattle.std.specs.Prelude.{ℕ, ◌+◌, ◌≤◌, List};
ghost use Rattle.campaign_desk.specs.declared.knowledge.Knowledge.{Knowledge};
ghost use Rattle.campaign_desk.specs.Facts.{IsDesk};
ghost use Rattle.campaign_desk.specs.Events.{Event};
ghost use Rattle.campaign_desk.specs.Reached.{LeadToDesk};

/// Proves that each list of events leads to words and lists that are consistent with each other.
pub fn events_lead_to_a_desk()
    ensures desk { (jobs workers : ℕ) (events : List Event) → LeadToDesk jobs workers events }
{}

/// Proves that the next number is at most the number of jobs plus the number of seats.
#[tactic(auto, using(crate::proofs::FactLaws::next_most))]
pub fn the_next_number_has_a_limit()
    ensures next { (jobs workers next bound : ℕ) (seats : List Knowledge)
        → IsDesk jobs workers next bound seats → next ≤ jobs + workers }
{}
