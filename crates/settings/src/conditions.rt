// The five conditions of a choice that is in range, in exact integers.
ghost use Rattle.std.specs.Prelude.{◌≡◌, ◌≤◌, ◌+◌, ◌*◌, ◌^◌, Ok, nat_le};
ghost use Rattle.settings.specs.declared.fault.SettingsFault.TheVariants.{Range};
ghost use Rattle.settings.specs.Ranges.{in_range, InRange};
ghost use Rattle.settings.specs.Conditions.{P², P³, M², M³, met, survivors, joiners, join_bound, quorum, quorums};
ghost use Rattle.settings.specs.Faults.{outcome};
ghost use Rattle.settings.specs.Admission.{unless, admission, conditions_met};

use super::choice::Choice;
use super::fault::SettingsFault;
use super::ranges::in_range;

// The choice is admitted, or the first fault that applies.
pub(crate) fn judge(choice: Choice) -> Result<(), SettingsFault>
    ensures { outcome result (λ _. choice) ≡ admission choice }
{
    Ranged::new(choice)?.first_broken()
}

// A choice that is in range, and the second and third powers of its churn, up (p) and down (m).
#[derive(Drop)]
struct Ranged {
    choice: Choice,
    p2: u64,
    p3: u64,
    m2: u64,
    m3: u64,
    ghost in_range: { InRange choice },
    ghost up: { (p2 ≡ P² choice) × (p3 ≡ P³ choice) },
    ghost down: { (m2 ≡ M² choice) × (m3 ≡ M³ choice) },
    ghost small: { (p2 ≤ 115 ^ 2) × (p3 ≤ 115 ^ 3) × (m2 ≤ 100 ^ 2) × (m3 ≤ 100 ^ 3) },
}

impl Ranged {
    fn new(choice: Choice) -> Result<Ranged, SettingsFault>
        ensures { outcome result (λ r. r.choice) ≡ unless (in_range choice) Range (Ok choice) }
    {
        if !in_range(choice) {
            return Err(SettingsFault::Range);
        }
        let p = 100 + choice.alpha as u64;
        let m = 100 - choice.alpha as u64;
        Ok(Ranged {
            choice,
            p2: p * p,
            p3: p * p * p,
            m2: m * m,
            m3: m * m * m,
        })
    }

    // The conditions are met, or the fault of the first that is broken.
    fn first_broken(&self) -> Result<(), SettingsFault>
        ensures { outcome result (λ _. self.now.choice) ≡ conditions_met self.now.choice }
    {
        if !self.survivors_enough() {
            return Err(SettingsFault::SurvivorsTooFew);
        }
        if !self.joiners_heard() {
            return Err(SettingsFault::JoinersUnheard);
        }
        if !self.join_bound_answerable() {
            return Err(SettingsFault::JoinBoundTooHigh);
        }
        if !self.quorum_answerable() {
            return Err(SettingsFault::QuorumTooHigh);
        }
        if !self.quorums_meet() {
            return Err(SettingsFault::QuorumsApart);
        }
        Ok(())
    }

    // Of the stations that stay present through churn, one at least is not crashed.
    fn survivors_enough(&self) -> bool
        ensures { result ≡ met (survivors self.now.choice) }
    {
        self.one_remains(self.choice.delta, 100)
    }

    // A station that joins hears one that has joined.
    fn joiners_heard(&self) -> bool
        ensures { result ≡ met (joiners self.now.choice) }
    {
        self.one_remains(100 + self.choice.delta, 100 + self.choice.gamma)
    }

    // Through churn, so many hundredths that are kept are at least one station more than so many that are lost.
    fn one_remains(&self, lost: u16, kept: u16) -> bool
        ensures { result ≡ nat_le (10 ^ 8 + self.now.choice.nmin * (lost * P³ self.now.choice)) (self.now.choice.nmin * (kept * M³ self.now.choice)) }
    {
        let nmin = self.choice.nmin as u64;
        let lost = nmin * (lost as u64 * self.p3);
        let kept = nmin * (kept as u64 * self.m3);
        100_000_000 + lost <= kept
    }

    // A station that joins gets as many echoes as it waits for.
    fn join_bound_answerable(&self) -> bool
        ensures { result ≡ met (join_bound self.now.choice) }
    {
        (self.choice.gamma as u64 + self.choice.delta as u64) * self.p3 <= 100 * self.m3
    }

    // A phase gets as many answers as it waits for.
    fn quorum_answerable(&self) -> bool
        ensures { result ≡ met (quorum self.now.choice) }
    {
        let answers = 100 * self.choice.beta as u64 * self.p2;
        answers + self.choice.delta as u64 * self.p3 <= 100 * self.m3
    }

    // Two quorums have a station in common.
    fn quorums_meet(&self) -> bool
        ensures { result ≡ met (quorums self.now.choice) }
    {
        let beta = self.choice.beta as u64;
        let p4 = self.p2 * self.p2;
        let p6 = self.p3 * self.p3;
        let m6 = self.m3 * self.m3;
        let apart = 100 * p6 * self.m2;
        let crashed = beta * self.choice.delta as u64 * (1_000_000 * p4 + 100 * p4 * self.m2);
        let common = beta * (10_000 * m6 + m6 * self.p2);
        apart + crashed < common
    }
}
