// One functional number's record, by value, and what happens to it.
#![tactic(auto)]

ghost use Rattle.std.specs.Prelude.{◌≡◌, ◌≤◌};
ghost use Rattle.records.specs.Holder.{said_holder};
ghost use Rattle.records.specs.Resulted.{said_resulted};
ghost use Rattle.records.specs.Sending.{said_sending};
ghost use Rattle.records.specs.Step.{said_step};
ghost use Rattle.records.specs.Steps.{most_sendings, sendings_done, registered, erased, forced, interrogated, sent, resulted, held_by, forced_off, cleared, with_notice, closing, elapsed as elapsedOf, delay_of, delay_allowed, is_due};

use answers::{Outcome, Refusal};
use numbers::{FunctionalNumber, Msisdn};

// "a notice is absent, waiting or in flight": with the sendings done, and the second of the last failure.
// Kept: three cases of one enum, a form that the project was given (docs/DECISIONS.md, "Forms").
#[derive(Clone, Copy, Debug, PartialEq, Eq)]
pub enum Notice {
    Absent,
    Waiting(u8, u32),
    InFlight(u8),
}

// The record of one functional number; holder, addressee and supervisor 0 are nobody. M-110: a closed number is not registered any more.
#[derive(Clone, Copy, Debug, PartialEq, Eq)]
pub struct Record {
    pub holder: Msisdn,
    pub notice: Notice,
    pub addressee: Msisdn,
    pub supervisor: Msisdn,
    pub closed: bool,
}

// What became of a notice: it was delivered, it was dropped, or it waits again.
#[derive(Clone, Copy, Debug, PartialEq, Eq)]
pub enum Fate {
    Delivered,
    Dropped,
    Again,
}

// "The delay is 60 to 600 seconds".
const SHORTEST_DELAY: u32 = 60;

const LONGEST_DELAY: u32 = 600;

// M-107: "Delay 0 now means 300 seconds".
const USUAL_DELAY: u32 = 300;

// M-102: "one sending and five repeats".
pub const MOST_SENDINGS: u8 = 6;

// "5 any other error".
// Kept: a number and no enum, since every number is taken as a kind (refusal 3), and C gives it.
const LAST_KIND: u32 = 5;

// Seconds from the last failure to the clock's reading, on a counter that wraps.
pub fn elapsed(clock: u32, last: u32) -> u32
    ensures { result ≡ elapsedOf clock last }
{
    std::num::wrapping_sub_u32(clock, last)
}

pub fn delay_of(delay: u32) -> u32
    ensures { result ≡ delay_of delay }
{
    if delay == 0 { USUAL_DELAY } else { delay }
}

pub fn delay_allowed(delay: u32) -> bool
    ensures { result ≡ delay_allowed delay }
{
    let seconds = delay_of(delay);
    (SHORTEST_DELAY <= seconds) & (seconds <= LONGEST_DELAY)
}

// Whether a notice is to be sent now: the first time at once, again after the delay.
pub fn is_due(delay: u32, clock: u32, notice: Notice) -> bool
    ensures { result ≡ is_due delay clock notice }
{
    match notice {
        Notice::Absent => false,
        Notice::Waiting(sendings, second) => {
            let seconds = delay_of(delay);
            let passed = elapsed(clock, second);
            (sendings == 0) | (seconds <= passed)
        }
        Notice::InFlight(_) => false,
    }
}

impl Record {
    // The record, held by another or by nobody.
    fn held_by(self, holder: Msisdn) -> Record
        ensures { result ≡ held_by holder self }
    {
        Record { holder, ..self }
    }

    // The holder forced off, with a notice to her.
    fn forced_off(self, supervisor: Msisdn) -> Record
        ensures { result ≡ forced_off supervisor self }
    {
        Record {
            holder: Msisdn(0),
            notice: Notice::Waiting(0, 0),
            addressee: self.holder,
            supervisor,
            ..self
        }
    }

    // The same holder, and no notice.
    fn cleared(self) -> Record
        ensures { result ≡ cleared self }
    {
        Record {
            notice: Notice::Absent,
            addressee: Msisdn(0),
            supervisor: Msisdn(0),
            ..self
        }
    }

    // Another notice to the same addressee, from the same supervisor.
    fn with_notice(self, notice: Notice) -> Record
        ensures { result ≡ with_notice notice self }
    {
        Record { notice, ..self }
    }

    // What a registration makes of a record: the outcome, where it stays as it is, or the next record.
    pub fn register(self, number: FunctionalNumber, requester: Msisdn) -> Result<Record, Outcome>
        ensures { said_step result ≡ registered number requester self }
    {
        let holder_word = self.holder.0;
        let number_word = number.0;
        let requester_word = requester.0;
        if number_word == requester_word {
            return Err(Outcome::OwnNumber);
        }
        if self.closed {
            return Err(Outcome::ClosedNumber);
        }
        if (holder_word != 0) & (holder_word != requester_word) {
            return Err(Outcome::HeldByAnother);
        }
        Ok(self.held_by(requester))
    }

    // A plain erasure, by the holder or by the number's own subscriber.
    pub fn erase(self, number: FunctionalNumber, requester: Msisdn) -> Result<Record, Outcome>
        ensures { said_step result ≡ erased number requester self }
    {
        let holder_word = self.holder.0;
        let number_word = number.0;
        let requester_word = requester.0;
        if holder_word == 0 {
            return Err(Outcome::NoHolder);
        }
        if !((holder_word == requester_word) | (number_word == requester_word)) {
            return Err(Outcome::NotTheHolder);
        }
        Ok(self.held_by(Msisdn(0)))
    }

    // A supervisor (M-111: at the terminal, nobody) forces off the holder whom she names; there is no notice to herself.
    pub fn force(self, supervisor: Msisdn, named: Msisdn) -> Result<Record, Outcome>
        ensures { said_step result ≡ forced supervisor named self }
    {
        let holder_word = self.holder.0;
        let supervisor_word = supervisor.0;
        let named_word = named.0;
        if holder_word == 0 {
            return Err(Outcome::NoHolder);
        }
        if holder_word != named_word {
            return Err(Outcome::NotTheHolder);
        }
        if holder_word == supervisor_word {
            return Ok(self.held_by(Msisdn(0)));
        }
        let notice = self.notice;
        let Notice::Absent = notice else {
            return Err(Outcome::NoticePending);
        };
        Ok(self.forced_off(supervisor))
    }

    pub fn interrogate(self) -> Result<Msisdn, Outcome>
        ensures { said_holder result ≡ interrogated self }
    {
        let holder_word = self.holder.0;
        if holder_word == 0 {
            return Err(Outcome::NoHolder);
        }
        Ok(self.holder)
    }

    // The record with its notice in flight.
    pub fn send(self, delay: u32, clock: u32) -> Result<Record, Refusal>
        requires { sendings_done self.notice ≤ most_sendings }
        ensures { said_sending result ≡ sent delay clock self }
    {
        if !delay_allowed(delay) {
            return Err(Refusal::WrongDelay);
        }
        let notice = self.notice;
        let Notice::Waiting(sendings, _) = notice else {
            return Err(Refusal::NotInPhase);
        };
        if !is_due(delay, clock, notice) {
            return Err(Refusal::NotDue);
        }
        Ok(self.with_notice(Notice::InFlight(sendings + 1)))
    }

    // What a result returns, with the next record.
    pub fn result(self, kind: u32, clock: u32) -> Result<(Fate, Record), Refusal>
        ensures { said_resulted result ≡ resulted kind clock self }
    {
        if LAST_KIND < kind {
            return Err(Refusal::UnknownKind);
        }
        let notice = self.notice;
        let Notice::InFlight(sendings) = notice else {
            return Err(Refusal::NotInPhase);
        };
        let ended = self.cleared();
        if kind == 0 {
            return Ok((Fate::Delivered, ended));
        }
        if kind < LAST_KIND {
            return Ok((Fate::Dropped, ended));
        }
        if MOST_SENDINGS <= sendings {
            return Ok((Fate::Dropped, ended));
        }
        Ok((
            Fate::Again,
            self.with_notice(Notice::Waiting(sendings, clock)),
        ))
    }

    // The number is closed; holder and notice stay.
    pub fn close(self) -> Record
        ensures { result ≡ closing self }
    {
        Record {
            closed: true,
            ..self
        }
    }
}
