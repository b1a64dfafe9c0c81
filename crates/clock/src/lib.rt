// The clock of 004, which goes in by value and comes back. An operation gives the new clock, or the refusal of 01's row 10.
#![tactic(auto)]

ghost use Rattle.std.specs.Prelude.{◌≡◌, false, ◌<◌, ◌≤◌};
ghost use Rattle.clock.specs.Answers.{told, told_poll, told_time};
ghost use Rattle.clock.specs.Refusals.{ply_out, time_over, now_out, allocation_refused, poll_refused};
ghost use Rattle.clock.specs.Ticks.{new_clock, new_of, remaining_of, start_of, set_time_of, set_increment_of, stop_of, allocation, allocated_of, time_up, poll_of};

use refusal::Refusal;

// 2^32 - 1: the longest time, and the longest that a clock runs, in milliseconds.
const LONGEST: u64 = 4294967295;

#[derive(Clone, Copy, Debug, Default, PartialEq, Eq)]
pub struct Clock {
    // Moves from one time control to the next, 0 where there is none.
    pub level: u16,
    // Moves to the next time control.
    pub remaining: u16,
    // Milliseconds left, and those that each move adds.
    pub time: u64,
    pub increment: u16,
    // The node count of the last look at the time.
    pub last: u64,
    pub started: u64,
    // Whether the search is to stop.
    pub finished: bool,
}

fn ply_out(ply: u64) -> bool
    ensures { result ≡ ply_out ply }
{
    !(1..=65535).contains(&ply)
}

fn time_over(time: u64) -> bool
    ensures { result ≡ time_over time }
{
    time > LONGEST
}

// Moves to the next time control at a ply. Plies count from 1, two to a move.
fn moves_remaining(level: u16, ply: u16) -> u16
    requires { 1 ≤ ply }
    ensures { result ≡ remaining_of level ply }
{
    if level == 0 {
        return 20;
    }
    let played = (ply - 1) / 2;
    level - played % level
}

impl Clock {
    fn now_out(self, now: u64) -> bool
        ensures { result ≡ now_out self now }
    {
        now < self.started || now - self.started > LONGEST
    }

    fn allocation_refused(self) -> bool
        ensures { result ≡ allocation_refused self }
    {
        time_over(self.time) || self.remaining == 0
    }

    fn poll_refused(self, nodes: u64, now: u64) -> bool
        ensures { result ≡ poll_refused self nodes now }
    {
        time_over(self.time) || nodes < self.last || self.now_out(now) || self.remaining == 0
    }

    // The time left shared among the moves that remain, each with its increment.
    fn allocation(self) -> u64
        requires { allocation_refused self ≡ false }
        ensures { result ≡ allocation self }
    {
        let moves = u64::from(self.remaining);
        let time = self.time + moves * u64::from(self.increment);
        time / moves
    }

    // 50 ms are kept back: 25 that go by between two looks, and 25 to play the move.
    fn time_up(self, now: u64) -> bool
        requires { (allocation_refused self ≡ false) × (now_out self now ≡ false) }
        ensures { result ≡ time_up self now }
    {
        50 + (now - self.started) > self.allocation()
    }

    // A clock that was never started: all moves of its level remain.
    #[tactic(auto, unfolding(crate::specs::Ticks::new_of))]
    pub fn new(level: u16, time: u64) -> Result<Clock, Refusal>
        ensures { told (new_clock 0 0) result ≡ new_of level time }
    {
        if time_over(time) {
            return Err(Refusal::Clock);
        }
        Ok(Clock {
            level,
            remaining: level,
            time,
            ..Clock::default()
        })
    }

    // Begins a move. What an earlier move counted or stopped is forgotten.
    #[tactic(auto, unfolding(crate::specs::Ticks::start_of))]
    pub fn start(mut self, ply: u64, now: u64) -> Result<Clock, Refusal>
        ensures { told self result ≡ start_of self ply now }
    {
        if ply_out(ply) {
            return Err(Refusal::Clock);
        }
        self.remaining = moves_remaining(self.level, ply as u16);
        self.last = 0;
        self.started = now;
        self.finished = false;
        Ok(self)
    }

    #[tactic(auto, unfolding(crate::specs::Ticks::set_time_of))]
    pub fn set_time(mut self, time: u64) -> Result<Clock, Refusal>
        ensures { told self result ≡ set_time_of self time }
    {
        if time_over(time) {
            return Err(Refusal::Clock);
        }
        self.time = time;
        Ok(self)
    }

    pub fn set_increment(mut self, increment: u16) -> Clock
        ensures { result ≡ set_increment_of self increment }
    {
        self.increment = increment;
        self
    }

    // Stays until the next start, whatever the polls find.
    pub fn stop(mut self) -> Clock
        ensures { result ≡ stop_of self }
    {
        self.finished = true;
        self
    }

    #[tactic(auto, unfolding(crate::specs::Ticks::allocated_of))]
    pub fn allocated(self) -> Result<u64, Refusal>
        ensures { told_time self result ≡ allocated_of self }
    {
        if self.allocation_refused() {
            return Err(Refusal::Clock);
        }
        Ok(self.allocation())
    }

    // The answer is the new clock's `finished`. The time is looked at only now and then, since a look costs more than a node.
    #[tactic(auto, unfolding(crate::specs::Ticks::poll_of))]
    pub fn poll(mut self, nodes: u64, now: u64) -> Result<Clock, Refusal>
        ensures { told_poll self result ≡ poll_of self nodes now }
    {
        if self.poll_refused(nodes, now) {
            return Err(Refusal::Clock);
        }
        if nodes - self.last > 100 {
            self.last = nodes;
            if self.time_up(now) {
                return Ok(self.stop());
            }
        }
        Ok(self)
    }
}
