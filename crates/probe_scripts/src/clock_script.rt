// Kind 5: a clock script.
ghost use Rattle.std.specs.Prelude.{◌≡◌};
ghost use Rattle.probe_scripts.specs.Clocks.{clock_operation};

use clock::Clock;
use probe_input::step;
use probe_input::step::Step;
use probe_text::stop::Stop;
use probe_text::text::Line;
use refusal::Refusal;

#[derive(Clone, Copy)]
enum Operation {
    New,
    Start,
    SetTime,
    SetIncrement,
    Stop,
    Allocated,
    Poll,
}

impl TryFrom<u8> for Operation {
    type Error = Stop;

    ghost try_from_gives = { λ byte told. told ≡ clock_operation byte };

    #[tactic(auto, unfolding(crate::specs::Clocks::clock_operation))]
    fn try_from(byte: u8) -> Result<Operation, Stop> {
        match byte {
            1 => Ok(Operation::New),
            2 => Ok(Operation::Start),
            3 => Ok(Operation::SetTime),
            4 => Ok(Operation::SetIncrement),
            5 => Ok(Operation::Stop),
            6 => Ok(Operation::Allocated),
            7 => Ok(Operation::Poll),
            _ => Err(Stop::BadStep),
        }
    }
}

// What an operation leaves: a value, and the clock.
#[derive(Clone, Copy)]
struct Tick {
    value: u64,
    clock: Clock,
}

fn went(clock: Clock) -> Tick {
    Tick { value: 0, clock }
}

fn one(clock: Clock, operation: Operation, s: Step) -> Result<Tick, Refusal> {
    match operation {
        Operation::New => Ok(went(Clock::new(s.h, s.a)?)),
        Operation::Start => Ok(went(clock.start(s.a, s.b)?)),
        Operation::SetTime => Ok(went(clock.set_time(s.a)?)),
        Operation::SetIncrement => Ok(went(clock.set_increment(s.h))),
        Operation::Stop => Ok(went(clock.stop())),
        Operation::Allocated => {
            let value = clock.allocated()?;
            Ok(Tick { value, clock })
        }
        Operation::Poll => {
            let clock = clock.poll(s.a, s.b)?;
            let value = u64::from(clock.finished);
            Ok(Tick { value, clock })
        }
    }
}

fn clock_line(refusal: u8, t: Tick) -> Line {
    let c = t.clock;
    let mut line = Line::new();
    line.field(b"clock ", refusal);
    line.field(b" value ", t.value);
    line.field(b" level ", c.level);
    line.field(b" remaining ", c.remaining);
    line.field(b" time ", c.time);
    line.field(b" increment ", c.increment);
    line.field(b" last ", c.last);
    line.field(b" start ", c.started);
    line.field(b" finished ", u8::from(c.finished));
    line
}

// One step; the clock after it, which a refusal leaves as it was.
fn step_on(rt: &impl Print, clock: Clock, s: Step) -> Result<Clock, Stop> {
    let operation = Operation::try_from(s.operation)?;
    let told = one(clock, operation, s);
    let t = told.unwrap_or(went(clock));
    clock_line(refusal::number_told(told.map(|_| ())), t).write(rt)?;
    Ok(t.clock)
}

// The clock that a script starts with: level 0 and time 0, never started.
pub fn run(rt: &impl Print, steps: &[u8]) -> Result<(), Stop> {
    let mut clock = Clock::default();
    for i in 0..steps.len() / 24 {
        clock = step_on(rt, clock, step::at(steps, i))?;
    }
    Ok(())
}
