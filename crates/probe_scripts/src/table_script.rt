// Kind 6: a table script.
ghost use Rattle.std.specs.Prelude.{◌≡◌};
ghost use Rattle.probe_scripts.specs.Tables.{table_operation};

use percentages::rates;
use percentages::rates::Rate;
use probe_input::step;
use probe_input::step::Step;
use probe_text::stop::Stop;
use probe_text::text::Line;
use probe_text::{float, fnv};
use refusal::Refusal;
use table::{Found, Stats};
use transposition::{Bound, Entry};

#[derive(Clone, Copy)]
enum Operation {
    Lookup,
    Store,
    Reset,
    Clear,
    Occupancy,
    HitRate,
    MissRate,
    CollisionRate,
}

impl TryFrom<u8> for Operation {
    type Error = Stop;

    ghost try_from_gives = { λ byte told. told ≡ table_operation byte };

    #[tactic(auto, unfolding(crate::specs::Tables::table_operation))]
    fn try_from(byte: u8) -> Result<Operation, Stop> {
        match byte {
            1 => Ok(Operation::Lookup),
            2 => Ok(Operation::Store),
            3 => Ok(Operation::Reset),
            4 => Ok(Operation::Clear),
            5 => Ok(Operation::Occupancy),
            6 => Ok(Operation::HitRate),
            7 => Ok(Operation::MissRate),
            8 => Ok(Operation::CollisionRate),
            _ => Err(Stop::BadStep),
        }
    }
}

// The end of a line: age, counters and the table's sum.
fn finish(rt: &impl Print, mut line: Line, words: &[u64], stats: Stats) -> Result<(), Stop> {
    line.stats(stats);
    line.hex_field(b" table ", fnv::sum(words));
    line.write(rt)?;
    Ok(())
}

fn entry_fields(line: &mut Line, e: Entry) {
    line.field(b" depth ", e.depth);
    line.field(b" score ", e.score);
    line.field(b" move ", e.mv);
    line.field(b" bound ", u8::from(e.bound));
    line.field(b" entry-age ", e.age);
}

fn no_entry(line: &mut Line, found: &[u8]) {
    line.bytes(found);
    line.bytes(b" depth 0 score 0 move 0 bound 0 entry-age 0");
}

fn found_fields(line: &mut Line, told: Result<Found, Refusal>) {
    match told {
        Err(_) => no_entry(line, b"none"),
        Ok(Found::Miss) => no_entry(line, b"miss"),
        Ok(Found::Collision) => no_entry(line, b"collision"),
        Ok(Found::Hit(e)) => {
            line.bytes(b"hit");
            entry_fields(line, e);
        }
    }
}

fn lookup(rt: &impl Print, words: &[u64], stats: &mut Stats, t: Step) -> Result<(), Stop> {
    let told = tables::lookup(words, stats, t.a);
    let mut line = Line::new();
    line.field(b"lookup ", refusal::number_told(told.map(|_| ())));
    line.bytes(b" found ");
    found_fields(&mut line, told);
    finish(rt, line, words, *stats)
}

// The answer of a store, a reset or a clear.
fn stats_line(
    rt: &impl Print,
    name: &[u8],
    words: &[u64],
    stats: Stats,
    told: Result<(), Refusal>,
) -> Result<(), Stop> {
    let mut line = Line::new();
    line.field(name, refusal::number_told(told));
    finish(rt, line, words, stats)
}

// A bound that is none of the three is a bad step.
fn bound_of(number: u16) -> Result<Bound, Stop> {
    match number {
        0 => Ok(Bound::Exact),
        1 => Ok(Bound::Lower),
        2 => Ok(Bound::Upper),
        _ => Err(Stop::BadStep),
    }
}

fn store(rt: &impl Print, words: &mut [u64], stats: &mut Stats, t: Step) -> Result<(), Stop> {
    let bound = bound_of(t.h)?;
    let told = tables::store(words, stats, t.a, t.d, t.s, t.m, bound);
    stats_line(rt, b"store ", words, *stats, told)
}

// Nothing where it was refused: shares of 0.
fn occupancy(rt: &impl Print, words: &[u64]) -> Result<(), Stop> {
    let told = tables::occupancy(words);
    let o = tables::percentages_told(told);
    let mut line = Line::new();
    line.field(b"occupancy ", refusal::number_told(told.map(|_| ())));
    float::field(&mut line, b" exact ", o.exact);
    float::field(&mut line, b" lower ", o.lower);
    float::field(&mut line, b" upper ", o.upper);
    line.write(rt)?;
    Ok(())
}

fn rate(rt: &impl Print, r: Rate) -> Result<(), Stop> {
    let mut line = Line::new();
    match r {
        Rate::Share(x) => float::field(&mut line, b"rate 0 ", x),
        Rate::NoLookups => line.bytes(b"rate 0 none"),
        Rate::Refused => line.bytes(b"rate 11 0 e 0"),
    }
    line.write(rt)?;
    Ok(())
}

fn one(rt: &impl Print, words: &mut [u64], stats: &mut Stats, t: Step) -> Result<(), Stop> {
    match Operation::try_from(t.operation)? {
        Operation::Lookup => lookup(rt, words, stats, t),
        Operation::Store => store(rt, words, stats, t),
        Operation::Reset => {
            let told = tables::reset(words, stats);
            stats_line(rt, b"reset ", words, *stats, told)
        }
        Operation::Clear => {
            let told = tables::clear(words, stats);
            stats_line(rt, b"clear ", words, *stats, told)
        }
        Operation::Occupancy => occupancy(rt, words),
        Operation::HitRate => rate(rt, rates::hit_rate(*stats)),
        Operation::MissRate => rate(rt, rates::miss_rate(*stats)),
        Operation::CollisionRate => rate(rt, rates::collision_rate(*stats)),
    }
}

pub fn run(rt: &impl Print, mut stats: Stats, words: &mut [u64], steps: &[u8]) -> Result<(), Stop> {
    for i in 0..steps.len() / 24 {
        one(rt, words, &mut stats, step::at(steps, i))?;
    }
    Ok(())
}
