// Kind 7: a history script.
ghost use Rattle.std.specs.Prelude.{◌≡◌};
ghost use Rattle.probe_scripts.specs.Histories.{history_operation};

use probe_input::step;
use probe_input::step::Step;
use probe_text::fnv;
use probe_text::stop::Stop;
use probe_text::text::Line;
use refusal::Refusal;

#[derive(Clone, Copy)]
enum Operation {
    Delta,
    Bonus,
    Malus,
}

impl TryFrom<u8> for Operation {
    type Error = Stop;

    ghost try_from_gives = { λ byte told. told ≡ history_operation byte };

    #[tactic(auto, unfolding(crate::specs::Histories::history_operation))]
    fn try_from(byte: u8) -> Result<Operation, Stop> {
        match byte {
            1 => Ok(Operation::Delta),
            2 => Ok(Operation::Bonus),
            3 => Ok(Operation::Malus),
            _ => Err(Stop::BadStep),
        }
    }
}

// The start of an answer's line: the refusal's number, and the number that was told, which is 0 where it was refused.
fn answer(name: &[u8], word: &[u8], told: Result<i16, Refusal>) -> Line {
    let mut line = Line::new();
    line.field(name, refusal::number_told(told.map(|_| ())));
    line.field(word, histories::score_told(told));
    line
}

// The answer of a bonus or a malus, with the history's sum.
fn change(
    rt: &impl Print,
    name: &[u8],
    history: &[i16],
    told: Result<i16, Refusal>,
) -> Result<(), Stop> {
    let mut line = answer(name, b" entry ", told);
    line.hex_field(b" history ", fnv::sum(history));
    line.write(rt)?;
    Ok(())
}

fn one(rt: &impl Print, history: &mut [i16], hh_max: i16, t: Step) -> Result<(), Stop> {
    match Operation::try_from(t.operation)? {
        Operation::Delta => {
            let told = histories::delta(hh_max, t.d);
            answer(b"delta ", b" ", told).write(rt)?;
            Ok(())
        }
        Operation::Bonus => {
            let told = histories::bonus(history, hh_max, t.h, t.m, t.d);
            change(rt, b"bonus ", history, told)
        }
        Operation::Malus => {
            let told = histories::malus(history, hh_max, t.h, t.m, t.d);
            change(rt, b"malus ", history, told)
        }
    }
}

pub fn run(rt: &impl Print, hh_max: i16, history: &mut [i16], steps: &[u8]) -> Result<(), Stop> {
    for i in 0..steps.len() / 24 {
        one(rt, history, hh_max, step::at(steps, i))?;
    }
    Ok(())
}
