// A script's step of 24 bytes.
ghost use Rattle.std.specs.Prelude.{◌≡◌, ◌+◌, ◌*◌, ◌≤◌, length};
ghost use Rattle.probe_input.specs.Step.{step_at};

use record::bytes;

#[derive(Clone, Copy)]
pub struct Step {
    pub operation: u8,
    pub d: i8,
    pub h: u16,
    pub s: i16,
    pub m: u16,
    pub a: u64,
    pub b: u64,
}

// The i-th step of a script.
#[tactic(auto, unfolding(crate::specs::Step::step_at))]
pub fn at(steps: &[u8], i: usize) -> Step
    requires { 24 * i + 24 ≤ length steps.now }
    ensures { result ≡ step_at steps.now i }
{
    let k = 24 * i;
    Step {
        operation: steps[k],
        d: steps[k + 1].cast_signed(),
        h: bytes::le::<2>(steps, k + 2) as u16,
        s: (bytes::le::<2>(steps, k + 4) as u16).cast_signed(),
        m: bytes::le::<2>(steps, k + 6) as u16,
        a: bytes::le::<8>(steps, k + 8),
        b: bytes::le::<8>(steps, k + 16),
    }
}
