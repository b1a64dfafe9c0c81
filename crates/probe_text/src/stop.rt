// Why a run ends.
use std::io;

#[derive(Debug, Drop)]
pub enum Stop {
    // The input ended behind a whole request.
    Ended,
    BadRequest,
    BadStep,
    ReadFailed(io::Error),
    // A line can't be written.
    Unwritten,
}

// Only writing answers with an error of its own; a failed read is told apart.
impl From<io::Error> for Stop {
    ghost use Rattle.std.specs.Prelude.{◌≡◌};
    ghost use Rattle.probe_text.specs.declared.stop.Stop.TheVariants.{Unwritten};

    ghost from_gives = { λ _ stop. stop ≡ Unwritten };

    fn from(_: io::Error) -> Stop {
        Stop::Unwritten
    }
}

impl Stop {
    // The line that ends the run; of a failed read, why it failed goes to standard error.
    pub fn tell(self, rt: &(impl Print + Eprint)) -> io::Result<()> {
        match self {
            Stop::Ended => Ok(()),
            Stop::BadRequest => rt.write_all(b"bad request\n"),
            Stop::BadStep => rt.write_all(b"bad step\n"),
            Stop::ReadFailed(e) => {
                let _ = eprintln!(rt; "standard input: {e}");
                rt.write_all(b"read failed\n")
            }
            Stop::Unwritten => Ok(()),
        }
    }
}
