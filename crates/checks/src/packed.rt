// An ending as one number, for the one call that the compiler leaves of the evaluation. Everywhere else an ending is an `Ending`.
// Kept: a number there, and no enum, which is handed back through memory: tried, and rust/'s bench takes 0 to 4 % longer with the enum.
ghost use Rattle.std.specs.Prelude.{◌≡◌};
ghost use Rattle.checks.specs.Packed.{packed, cause_of, unpacked};

use reading::parser_state::{Cause, Ending};

// The number of an ending, which stands for it.
pub fn packed(e: Ending) -> usize
    ensures number { result ≡ packed e }
    ensures back { unpacked result ≡ e }
{
    match e {
        Ending::Err => 0,
        Ending::Ok => 1,
        Ending::Stop(c) => match c {
            Cause::EmptyStack(line) => line as usize * 4 + 2,
            Cause::TokensFull(line) => line as usize * 4 + 3,
            Cause::StackFull(line) => line as usize * 4 + 4,
            Cause::AttemptsFull(line) => line as usize * 4 + 5,
        },
    }
}

// The cause of a number from 0 to 3, with the line that it names.
fn cause_of(number: usize, line: u32) -> Cause
    ensures { result ≡ cause_of number line }
{
    match number {
        0 => Cause::EmptyStack(line),
        1 => Cause::TokensFull(line),
        2 => Cause::StackFull(line),
        _ => Cause::AttemptsFull(line),
    }
}

// The ending of a number: any number has one, so that no caller has to know which numbers come.
#[tactic(auto, unfolding(crate::specs::Packed::unpacked))]
pub fn unpacked(n: usize) -> Ending
    ensures { result ≡ unpacked n }
{
    match n {
        0 => Ending::Err,
        1 => Ending::Ok,
        _ => {
            let stop = n - 2;
            let line = stop / 4 % 4294967296;
            Ending::Stop(cause_of(stop % 4, line as u32))
        }
    }
}
