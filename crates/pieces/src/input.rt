// What a program is given: the bytes of its input, and its arguments.
ghost use Rattle.std.specs.Prelude.{◌≤◌, length, take};
ghost use Rattle.std.specs.Io.KnownBytes.{Consumes};

use std::env::Env;
use std::io::Read;

// One read: how many bytes it put at the front of the list, none where the input ends or the read fails.
fn read_some<R: Read>(input: &mut R, bytes: &mut [u8]) -> usize
    ensures within { result ≤ length bytes.new }
    ensures read { Consumes (R.remaining input.old) (R.remaining input.new) (take result bytes.new) }
{
    input.read(bytes).unwrap_or(0)
}

// Reads until the list is full, the input ends or a read fails, and gives how many bytes it put at the front of the
// list. Where the list is full nothing more is asked for.
pub fn read_full<R: Read>(input: &mut R, bytes: &mut [u8]) -> usize
    ensures within { result ≤ length bytes.new }
    ensures read { Consumes (R.remaining input.old) (R.remaining input.new) (take result bytes.new) }
{
    let mut done: usize = 0;
    // no `for`: how far a turn comes is what its read says
    while done < bytes.len() {
        let count = read_some(input, &mut bytes[done..]);
        if count == 0 {
            return done;
        }
        done += count;
    }
    done
}

// An argument goes to the front of the list; the number says how long it is, 0 where it is missing or longer than the
// list: whoever asks takes an empty argument as none. The program's own name is argument 0.
pub fn argument(rt: &impl Env, place: usize, bytes: &mut [u8]) -> usize
    ensures { result ≤ length bytes.new }
{
    rt.arg(place, bytes).unwrap_or(0)
}
