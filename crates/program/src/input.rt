// Reads of standard input.
ghost use Rattle.std.specs.Prelude.{◌≡◌, ◌-◌, ◌≤◌, ◌<◌, length, take, drop, IfOk};
ghost use Rattle.std.specs.Io.KnownBytes.{ReadConsumes};

use std::io;
use std::io::Read;

// One read behind the bytes that are held, which stay: how many bytes it brings, 0 at the end of the input. Without room behind them it is as at the
// end. A slice and a count, as duckline has them: it takes no heap while it runs.
pub fn read<R: Read>(from: &mut R, buffer: &mut [u8], held: usize) -> io::Result<usize>
    ensures count { IfOk result (λ n. n ≤ length buffer.old - held) }
    ensures kept { take held buffer.new ≡ take held buffer.old }
    ensures brought { held < length buffer.old → ReadConsumes (R.remaining from.old) (R.remaining from.new) result (drop held buffer.new) }
{
    if buffer.len() <= held {
        return Ok(0);
    }
    from.read(&mut buffer[held..])
}
