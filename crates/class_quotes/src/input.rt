// The bytes of standard input: what no contract can say stands here alone.
ghost use Rattle.io.specs.Counts.{IsPrefixLen};

use std::io::Read;

// One read, put at the start of the buffer. Answers how many bytes it gave: none at the end of the input, and where it fails.
fn read_some(input: &mut impl Read, buffer: &mut [u8]) -> usize
    ensures { IsPrefixLen result buffer.new }
{
    input.read(buffer).unwrap_or(0)
}

// Reads until the buffer is full, the input ends or a read fails, and answers how many bytes it put at the start of the buffer.
// The loop stands here since std's own say nothing of the buffer after a failure.
pub(crate) fn read_full(input: &mut impl Read, buffer: &mut [u8]) -> usize
    ensures { IsPrefixLen result buffer.new }
{
    let mut done = 0;
    while done < buffer.len() {
        let n = read_some(input, &mut buffer[done..]);
        if n == 0 {
            return done;
        }
        done += n;
    }
    done
}
