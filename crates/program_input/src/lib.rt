// What a program is given, read into a buffer of its own.
#![tactic(auto)]

ghost use Rattle.std.specs.Prelude.{◌≤◌, length, take};
ghost use Rattle.std.specs.Io.KnownBytes.{Consumes};

use std::io::Read;

// Reads until the buffer is full or the input ends, and answers how many bytes now stand at its front. A read that fails counts as the end
// of the input; `read_exact` does not say what was read before a failure.
// A count, and not the part that was filled: tried, and what a part holds that is handed out is said by an `ensures*`, which is proved only of one field or of
// a call's result.
pub fn read_full<R: Read>(from: &mut R, buffer: &mut [u8]) -> usize
    ensures in_bounds { result ≤ length buffer.new }
    ensures bytes { Consumes (R.remaining from.old) (R.remaining from.new) (take result buffer.new) }
{
    let mut done = 0;
    while done < buffer.len() {
        match from.read(&mut buffer[done..]) {
            Ok(0) | Err(_) => break,
            Ok(n) => done += n,
        }
    }
    done
}

#[cfg(test)]
mod tests {
    use super::*;
    use std::io;
    use std::io::ErrorKind;

    // Gives so many bytes, one a read, and then fails.
    #[derive(Drop)]
    struct Dripping {
        left: u8,
    }

    impl Read for Dripping {
        fn read(&mut self, buf: &mut [u8]) -> io::Result<usize> {
            if self.left == 0 {
                return Err(io::Error::from(ErrorKind::Other));
            }
            if buf.is_empty() {
                return Ok(0);
            }
            buf[0] = self.left;
            self.left -= 1;
            Ok(1)
        }
    }

    #[test]
    fn fills_a_byte_at_a_time(rt: HostRuntime) {
        let mut buffer = [0; 4];
        assert_eq!(rt; read_full(&mut Dripping { left: 9 }, &mut buffer), 4);
        assert_eq!(rt; buffer, [9, 8, 7, 6]);
    }

    #[test]
    fn a_failed_read_is_the_end(rt: HostRuntime) {
        let mut buffer = [0; 4];
        assert_eq!(rt; read_full(&mut Dripping { left: 3 }, &mut buffer), 3);
        assert_eq!(rt; buffer, [3, 2, 1, 0]);
    }
}
