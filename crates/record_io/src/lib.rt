// What the programs share that read and write.
#![tactic(auto)]

ghost use Rattle.std.specs.Prelude.{◌≡◌, ◌≢◌, ◌<◌, length, take, IfOk, MatchOption};
ghost use Rattle.std.specs.Io.{ReadsAtMost};
ghost use Rattle.std.specs.Io.KnownBytes.{Consumes, IsAtEnd};
ghost use Rattle.std.specs.Iterator.{at_most};

use std::io;
use std::io::Read;

// Reads until the buffer is full or the input ends, and returns how many bytes it put at the start.
pub fn read_full<R: Read>(input: &mut R, buffer: &mut [u8]) -> io::Result<usize>
    ensures bound { ReadsAtMost result buffer.new }
    ensures bytes { IfOk result (λ n.
        Consumes (R.remaining input.old) (R.remaining input.new) (take n buffer.new)) }
    ensures short { IfOk result (λ n. n < length buffer.new → IsAtEnd (R.remaining input.new)) }
{
    let mut done = 0;
    // By what each read gives; `read_exact` would not tell how many bytes there were before the end.
    while done < buffer.len() {
        let n = input.read(&mut buffer[done..])?;
        if n == 0 {
            return Ok(done);
        }
        done += n;
    }
    Ok(done)
}

// The most records that are read of an input.
const MOST: u64 = 1_000_000;

// Records of N bytes each, one after another, at most a million; a last one that is cut short is
// passed over. Counted, since an iterator has to show that it ends, and an input need not end.
#[derive(Drop)]
pub struct Records<R, const N: usize> {
    input: R,
    left: u64,
}

impl<R: Read, const N: usize> Records<R, N> {
    pub fn new(input: R) -> Records<R, N>
        ensures all { result.left ≡ 1000000 }
        ensures input { result.input ≡ input }
    {
        Records { input, left: MOST }
    }
}

impl<R: Read + Drop, const N: usize> Iterator for Records<R, N> {
    type Item = io::Result<[u8; N]>;

    ghost next_gives = { λ s r t.
        MatchOption r (s.left ≢ 0 → IsAtEnd (R.remaining t.input))
        (λ x. IfOk x (Consumes (R.remaining s.input) (R.remaining t.input))) };

    ghost remaining = { λ s. at_most s.left };

    fn next(&mut self) -> Option<io::Result<[u8; N]>> {
        if self.left == 0 {
            return None;
        }
        self.left -= 1;
        let mut record = [0u8; N];
        match read_full(&mut self.input, &mut record) {
            Err(e) => Some(Err(e)),
            Ok(n) if n < N => None,
            Ok(_) => Some(Ok(record)),
        }
    }

    fn size_hint(&self) -> (usize, Option<usize>) {
        (0, Some(self.left as usize))
    }
}

#[cfg(test)]
mod tests {
    use super::*;

    // Gives the bytes from 1 to 5, one in a read, and then fails or ends.
    #[derive(Drop)]
    struct Slow {
        given: u8,
        fails: bool,
    }

    impl Read for Slow {
        fn read(&mut self, buf: &mut [u8]) -> io::Result<usize> {
            if (buf.len() == 0) | (5 <= self.given) {
                if self.fails {
                    return Err(io::Error::other("no more"));
                }
                return Ok(0);
            }
            self.given += 1;
            buf[0] = self.given;
            Ok(1)
        }
    }

    #[test]
    fn fills_pieces_from_short_reads(rt: HostRuntime) -> io::Result<()> {
        let mut input = Slow {
            given: 0,
            fails: false,
        };
        let mut piece = [0u8; 3];
        assert_eq!(rt; read_full(&mut input, &mut piece)?, 3);
        assert_eq!(rt; piece, [1, 2, 3]);
        assert_eq!(rt; read_full(&mut input, &mut piece)?, 2);
        assert_eq!(rt; piece, [4, 5, 3]);
        assert_eq!(rt; read_full(&mut input, &mut piece)?, 0);
        Ok(())
    }

    #[test]
    fn records_end_with_the_last_whole_one(rt: HostRuntime) -> io::Result<()> {
        let input = Slow {
            given: 0,
            fails: false,
        };
        let mut sum = 0u8;
        let mut count = 0u8;
        for record in Records::<_, 2>::new(input) {
            sum = sum.wrapping_add(record?[1]);
            count = count.wrapping_add(1);
        }
        assert_eq!(rt; count, 2);
        assert_eq!(rt; sum, 6);
        Ok(())
    }

    #[test]
    fn records_hand_on_an_error(rt: HostRuntime) {
        let mut records = Records::<_, 8>::new(Slow {
            given: 0,
            fails: true,
        });
        assert!(rt; records.next().is_some_and(|record| record.is_err()));
    }

    #[test]
    fn hands_on_an_error_in_mid_stream(rt: HostRuntime) {
        let mut input = Slow {
            given: 0,
            fails: true,
        };
        let mut piece = [0u8; 8];
        assert!(rt; read_full(&mut input, &mut piece).is_err());
    }
}
