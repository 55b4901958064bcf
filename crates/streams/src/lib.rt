// Reads a stream into a buffer, for the programs.
#![tactic(auto)]

ghost use Rattle.std.specs.Prelude.{take};
ghost use Rattle.io.specs.Counts.{IsPrefixLen};
ghost use Rattle.std.specs.Io.KnownBytes.{Consumes};

use std::io::Read;

// Reads until `buf` is full, the stream ends or a read fails, and returns how many bytes it put at the start of `buf`. If it
// is known what the stream has left, these are the first of its bytes, and the stream keeps the others.
pub fn read_full<R: Read>(reader: &mut R, buf: &mut [u8]) -> usize
    ensures prefix_len { IsPrefixLen result buf.new }
    ensures bytes { Consumes (R.remaining reader.old) (R.remaining reader.new) (take result buf.new) }
{
    let mut done = 0;
    while done < buf.len() {
        match reader.read(&mut buf[done..]) {
            Ok(0) => return done,
            Ok(n) => done += n,
            Err(_) => return done,
        }
    }
    done
}

#[cfg(test)]
mod tests {
    use super::*;
    use std::io;

    // Gives 1, 2 and 3, one a read, and then fails.
    #[derive(Drop)]
    struct Failing {
        given: u8,
    }

    impl Read for Failing {
        fn read(&mut self, buf: &mut [u8]) -> io::Result<usize> {
            if 3 <= self.given || buf.is_empty() {
                return Err(io::Error::from(io::ErrorKind::Other));
            }
            self.given += 1;
            buf[0] = self.given;
            Ok(1)
        }
    }

    #[test]
    fn stream_shorter_than_the_buffer(rt: HostRuntime) {
        let mut stream: &[u8] = b"hello";
        let mut buf = [0u8; 8];
        assert_eq!(rt; read_full(&mut stream, &mut buf), 5, "all bytes");
        assert!(rt;
            &buf == b"hello\0\0\0",
            "the bytes, and then what was there"
        );
    }

    #[test]
    fn stream_longer_than_the_buffer(rt: HostRuntime) {
        let mut stream: &[u8] = b"hello";
        let mut buf = [0u8; 3];
        assert_eq!(rt; read_full(&mut stream, &mut buf), 3, "a full buffer");
        assert!(rt; &buf == b"hel", "the first bytes");
        assert!(rt; stream == b"lo".as_slice(), "the others are left");
    }

    #[test]
    fn pieces_and_a_read_that_fails(rt: HostRuntime) {
        let mut stream = Failing { given: 0 };
        let mut buf = [0u8; 5];
        assert_eq!(rt;
            read_full(&mut stream, &mut buf),
            3,
            "what came before the read that failed"
        );
        assert!(rt; buf == [1, 2, 3, 0, 0], "the pieces in their order");
    }
}
