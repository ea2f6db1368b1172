// What no clause says of reading: that all bytes of an input that ends are counted, and that a read which fails is told, with the count of those before it.
use crate::{read, read_counted};
use std::io::{self, ErrorKind, Read};

// An input of this many bytes, two at a time, which then ends or fails.
#[derive(Drop)]
struct Halting {
    left: usize,
    fails: bool,
}

impl Read for Halting {
    fn read(&mut self, buf: &mut [u8]) -> io::Result<usize> {
        if self.left == 0 && self.fails {
            return Err(io::Error::from(ErrorKind::TimedOut));
        }
        let n = self.left.min(2).min(buf.len());
        self.left -= n;
        Ok(n)
    }
}

#[test]
fn reads(rt: HostRuntime) {
    for (left, fails, want) in [
        (0, false, Ok(0)),
        (5, false, Ok(5)),
        (9, false, Ok(8)),
        (9, true, Ok(8)),
        (5, true, Err(ErrorKind::TimedOut)),
        (0, true, Err(ErrorKind::TimedOut)),
    ] {
        let said = read(&mut Halting { left, fails }, &mut [0; 8]);
        assert_eq!(rt; said.map_err(|error| error.kind()), want, "of {left}");
    }
}

#[test]
fn counts_before_a_read_that_fails(rt: HostRuntime) {
    for (left, want) in [(0, 0), (5, 5), (7, 7)] {
        let said = read_counted(&mut Halting { left, fails: true }, &mut [0; 8]);
        assert_eq!(rt;
            said.err().map(|failed| failed.count),
            Some(want),
            "of {left}"
        );
    }
}
