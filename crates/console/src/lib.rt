// What the programs read and write: standard input up to its end or to the room there is, numbers in decimal and bytes in hex. A reader or a
// writer over memory shows what each of these did to its bytes; one that fails may have moved some of them.
#![tactic(auto)]

ghost use Rattle.std.specs.Prelude.{◌≡◌, ◌<◌, ◌/◌, ◌%◌, false, [], ◌∷◌, length, take, IfOk, OnOk};
ghost use Rattle.std.specs.Io.KnownBytes.{Appends, Consumes, IsAtEnd};
ghost use Rattle.std.specs.Fmt.{decimal, digit_glyph};
ghost use Rattle.io.specs.Counts.{IsPrefixLen};

use std::io;
use std::io::{Read, Write};

// Reads until the room is full or the input ends, and counts the bytes, which stand at the front. A read that a signal broke off is one that
// failed.
pub fn read_full<R: Read>(from: &mut R, into: &mut [u8]) -> io::Result<usize>
    ensures prefix_len { IfOk result (λ n. IsPrefixLen n into.new) }
    ensures bytes { IfOk result (λ n. Consumes (R.remaining from.old) (R.remaining from.new) (take n into.new)) }
    ensures end { IfOk result (λ n. n < length into.new → IsAtEnd (R.remaining from.new)) }
{
    // How far a read gets is the reader's own, so that no loop over a range fits.
    let mut done = 0;
    while done < into.len() {
        let n = from.read(&mut into[done..])?;
        if n == 0 {
            return Ok(done);
        }
        done += n;
    }
    Ok(done)
}

// Writes a number in decimal.
pub fn write_decimal<W: Write>(to: &mut W, n: u64) -> io::Result<()>
    ensures { OnOk result (Appends (W.contents to.old) (W.contents to.new) (decimal n)) }
{
    write!(to, "{n}")
}

// Writes a byte as two digits in hex, in lower case.
#[tactic(auto, using(std::proofs::lemmas::Fmt::hex_byte))]
pub fn write_hex<W: Write>(to: &mut W, byte: u8) -> io::Result<()>
    ensures { OnOk result (Appends (W.contents to.old) (W.contents to.new) (digit_glyph false (byte / 16) ∷ digit_glyph false (byte % 16) ∷ [])) }
{
    write!(to, "{byte:02x}")
}

#[cfg(test)]
mod tests {
    use super::*;
    use std::test::Fail;

    // A reader that gives two bytes and then fails.
    #[derive(Drop)]
    struct Broken {
        given: bool,
    }

    impl Read for Broken {
        fn read(&mut self, buf: &mut [u8]) -> io::Result<usize> {
            if self.given | (buf.len() < 2) {
                return Err(io::Error::from(io::ErrorKind::Other));
            }
            self.given = true;
            buf[0] = 1;
            buf[1] = 2;
            Ok(2)
        }
    }

    #[test]
    fn numbers_are_written(rt: HostRuntime) -> Result<(), Fail> {
        let mut text = Vec::new(rt.alloc());
        write_decimal(&mut text, 0)?;
        write_decimal(&mut text, 18446744073709551615)?;
        write_hex(&mut text, 10)?;
        write_hex(&mut text, 255)?;
        assert_eq!(rt; text.as_slice(), b"0184467440737095516150aff".as_slice());
        Ok(())
    }

    #[test]
    fn input_is_read(rt: HostRuntime) -> Result<(), Fail> {
        let mut from: &[u8] = b"abcde";
        let mut into = [0u8; 3];
        assert_eq!(rt; read_full(&mut from, &mut into)?, 3);
        assert_eq!(rt; into.as_slice(), b"abc".as_slice());
        assert_eq!(rt; read_full(&mut from, &mut into)?, 2);
        assert_eq!(rt; into.as_slice(), b"dec".as_slice());
        assert_eq!(rt; read_full(&mut from, &mut into)?, 0);
        Ok(())
    }

    #[test]
    fn a_read_that_fails_is_the_answer(rt: HostRuntime) {
        let mut from = Broken { given: false };
        let mut into = [0u8; 4];
        assert!(rt; read_full(&mut from, &mut into).is_err());
        let mut again = Broken { given: false };
        let mut short = [0u8; 2];
        assert!(rt; read_full(&mut again, &mut short).is_ok());
    }
}
