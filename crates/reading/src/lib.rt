// Reading a file or standard input: into a lent buffer, or as bytes of its own.
#![tactic(auto)]

ghost use Rattle.std.specs.Prelude.{◌≡◌, ◌≤◌, length, take, IfOk, IfSome, OnErr, vec_len};
ghost use Rattle.std.specs.Io.KnownBytes.{Consumes};

use std::alloc::{AllocError, Allocator};
use std::fs;
use std::io::{self, Read};
use std::rt::Files;

// Reads until the buffer is full, the input ends or a read fails, and returns how many bytes it put at the buffer's start: just those that
// were read. On an empty buffer it reads nothing. Behind those bytes the buffer is left open, and how many they are beyond the bound, as std's `read`
// says neither.
pub fn read_full<R: Read>(from: &mut R, buf: &mut [u8]) -> usize
    ensures bound { result ≤ length buf.new }
    ensures bytes { Consumes (R.remaining from.old) (R.remaining from.new) (take result buf.new) }
{
    let mut done = 0;
    // std has no call that fills a lent buffer as far as the input reaches and says how far.
    while done < buf.len() {
        match from.read(&mut buf[done..]) {
            Ok(0) => break,
            Ok(n) => done += n,
            Err(_) => break,
        }
    }
    done
}

// The first bytes of the input, `most` at most: up to its end or to a read that fails. Where memory fails, nothing is read.
pub fn read_up_to<R: Read, A: Allocator>(
    alloc: A,
    from: &mut R,
    most: usize,
) -> Result<Vec<u8, A>, AllocError>
    ensures bound { IfOk result (λ bytes. vec_len bytes ≤ most) }
    ensures bytes { IfOk result (λ bytes. Consumes (R.remaining from.old) (R.remaining from.new) bytes.items) }
    ensures unread { OnErr result (from.new ≡ from.old) }
{
    let mut bytes = vec![in alloc; 0; most]?;
    let n = read_full(from, &mut bytes);
    bytes.truncate(n);
    Ok(bytes)
}

// Opens the file of that name and reads its first bytes, `most` at most.
fn read_named(rt: &(impl Files + AllocGlobal), name: &str, most: usize) -> io::Result<Vec<u8>>
    ensures { IfOk result (λ bytes. vec_len bytes ≤ most) }
{
    let mut file = fs::open(rt, name)?;
    Ok(read_up_to(rt.alloc(), &mut file, most)?)
}

// The first bytes of the file of that name, `most` at most. Where it cannot be opened, a line on standard error says why.
pub fn read_file(
    rt: &(impl Files + AllocGlobal + Eprint),
    name: &str,
    most: usize,
) -> Option<Vec<u8>>
    ensures { IfSome result (λ bytes. vec_len bytes ≤ most) }
{
    match read_named(rt, name, most) {
        Ok(bytes) => Some(bytes),
        Err(e) => {
            // A write that fails is passed over.
            let _ = eprintln!(rt; "{name}: {e}");
            None
        }
    }
}

#[cfg(test)]
mod tests {
    use super::{read_file, read_up_to};
    use std::test::Fail;
    use std::{fs, io};

    #[test]
    fn input_is_read_to_its_end_or_so_far(rt: HostRuntime) -> Result<(), Fail> {
        let mut input = &b"seven"[..];
        let front = read_up_to(rt.alloc(), &mut input, 2)?;
        assert_eq!(rt; front.as_slice(), &b"se"[..]);
        let rest = read_up_to(rt.alloc(), &mut input, 10)?;
        assert_eq!(rt; rest.as_slice(), &b"ven"[..]);
        Ok(())
    }

    #[test]
    fn file_is_read_so_far(rt: HostRuntime) -> io::Result<()> {
        fs::write(&rt, "seven.txt", "seven")?;
        let front = read_file(&rt, "seven.txt", 3);
        fs::remove_file(&rt, "seven.txt")?;
        let gone = read_file(&rt, "seven.txt", 3);
        assert_eq!(rt; front.as_deref(), Some(&b"sev"[..]));
        assert_eq!(rt; gone.is_none(), true);
        Ok(())
    }
}
