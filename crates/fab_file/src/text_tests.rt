use fab_text::{
    Counted, Line, Lines, NumFault, Sink, Span, WriteFault, decimal, push_fixed3, push_fixed4,
    push_number, write_whole,
};
use std::io;
use std::io::Write;
use std::test::*;

// Takes at most `step` bytes a call, and fails once its room is used up.
#[derive(Drop)]
struct Narrow {
    taken: Vec<u8>,
    room: usize,
    step: usize,
}

impl Write for Narrow {
    fn write(&mut self, bytes: &[u8]) -> io::Result<usize> {
        if self.room == 0 {
            return Err(io::Error::from(io::ErrorKind::BrokenPipe));
        }
        let n = self.room.min(self.step).min(bytes.len());
        self.taken.extend_from_slice(&bytes[..n])?;
        self.room -= n;
        Ok(n)
    }

    fn flush(&mut self) -> io::Result<()> {
        Ok(())
    }
}

#[test]
fn lines_are_joined_and_cut(rt: HostRuntime) -> Result<(), Fail> {
    let mut lines = Lines::new(rt.alloc(), b"\r\npinlist: n1 \\ \r\n n2 # \\\n\n x\\");
    let line = lines.next()?.ok_or("none")?;
    assert_eq!(rt; line.number, 2);
    assert_eq!(rt; line.words.len(), 3);
    assert_eq!(rt; line.words[2], b"n2".as_slice());
    assert_eq!(rt; line.spans.len(), 3);
    let place = Span {
        start: 11,
        stop: 13,
    };
    assert_eq!(rt; line.spans[1], place);
    let line = lines.next()?.ok_or("none")?;
    assert_eq!(rt; line.number, 5);
    assert_eq!(rt; line.words.len(), 1);
    assert_eq!(rt; line.words[0], b"x".as_slice());
    assert!(rt; lines.next()?.is_none());
    assert!(rt; lines.next()?.is_none());
    Ok(())
}

#[test]
fn one_backslash_is_dropped(rt: HostRuntime) -> Result<(), Fail> {
    let mut lines = Lines::new(rt.alloc(), b"n1 \\ # c\n\\\na\\\\\nb \\ c\n\x0bd\re");
    let line = lines.next()?.ok_or("none")?;
    assert_eq!(rt; line.number, 1);
    assert_eq!(rt; line.words.len(), 5);
    assert_eq!(rt; line.words[1], b"a\\".as_slice());
    assert_eq!(rt; line.words[2], b"b".as_slice());
    assert!(rt; lines.next()?.is_some());
    Ok(())
}

// Whether two lines are the same.
fn are_same(one: &Line, other: &Line) -> bool {
    one.number == other.number
        && one.spans == other.spans
        && one.words.as_slice() == other.words.as_slice()
}

// Lines of few and of many words by turns, on both sides of what room is made for at once and kept for the next line.
#[test]
fn lines_in_the_room_of_the_line_before(rt: HostRuntime) -> Result<(), Fail> {
    let mut text = Vec::new(rt.alloc());
    for words in [1, 63, 2, 64, 65, 3, 255, 256, 257, 1, 1000, 2] {
        for word in 0..words {
            push_number(&mut text, word)?;
            text.extend_from_slice(if word % 50 == 49 { b" \\\n" } else { b" " })?;
        }
        text.extend_from_slice(b"end # of the line\n\n\t#\n")?;
    }
    let mut lines = Lines::new(rt.alloc(), &text);
    let mut roomy = Lines::new(rt.alloc(), &text);
    let mut done = None;
    let mut count = 0u64;
    for _line in 0..20u64 {
        let line = lines.next()?;
        let same = roomy.next_in_room_of(done)?;
        match (&line, &same) {
            (Some(one), Some(other)) => {
                assert!(rt; are_same(one, other));
                count = count.saturating_add(1);
            }
            _ => assert!(rt; line.is_none() && same.is_none()),
        }
        done = same;
    }
    assert_eq!(rt; count, 12);
    Ok(())
}

#[test]
fn numbers_are_read(rt: HostRuntime) {
    assert_eq!(rt; decimal(b"0.5", 3), Ok(500));
    assert_eq!(rt; decimal(b".5", 3), Ok(500));
    assert_eq!(rt; decimal(b"5.", 3), Ok(5000));
    assert_eq!(rt; decimal(b"00", 0), Ok(0));
    assert_eq!(rt; decimal(b"0.8005", 3), Err(NumFault::TooManyPlaces));
    assert_eq!(rt; decimal(b"0.50000", 4), Err(NumFault::TooManyPlaces));
    assert_eq!(rt; decimal(b"1.2.3", 4), Err(NumFault::BadDigit));
    assert_eq!(rt; decimal(b"", 0), Err(NumFault::BadDigit));
    assert_eq!(rt; decimal(b".", 4), Err(NumFault::BadDigit));
    assert_eq!(rt; decimal(b"+5", 4), Err(NumFault::BadDigit));
    assert_eq!(rt; decimal(b"1.0", 0), Err(NumFault::BadDigit));
    assert_eq!(rt;
        decimal(b"18446744073709551616", 0),
        Err(NumFault::TooLarge)
    );
    assert_eq!(rt; decimal(b"18446744073709551615", 0), Ok(u64::MAX));
    assert_eq!(rt;
        decimal(b"1844674407370955.1616", 4),
        Err(NumFault::TooLarge)
    );
}

#[test]
fn numbers_are_printed(rt: HostRuntime) -> Result<(), Fail> {
    let mut text = Vec::new(rt.alloc());
    push_number(&mut text, u64::MAX)?;
    text.push(b' ')?;
    push_fixed4(&mut text, 64_968)?;
    text.push(b' ')?;
    push_fixed4(&mut text, 20)?;
    text.push(b' ')?;
    push_fixed3(&mut text, 1_680)?;
    text.push(b' ')?;
    push_fixed3(&mut text, 7)?;
    assert_eq!(rt;
        text.as_slice(),
        b"18446744073709551615 6.4968 0.0020 1.680 0.007".as_slice()
    );
    Ok(())
}

#[test]
fn a_beginning_stands_where_a_writer_fails(rt: HostRuntime) -> Result<(), Fail> {
    let text = b"final cost 4.0000";
    for room in 0..text.len() {
        for step in 1..4 {
            let mut out = Counted::new(Narrow {
                taken: Vec::new(rt.alloc()),
                room,
                step,
            });
            assert_eq!(rt; write_whole(&mut out, text), Err(WriteFault));
            assert_eq!(rt; out.failures(), 1);
            assert_eq!(rt; out.into_inner().taken.as_slice(), &text[..room]);
        }
    }
    Ok(())
}

#[test]
fn a_slow_writer_gets_the_same_bytes(rt: HostRuntime) -> Result<(), Fail> {
    let text = b"legal 4 blocks on a 3 x 3 array\n";
    let mut out = Counted::new(Narrow {
        taken: Vec::new(rt.alloc()),
        room: text.len(),
        step: 1,
    });
    write_whole(&mut out, text)?;
    write_whole(&mut out, b"")?;
    assert_eq!(rt; out.failures(), 0);
    assert_eq!(rt; out.into_inner().taken.as_slice(), text.as_slice());
    Ok(())
}

#[test]
fn a_writer_that_takes_nothing_has_failed(rt: HostRuntime) -> Result<(), Fail> {
    let mut out = Counted::new(Narrow {
        taken: Vec::new(rt.alloc()),
        room: 8,
        step: 0,
    });
    assert_eq!(rt; write_whole(&mut out, b"ab"), Err(WriteFault));
    assert_eq!(rt; write_whole(&mut out, b"ab"), Err(WriteFault));
    assert_eq!(rt; out.failures(), 2);
    assert!(rt; out.into_inner().taken.is_empty());
    Ok(())
}

#[test]
fn a_writer_keeps_what_fits(rt: HostRuntime) -> Result<(), Fail> {
    let mut room = [0u8; 4];
    let mut out = Counted::new(room.as_mut_slice());
    write_whole(&mut out, b"abc")?;
    assert_eq!(rt; out.failures(), 0);
    assert_eq!(rt; write_whole(&mut out, b"de"), Err(WriteFault));
    assert_eq!(rt; out.failures(), 1);
    Ok(())
}

// The count is that of the writes alone: asking for it is no write.
#[test]
fn a_writer_that_cannot_tell_is_ready(rt: HostRuntime) -> Result<(), Fail> {
    let mut out = Counted::new(Narrow {
        taken: Vec::new(rt.alloc()),
        room: 0,
        step: 1,
    });
    assert!(rt; out.is_ready());
    assert_eq!(rt; out.failures(), 0);
    assert_eq!(rt; write_whole(&mut out, b"a"), Err(WriteFault));
    assert!(rt; out.is_ready());
    assert_eq!(rt; out.failures(), 1);
    Ok(())
}
