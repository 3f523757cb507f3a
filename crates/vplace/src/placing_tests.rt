// The subcommand `place` in memory.

use crate::desk::{Desk, HEAD, PLACE, REPORT, WORDS, run, run_on};
use fab_text::{Counted, Sink, write_whole};
use std::test::*;

#[test]
fn a_design_is_placed(rt: HostRuntime) -> Result<(), Fail> {
    let left = run(&rt, WORDS.as_slice())?;
    let wanted = [b"0\n".as_slice(), REPORT, PLACE].concat(rt.alloc())?;
    assert_eq!(rt; left, wanted);
    Ok(())
}

#[test]
fn a_word_without_its_value_places_nothing(rt: HostRuntime) -> Result<(), Fail> {
    let words: [&[u8]; 6] = [
        b"place", b"--arch", b"t.arch", b"--out", b"t.place", b"--net",
    ];
    let left = run(&rt, words.as_slice())?;
    assert!(rt; left.starts_with(b"2\n"));
    assert!(rt; !left.ends_with(PLACE));
    Ok(())
}

#[test]
fn no_memory_for_the_out_file(rt: HostRuntime) -> Result<(), Fail> {
    let mut words = WORDS;
    words[8] = b"huge";
    let left = run(&rt, words.as_slice())?;
    let wanted = [b"3\n".as_slice(), REPORT, b"vplace: no memory\n"].concat(rt.alloc())?;
    assert_eq!(rt; left, wanted);
    Ok(())
}

#[test]
fn a_name_that_cannot_be_written_is_told_before_the_first_move(
    rt: HostRuntime,
) -> Result<(), Fail> {
    let mut words = WORDS;
    words[8] = b"missing/t.place";
    let left = run(&rt, words.as_slice())?;
    let wanted = [b"4\n".as_slice(), HEAD, b"vplace: cannot write place\n"].concat(rt.alloc())?;
    assert_eq!(rt; left, wanted);
    Ok(())
}

#[test]
fn no_memory_for_the_name_of_the_out_file(rt: HostRuntime) -> Result<(), Fail> {
    let mut words = WORDS;
    words[8] = b"none";
    let left = run(&rt, words.as_slice())?;
    let wanted = [b"3\n".as_slice(), HEAD, b"vplace: no memory\n"].concat(rt.alloc())?;
    assert_eq!(rt; left, wanted);
    Ok(())
}

#[test]
fn a_disk_that_is_full_by_then_is_told_at_the_end(rt: HostRuntime) -> Result<(), Fail> {
    let mut words = WORDS;
    words[8] = b"late";
    let left = run(&rt, words.as_slice())?;
    let wanted = [b"4\n".as_slice(), REPORT, b"vplace: cannot write place\n"].concat(rt.alloc())?;
    assert_eq!(rt; left, wanted);
    Ok(())
}

#[test]
fn each_fault_of_the_inputs_is_told_by_its_line(rt: HostRuntime) -> Result<(), Fail> {
    let rows: [(usize, &[u8], &[u8]); 4] = [
        (2, b"t.net", b"1\nvplace: arch: A1 NoIoRat\n"),
        (4, b"u.net", b"1\nvplace: net: N8 NoDriver name n2\n"),
        (6, b"t.arch", b"1\nvplace: pads: P10 BadLine line 1\n"),
        (16, b"0", b"2\nvplace: schedule: S4 MovesOutOfRange\n"),
    ];
    for (place, word, told) in rows {
        let mut words = WORDS;
        words[place] = word;
        let left = run(&rt, words.as_slice())?;
        assert_eq!(rt; left.as_slice(), told);
    }
    Ok(())
}

#[test]
fn each_file_that_is_not_there_is_told_by_its_role(rt: HostRuntime) -> Result<(), Fail> {
    let rows: [(usize, &[u8]); 3] = [
        (2, b"4\nvplace: cannot read arch\n"),
        (4, b"4\nvplace: cannot read net\n"),
        (6, b"4\nvplace: cannot read pads\n"),
    ];
    for (place, told) in rows {
        let mut words = WORDS;
        words[place] = b"no";
        let left = run(&rt, words.as_slice())?;
        assert_eq!(rt; left.as_slice(), told);
    }
    Ok(())
}

// More bytes than a pipe or a page cache takes at once.
#[test]
fn a_long_text_is_written_whole(rt: HostRuntime) -> Result<(), Fail> {
    let text = vec![in rt.alloc(); b'x'; 200_000]?;
    let mut out = Counted::new(Vec::new(rt.alloc()));
    write_whole(&mut out, text.as_slice())?;
    assert_eq!(rt; out.failures(), 0);
    assert_eq!(rt; out.into_inner(), text);
    Ok(())
}

// Wherever the output fails, nothing is placed, and the place of the out file is given up.
#[test]
fn a_run_whose_output_fails_gives_its_place_up(rt: HostRuntime) -> Result<(), Fail> {
    for room in 0..REPORT.len() {
        let desk = Desk::new(rt.alloc(), None);
        let left = run_on(&rt, desk, WORDS.as_slice(), room)?;
        let begun = &REPORT[..room];
        let wanted = [b"4\n".as_slice(), begun, b"vplace: cannot write report\n"].concat(
            rt.alloc(),
        )?;
        assert_eq!(rt; left, wanted);
    }
    Ok(())
}
