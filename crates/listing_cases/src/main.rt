// Corner cases of the listing's store and of the comment call, a printed line for each. For a store: the answer, the first four
// words that changed, and how many did.
#![tactic(auto)]

use listing::FaultAt;
use std::{fmt, io};

// A word in its four digits.
#[derive(Clone, Copy)]
struct Word(u16);

impl fmt::Display for Word {
    fn fmt<W: fmt::Write>(&self, f: &mut fmt::Formatter<W>) -> fmt::Result {
        for digit in hexadecimal::word_text(self.0) {
            f.write_char(char::from(digit))?;
        }
        Ok(())
    }
}

// What the word at an index is before a store.
fn filler(i: usize) -> u16 {
    ((i % 65536) as u16).wrapping_add(0xA000)
}

fn fill(memory: &mut [u16]) {
    for (i, word) in memory.iter_mut().enumerate() {
        *word = filler(i);
    }
}

fn has_changed(at: &(usize, &u16)) -> bool {
    *at.1 != filler(at.0)
}

// Prints the first four words that changed, and how many did.
fn print_changes(rt: &impl Print, memory: &[u16]) -> io::Result<()> {
    for (i, word) in memory.iter().enumerate().filter(has_changed).take(4) {
        print!(rt; " {}={}", Word((i % 65536) as u16), Word(*word))?;
    }
    let count = memory.iter().enumerate().filter(has_changed).count();
    println!(rt; ", changed {count}")
}

// Stores a listing into a memory as it lies.
fn show_store(rt: &impl Print, memory: &mut [u16], name: &[u8], text: &[u8]) -> io::Result<()> {
    rt.write_all(name)?;
    match listing::store(text, memory) {
        Ok(count) => print!(rt; ": stored {count}")?,
        Err(FaultAt { fault, offset }) => print!(rt; ": refused {} at {offset}", u8::from(fault))?,
    }
    print_changes(rt, memory)
}

// Stores the listings of some cases, each a name, `|`, a listing, `|`: into a memory filled anew, or into what the last one left.
fn show_cases(rt: &impl Print, memory: &mut [u16], keep: bool, cases: &[u8]) -> io::Result<()> {
    let mut parts = cases.split(|b| *b == b'|');
    while let (Some(name), Some(text)) = (parts.next(), parts.next()) {
        if !keep {
            fill(memory);
        }
        show_store(rt, memory, name, text)?;
    }
    Ok(())
}

// Cases with a memory of eight words.
fn show_small(rt: &impl Print, cases: &[u8]) -> io::Result<()> {
    let mut memory = [0; 8];
    show_cases(rt, &mut memory, false, cases)
}

// Lines of spaces or none, how the last line ends, and spaces and tabs elsewhere.
fn show_blank_lines(rt: &impl Print) -> io::Result<()> {
    let cases = b"\
        empty||\
        one LF|\n|\
        only spaces|   |\
        spaces and LFs|  \n\n \n|\
        one line|0000 1234\n|\
        no final LF|0000 1234|\
        two lines, no final LF|0000 1234\n0001 5678|\
        blank lines between|\n0000 1234\n\n   \n0001 5678\n \n|\
        spaces at the end|0000 1234\n  |\
        two spaces|0000  1234\n|\
        leading space| 0000 1234\n|\
        trailing spaces|0000 1234   \n|\
        trailing spaces, no LF|0000 1234   |\
        tab between|0000\t1234\n|\
        leading tab|\t0000 1234\n|\
        trailing tab|0000 1234\t\n|\
        only a tab|\t\n|";
    show_small(rt, cases)
}

// Digits of either case, bytes next to them in the code, and too few or too many digits.
fn show_digits(rt: &impl Print) -> io::Result<()> {
    let cases = b"\
        upper case|0000 0123\n0001 4567\n0002 89AB\n0003 CDEF\n|\
        lower case|0002 89ab\n0003 cdef\n|\
        mixed case|0000 aBcD\n0001 FfEe\n|\
        G|000G 1234\n|\
        g|0000 123g\n|\
        at sign|@000 1234\n|\
        slash|0/00 1234\n|\
        colon|0000 :234\n|\
        backtick|0000 12`4\n|\
        3 and 4 digits|000 1234\n|\
        4 and 3 digits|0000 123\n|\
        4 and 3 digits, a space|0000 123 \n|\
        5 and 4 digits|00000 1234\n|\
        4 and 5 digits|0000 12345\n|\
        3 and 5 digits|000 12345\n|\
        5 and 3 digits|00000 123\n|\
        no space|00001234\n|\
        nine digits|000012345\n|\
        only an address|0000\n|\
        no word|0000 \n|\
        a third number|0000 1234 5678\n|";
    show_small(rt, cases)
}

// Comments, and `;` where none can start. CR, 0 and 255 are wrong outside a comment and fine in one; none ends a line.
fn show_comments(rt: &impl Print) -> io::Result<()> {
    let cases = b"\
        only a semicolon|;\n|\
        only a comment|; a\n|\
        spaces and a semicolon|   ;\n|\
        comment at once|0000 1234;a\n|\
        comment after spaces|0000 1234   ; a\n0001 5678\n|\
        semicolon in a comment|0000 1234 ; a ; b\n|\
        empty comment|0000 1234 ;\n0001 5678;\n|\
        comment, no final LF|0000 1234 ; a|\
        semicolon last|0000 1234;|\
        entry in a comment|0000 1234 ;0001 5678\n|\
        semicolon between|0000;1234\n|\
        semicolon in the word|0000 12;4\n|\
        comment for the word|0000 ;1234\n|\
        CR before LF|0000 1234\r\n|\
        spaces, CR|0000 1234  \r\n|\
        only CR|\r\n|\
        CR for LF|0000 1234\r0001 5678\n|\
        CR in a comment|0000 1234 ; a\r\n0001 5678 ; b\r\n|\
        CR ends no comment|0000 1234 ; a\r0001 5678\n|\
        0 in a comment|0000 1234 ;\x00\n|\
        255 in a comment|0000 1234 ;\xff\n|\
        0 after the word|0000 1234\x00\n|\
        255 after the word|0000 1234\xff\n|\
        0 between|0000\x001234\n|\
        255 as a digit|000\xff 1234\n|\
        only 0|\x00|\
        only 255|\xff|";
    show_small(rt, cases)
}

// Addresses strictly rise and stay within the memory; the first faulty line wins, and 2 goes before 3 and 4 within a line. A line
// that is past the end and does not rise comes after another that is past the end.
fn show_faults(rt: &impl Print) -> io::Result<()> {
    let cases = b"\
        rising|0000 1111\n0001 2222\n0002 3333\n|\
        rising by leaps|0002 1111\n0007 2222\n|\
        equal|0000 1111\n0000 2222\n|\
        falling|0003 1111\n0002 2222\n|\
        falling after a rise|0001 1111\n0005 2222\n0003 3333\n|\
        equal over blank lines|0001 1111\n\n  \n0001 2222\n|\
        rising over blank lines|0001 1111\n\n  \n0002 2222\n|\
        a comment's address|0001 1111 ;0007 0000\n0002 2222\n|\
        last address|0007 1234\n|\
        at the end|0008 1234\n|\
        FFFF past the end|FFFF 1234\n|\
        2 over 4|FFFF 12G4\n|\
        2 over 3|0001 1111\n0000 12G4\n|\
        4, then 4 and 3|0008 1111\n0008 2222\n|\
        4 after a rise|0001 1111\n0008 2222\n|\
        3, then 2|0001 1111\n0001 2222\nbad\n|\
        2, then 3|0001 1111\nbad\n0001 2222\n|\
        4, then 2|0008 1111\nbad\n|\
        2, then 4|bad\n0008 1111\n|\
        3, then 4|0001 1111\n0001 2222\n0008 3333\n|\
        4, then 3|0001 1111\n0008 2222\n0001 3333\n|\
        2 on the last line|0000 1111\n0001 2222\n0002 3333\n0003 444\n|\
        3 on the last line|0000 1111\n0001 2222\n0002 3333\n0002 4444\n|\
        4 on the last line|0000 1111\n0001 2222\n0002 3333\n0008 4444\n|\
        2 at the end, no LF|0000 1111\n0001 2222\nx|\
        2 after comments|0000 1111 ; a\n\n   \n0001 2222;b\n ;\n|";
    show_small(rt, cases)
}

// No words; as many as addresses reach; one more.
fn show_limits(rt: &impl Print) -> io::Result<()> {
    let mut none = [0; 0];
    let cases = b"\
        L 0, 0000|0000 1234\n|\
        L 0, empty||\
        L 0, blank lines|\n  \n|\
        L 0, ill-formed|0000\n|";
    show_cases(rt, &mut none, false, cases)?;
    let mut most = [0; 65536];
    let cases = b"\
        L 65536, FFFF|0000 5678\nFFFF 1234\n|\
        letters in addresses|00ff 0001\n0aBc 0002\nABCD 0003\nfedc 0004\n|\
        FFFF twice|FFFF 1111\nFFFF 2222\n|\
        0000 after FFFF|FFFF 1111\n0000 2222\n|";
    show_cases(rt, &mut most, false, cases)?;
    let mut more = [0; 65537];
    let cases = b"\
        L 65537, FFFF|0000 5678\nFFFF 1234\n|";
    show_cases(rt, &mut more, false, cases)
}

// One store after another into the same memory.
fn show_again(rt: &impl Print) -> io::Result<()> {
    let mut memory = [0; 8];
    fill(&mut memory);
    let cases = b"\
        first store|0001 1111\n0003 2222\n|\
        same store again|0001 1111\n0003 2222\n|\
        refused after a store|0001 3333\n0008 4444\n|\
        other words stay|0000 5555\n0003 6666\n|";
    show_cases(rt, &mut memory, true, cases)
}

// A line of a listing.
fn entry(address: u16, word: u16) -> [u8; 10] {
    let [a, b, c, d] = hexadecimal::word_text(address);
    let [e, f, g, h] = hexadecimal::word_text(word);
    [a, b, c, d, b' ', e, f, g, h, b'\n']
}

// A line for each address, whose word is its filler.
fn write_entries(text: &mut [u8; 655360]) {
    let (lines, _) = text.as_chunks_mut::<10>();
    for (line, address) in lines.iter_mut().zip(0..=u16::MAX) {
        *line = entry(address, filler(usize::from(address)));
    }
}

fn show_entries(rt: &impl Print, memory: &mut [u16; 65536], text: &[u8; 655360]) -> io::Result<()> {
    show_store(rt, memory, b"65536 lines", text)
}

// A line for each address: the last with a wrong digit, then with the address before; all sound; then a space for the last LF.
// The words are zero before, so that none counts as changed once all are stored.
fn show_long(rt: &impl Print) -> io::Result<()> {
    let mut memory = [0; 65536];
    let mut text = [0; 655360];
    write_entries(&mut text);
    text[655358] = b'G';
    show_entries(rt, &mut memory, &text)?;
    text[655358] = b'F';
    text[655353] = b'E';
    show_entries(rt, &mut memory, &text)?;
    text[655353] = b'F';
    show_entries(rt, &mut memory, &text)?;
    text[655359] = b' ';
    show_entries(rt, &mut memory, &text)
}

// A comment, with CR as `\r`.
fn show_comment(rt: &impl Print, text: &[u8], offset: usize) -> io::Result<()> {
    print!(rt; "comment from {offset}: [")?;
    for byte in lines::comment(text, offset) {
        match *byte {
            b'\r' => rt.write_all(b"\\r")?,
            byte => rt.write_all(&[byte])?,
        }
    }
    println!(rt; "]")
}

fn show_at(rt: &impl Print, offset: usize) -> io::Result<()> {
    let text = b"0000 1234 ;a;b\n0001 5678\n0002 9ABC ; c\r\n0003 DEF0;\n0004 0000 ;d";
    show_comment(rt, text, offset)
}

// Every offset of a listing, and the two after it.
fn show_every_offset(rt: &impl Print) -> io::Result<()> {
    for offset in 0..65 {
        show_at(rt, offset)?;
    }
    Ok(())
}

// The largest offset; listings of nothing and of one byte.
fn show_little(rt: &impl Print) -> io::Result<()> {
    show_at(rt, usize::MAX)?;
    show_comment(rt, b"", 0)?;
    show_comment(rt, b"", 1)?;
    show_comment(rt, b";", 0)
}

// A comment of 200 bytes behind 80 others: from the line's start, from its `;` and from its own middle.
fn show_far(rt: &impl Print) -> io::Result<()> {
    let text = b"\
        0000 1234                                                                      ;\
        1 comment of 200 bytes, 40 to a row.....\
        2 comment of 200 bytes, 40 to a row.....\
        3 comment of 200 bytes, 40 to a row.....\
        4 comment of 200 bytes, 40 to a row.....\
        5 comment of 200 bytes, 40 to a row.....\
        \n0001 5678 ; next";
    show_comment(rt, text, 0)?;
    show_comment(rt, text, 79)?;
    show_comment(rt, text, 180)
}

fn main(rt: HostRuntime) -> io::Result<()> {
    show_blank_lines(&rt)?;
    show_digits(&rt)?;
    show_comments(&rt)?;
    show_faults(&rt)?;
    show_limits(&rt)?;
    show_again(&rt)?;
    show_long(&rt)?;
    show_every_offset(&rt)?;
    show_little(&rt)?;
    show_far(&rt)
}
