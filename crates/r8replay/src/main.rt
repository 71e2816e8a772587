// r8replay: plays a script of calls from standard input on a fresh core and a memory of 16,384 zero words. Writes a line for each call's
// answer, and the lines of each listing that is asked for; or the first line of the script that cannot be read.
#![tactic(auto)]

use layout::Answer;
use output::Page;
use replay::CallFault;
use script::ScriptError;
use std::io;

// A word of an answer. It fits; the remainder only says so.
fn word(n: u64) -> u16 {
    (n % 65536) as u16
}

// A stop state, by its number.
fn stop_text(stop: u64) -> &'static [u8] {
    match stop {
        0 => b" going",
        1 => b" halted",
        _ => b" undefined",
    }
}

// What a view answers: R0 to R15, PC, SP, flags, stop state and clock; the cycle due, at place 21, is 1.
fn put_view(page: &mut Page, numbers: &[u64; 23]) {
    page.put(b"R");
    for register in &numbers[1..17] {
        page.put_word(b" ", word(*register));
    }
    page.put_word(b" PC ", word(numbers[17]));
    page.put_word(b" SP ", word(numbers[18]));
    page.put(b" NZCV ");
    page.put(&text::flags_text(layout::flags_of(numbers[19])));
    page.put(stop_text(numbers[20]));
    page.put_number(b" clock ", numbers[22]);
}

// The line of an answer of 23 numbers, the case first.
fn put_answer(page: &mut Page, numbers: &[u64; 23]) {
    match numbers[0] {
        0 => page.put(b"reset"),
        1 => page.put_number(b"stored ", numbers[1]),
        2 => page.put_totals(numbers[1], numbers[2], (numbers[3] % 256) as u8),
        3 => put_view(page, numbers),
        4 => page.put_number(b"refused ", numbers[1]),
        _ => {
            page.put_number(b"refused ", numbers[1]);
            page.put_number(b" at ", numbers[2]);
        }
    }
    page.put(b"\n");
}

// The line of a call. A script's calls are all calls, with stretches of the text (`ScriptPlayed` in script): the last two cases do not
// arise.
fn put_reply(page: &mut Page, answer: Result<[u64; 23], CallFault>) {
    match answer {
        Ok(numbers) => put_answer(page, &numbers),
        Err(CallFault::NoCall) => page.put(b"no call\n"),
        Err(CallFault::NoStretch) => page.put(b"no stretch\n"),
    }
}

// Writes out the page so far, which begins anew, and behind it words of the memory as listing lines. A listing that is refused has the line
// that a load would have. There is room for every word: number 10 does not arise.
fn write_listing(
    rt: &impl Print,
    page: &mut Page,
    first: u64,
    count: u64,
    memory: &[u16],
) -> io::Result<()> {
    let mut text = [0u8; 163840];
    let answer = dump::listing(memory, first as usize, count as usize, &mut text);
    match answer {
        Ok(length) => {
            rt.write_all(page.written())?;
            page.clear();
            rt.write_all(text.get(..length).unwrap_or(&text))
        }
        Err(_) => {
            put_answer(page, &answer.numbers());
            Ok(())
        }
    }
}

// Plays calls and listings, three numbers each, one after the other.
fn play(
    rt: &impl Print,
    page: &mut Page,
    calls: &[u64],
    input: &[u8],
    memory: &mut [u16],
) -> io::Result<()> {
    let mut core = r8_core::fresh();
    let (calls, _) = calls.as_chunks::<3>();
    for call in calls {
        let [kind, first, second] = *call;
        if kind == script::LISTING {
            write_listing(rt, page, first, second, memory)?;
        } else {
            let reply = replay::play_call(core, kind, first, second, input, memory);
            core = reply.core;
            put_reply(page, reply.answer);
        }
    }
    Ok(())
}

// Plays a script, with lent room for its calls.
fn play_script(
    rt: &impl Print,
    page: &mut Page,
    input: &[u8],
    calls: &mut [u64],
) -> io::Result<()> {
    match script::read(input, calls) {
        Ok(count) => {
            let mut memory = [0u16; 16384];
            play(rt, page, &calls[..count * 3], input, &mut memory)?;
        }
        Err(ScriptError::Unreadable(line)) => {
            page.put_number(b"line ", line as u64);
            page.put(b" cannot be read\n");
        }
        Err(ScriptError::NoRoom) => page.put(b"too many calls\n"),
    }
    Ok(())
}

// 65,536 bytes have at most 13,107 calls (`FewCalls` in script), so there is room for their numbers, and on the page for as many of the
// longest lines, those of views, which have 135 bytes at most.
fn main(rt: HostRuntime) -> io::Result<()> {
    let mut text = [0u8; 65537];
    let length = input::read_full(&mut rt.stdin(), &mut text)?;
    if length > 65536 {
        return rt.write_all(b"too long\n");
    }
    let mut calls = [0u64; 39324];
    let mut bytes = [0u8; 1769445];
    let mut page = Page::new(&mut bytes);
    play_script(&rt, &mut page, &text[..length], &mut calls)?;
    rt.write_all(page.written())
}
