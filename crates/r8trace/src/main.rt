// r8trace: reads a listing from standard input and writes its trace, `printed::trace_text`. A page of 16,384 bytes holds every trace.
#![tactic(auto)]

use std::io;

fn main(rt: HostRuntime) -> io::Result<()> {
    let mut listing = [0u8; 65537];
    let length = input::read_full(&mut rt.stdin(), &mut listing)?;
    let mut page = [0u8; 16384];
    let count = printed::trace_text(&listing[..length], &mut page);
    rt.write_all(&page[..count])
}
