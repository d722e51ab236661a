// What the library answers about the sample lots of document 01, a line each, for an inspector to read.
//
// The lots come on standard input, one to a line: an operation, the words that it is lent, a bar and a title. A word is
// bytes in hex, `-` if there are none, and a number is one byte. A line with no bar is a heading, and is said as it is.
#![tactic(auto)]

mod lots;
mod reading;
mod saying;
mod showing;

use std::io;

// So much of the input is read as lots; what lies behind is left out.
const MOST_TEXT: usize = 65536;

fn main(rt: HostRuntime) -> io::Result<()> {
    let mut text = [0u8; MOST_TEXT];
    let size = reading::read_full(&mut rt.reader(), &mut text)?;
    lots::answer_all(&mut io::writer(&rt), &text[..size])
}
