// The pass program: reads a session from standard input and writes its answers.
#![tactic(auto)]

use std::io;
use std::io::{Read, Write};

// One byte more than the longest session: it shows that there are more.
const INPUT: usize = session::LONGEST + 1;

// Room for all answers: none is longer than six bytes for each byte of the session.
const OUTPUT: usize = 6 * session::LONGEST;

fn main(rt: HostRuntime) -> io::Result<()> {
    let mut input = [0; INPUT];
    let mut output = [0; OUTPUT];
    let mut stdin = rt.stdin();
    let mut len = 0;
    for _ in 0..INPUT {
        let n = stdin.read(&mut input[len..])?;
        if n == 0 {
            break;
        }
        len += n;
    }
    let written = session::run(&input[..len], &mut output);
    rt.stdout().write_all(&output[..written.min(OUTPUT)])
}
